// What is reported of the components of nets.
use super::Row;
use net_report::Status;

// Each oxygen of cuprite is joined to four others through copper: two interwoven diamond nets.
const CUPRITE: &str =
    "PERIODIC_GRAPH\nNAME cuprite\nEDGES\n1 2 0 0 0\n1 2 -1 -1 0\n1 2 -1 0 -1\n1 2 0 -1 -1\nEND\n";

// Two nets of the type of edingtonite, which no translation carries to each other.
const ICE_SIX: &str =
    "PERIODIC_GRAPH\nNAME \"ice VI\"\nEDGES\n1 2 0 0 -1\n1 3 0 0 0\n1 4 0 -1 -1\n1 5 0 0 0\n2 3 -1 0 1\n2 4 0 0 0\n2 5 0 0 0\n3 4 1 -1 -1\n3 5 1 0 0\n4 5 0 1 0\n6 7 0 0 -1\n6 8 0 0 0\n6 9 0 -1 -1\n6 10 0 0 0\n7 8 -1 0 1\n7 9 0 0 0\n7 10 0 0 0\n8 9 1 -1 -1\n8 10 1 0 0\n9 10 0 1 0\nEND\n";

const ICE_SIX_REPORT: &str =
    "net 1 line 1 \"ice VI\"\ngraph d=3 vertices=10 edges=20 repeats=0\ncomponents 2\npart 1 vertices=5 copies=1\nkey 3 5 4 1 2 -4 -4 -4 1 3 0 0 4 1 4 0 4 0 1 5 4 0 0 2 3 -6 -6 -12 2 4 -1 3 4 2 5 3 -1 4 3 4 -5 -1 -4 3 5 -1 -5 -4 4 5 -6 6 0\npart 2 vertices=5 copies=1\nkey 3 5 4 1 2 -4 -4 -4 1 3 0 0 4 1 4 0 4 0 1 5 4 0 0 2 3 -6 -6 -12 2 4 -1 3 4 2 5 3 -1 4 3 4 -5 -1 -4 3 5 -1 -5 -4 4 5 -6 6 0\n";

// A net with a key, and one in which two vertices have one position.
const COLLIDING: &str =
    "PERIODIC_GRAPH\nEDGES\n1 1 1 0\n1 1 0 1\n8 7 0 0\n8 7 1 0\n9 7 1 0\n9 7 2 0\n7 7 0 1\nEND\n";

const COLLIDING_REPORT: &str =
    "net 1 line 1\ngraph d=2 vertices=4 edges=7 repeats=0\ncomponents 2\npart 1 vertices=1 copies=1\nkey 2 1 1 1 1 0 1 1 1 1 0\npart 2 vertices=3 copies=1\nrefused 5 Collision u=8 v=9 t=1 0\n";

// A part whose edge is too long in its own coordinates.
const FAR: &str = "PERIODIC_GRAPH\nEDGES\n1 1 1 0\n1 1 0 1\n1 2 0 0\n1 3 -500 0\n2 3 500 0\nEND\n";

// Another kind of block, a broken one, and a net that is connected.
const OTHERS: &str =
    "CRYSTAL\nEND\nPERIODIC_GRAPH\nEDGES\n1 1 0 0\nEND\nPERIODIC_GRAPH\nNAME sql\nEDGES\n1 1 1 0\n1 1 0 1\nEND\n";

const OTHERS_REPORT: &str =
    "net 1 line 1\nunsupported CRYSTAL\nnet 2 line 3\nmalformed line=5 6 SelfEdge\nnet 3 line 7 \"sql\"\ngraph d=2 vertices=1 edges=2 repeats=0\ncomponents 1\npart 1 vertices=1 copies=1\nkey 2 1 1 1 1 0 1 1 1 1 0\n";

pub const DIVIDED: &[Row] = &[
    Row {
        words: &["components", "net"],
        net: "PERIODIC_GRAPH\nNAME two\nEDGES\n1 1 2 0\n1 1 0 1\nEND\n",
        archive: "",
        status: Status::Done,
        written: "net 1 line 1 \"two\"\ngraph d=2 vertices=1 edges=2 repeats=0\ncomponents 1\npart 1 vertices=1 copies=2\nkey 2 1 1 1 1 0 1 1 1 1 0\n",
    },
    Row {
        words: &["components", "net"],
        net: "PERIODIC_GRAPH\nNAME line\nEDGES\n1 1 1 0\n1 1 2 0\nEND\n",
        archive: "",
        status: Status::SomeRefused,
        written: "net 1 line 1 \"line\"\ngraph d=2 vertices=1 edges=2 repeats=0\ncomponents refused 1 LowRank u=1 c=0 1\n",
    },
    Row {
        words: &["components", "net"],
        net: "PERIODIC_GRAPH\nNAME pair\nEDGES\n1 1 1 0\n1 1 0 1\n2 2 1 0\n2 2 0 1\nEND\n",
        archive: "",
        status: Status::Done,
        written: "net 1 line 1 \"pair\"\ngraph d=2 vertices=2 edges=4 repeats=0\ncomponents 2\npart 1 vertices=1 copies=1\nkey 2 1 1 1 1 0 1 1 1 1 0\npart 2 vertices=1 copies=1\nkey 2 1 1 1 1 0 1 1 1 1 0\n",
    },
    Row {
        words: &["components", "net"],
        net: "PERIODIC_GRAPH\nNAME skew\nEDGES\n1 2 0 1\n1 2 1 2\n1 1 0 2\nEND\n",
        archive: "",
        status: Status::Done,
        written: "net 1 line 1 \"skew\"\ngraph d=2 vertices=2 edges=3 repeats=0\ncomponents 1\npart 1 vertices=2 copies=2\nkey 2 2 1 1 2 -1 0 1 1 0 1 1 2 1 0\n",
    },
    Row {
        words: &["components", "net"],
        net: "PERIODIC_GRAPH\nNAME \"two primitive cubic nets\"\nEDGES\n1 1 0 1 1\n1 1 1 0 1\n1 1 1 1 0\nEND\n",
        archive: "",
        status: Status::Done,
        written: "net 1 line 1 \"two primitive cubic nets\"\ngraph d=3 vertices=1 edges=3 repeats=0\ncomponents 1\npart 1 vertices=1 copies=2\nkey 3 1 1 1 1 0 0 1 1 1 0 1 0 1 1 1 0 0\n",
    },
    Row {
        words: &["components", "net"],
        net: CUPRITE,
        archive: "",
        status: Status::Done,
        written: "net 1 line 1 \"cuprite\"\ngraph d=3 vertices=2 edges=4 repeats=0\ncomponents 1\npart 1 vertices=2 copies=2\nkey 3 2 1 1 2 -1 -1 -1 1 2 0 0 1 1 2 0 1 0 1 2 1 0 0\n",
    },
    Row {
        words: &["components", "net"],
        net: ICE_SIX,
        archive: "",
        status: Status::Done,
        written: ICE_SIX_REPORT,
    },
    Row {
        words: &["components", "net"],
        net: "PERIODIC_GRAPH\nNAME slab\nEDGES\n1 1 1 1 0\n1 1 0 0 1\nEND\n",
        archive: "",
        status: Status::SomeRefused,
        written: "net 1 line 1 \"slab\"\ngraph d=3 vertices=1 edges=2 repeats=0\ncomponents refused 1 LowRank u=1 c=1 -1 0\n",
    },
    Row {
        words: &["components", "net"],
        net: FAR,
        archive: "",
        status: Status::SomeRefused,
        written: "net 1 line 1\ngraph d=2 vertices=3 edges=5 repeats=0\ncomponents refused 2 WideShift u=2 v=3 s=500 0 c=1 value=1000\n",
    },
    Row {
        words: &["components", "net"],
        net: COLLIDING,
        archive: "",
        status: Status::SomeRefused,
        written: COLLIDING_REPORT,
    },
    Row {
        words: &["components", "net"],
        net: OTHERS,
        archive: "",
        status: Status::SomeRefused,
        written: OTHERS_REPORT,
    },
];
