// Covers of the nets of texts on larger cells.
use super::{PCU, Row};
use crate::tests::SQL;
use net_report::Status;

// The square net twice, the second time without a name, with its first row again.
const TWICE: &str =
    "PERIODIC_GRAPH\nNAME \"the first\"\nEDGES\n1 1 1 0\n1 1 0 1\nEND\nPERIODIC_GRAPH\nEDGES\n7 7 0 1\n7 7 1 0\n7 7 0 -1\nEND\n";

const TWO_COVERS: &str =
    "PERIODIC_GRAPH\nNAME \"the first\"\nEDGES\n1 1 1 0\n1 2 0 -1\n1 2 0 0\n2 2 1 0\nEND\nPERIODIC_GRAPH\nEDGES\n1 1 1 0\n1 2 0 -1\n1 2 0 0\n2 2 1 0\nEND\n";

// Another kind of block, a broken one, a net of another dimension, and one that is covered.
const OTHERS: &str =
    "CRYSTAL\nEND\nPERIODIC_GRAPH\nEDGES\n1 1 0 0\nEND\nPERIODIC_GRAPH\nNAME pcu\nEDGES\n1 1 1 0 0\n1 1 0 1 0\n1 1 0 0 1\nEND\nPERIODIC_GRAPH\nNAME sql\nEDGES\n1 1 1 0\n1 1 0 1\n1 1 1 0\nEND\n";

const OTHERS_REPORT: &str =
    "net 1 line 1\nunsupported CRYSTAL\nnet 2 line 3\nmalformed line=5 6 SelfEdge\nnet 3 line 7 \"pcu\"\ngraph d=3 vertices=1 edges=3 repeats=0\ncover refused 1 CellDimension\nnet 4 line 14 \"sql\"\ngraph d=2 vertices=1 edges=2 repeats=1\ncovered vertices=2 edges=4\n";

// A vertex with nine edges.
const MANY: &str =
    "PERIODIC_GRAPH\nEDGES\n1 1 1 0\n1 1 0 1\n1 1 1 1\n1 1 1 -1\n1 1 2 0\n1 1 0 2\n1 1 2 1\n1 1 1 2\n1 1 2 2\nEND\n";

// The square net with steps of two cells to the right as well.
const LONG: &str = "PERIODIC_GRAPH\nEDGES\n1 1 1 0\n1 1 0 1\n1 1 2 0\nEND\n";

const HIGH_PCU: &str =
    "PERIODIC_GRAPH\nNAME \"pcu\"\nEDGES\n1 1 0 1 0\n1 1 1 0 0\n1 2 0 0 -1\n1 2 0 0 0\n2 2 0 1 0\n2 2 1 0 0\nEND\n";

pub const COVERED: &[Row] = &[
    Row {
        words: &["cover", "net", "--cell", "2,0,0,1"],
        net: SQL,
        archive: "",
        status: Status::Done,
        written: "PERIODIC_GRAPH\nNAME \"sql\"\nEDGES\n1 1 0 1\n1 2 -1 0\n1 2 0 0\n2 2 0 1\nEND\n",
    },
    Row {
        words: &["cover", "net", "--cell", "1,1,2,2"],
        net: SQL,
        archive: "",
        status: Status::SomeRefused,
        written: "net 1 line 1 \"sql\"\ngraph d=2 vertices=1 edges=2 repeats=0\ncover refused 2 CellRank\n",
    },
    Row {
        words: &["cover", "net", "--cell", "500,0,0,2"],
        net: SQL,
        archive: "",
        status: Status::SomeRefused,
        written: "net 1 line 1 \"sql\"\ngraph d=2 vertices=1 edges=2 repeats=0\ncover refused 3 CoverVertices count=1000\n",
    },
    Row {
        words: &["cover", "net", "--cell", "500,0,0,1"],
        net: MANY,
        archive: "",
        status: Status::SomeRefused,
        written: "net 1 line 1\ngraph d=2 vertices=1 edges=9 repeats=0\ncover refused 4 CoverEdges count=4500\n",
    },
    Row {
        words: &["cover", "net", "--cell", "500,499,499,498"],
        net: LONG,
        archive: "",
        status: Status::SomeRefused,
        written: "net 1 line 1\ngraph d=2 vertices=1 edges=3 repeats=0\ncover refused 5 CoverShift value=-996\n",
    },
    Row {
        words: &["cover", "net", "--cell", "1,0,0,2"],
        net: TWICE,
        archive: "",
        status: Status::Done,
        written: TWO_COVERS,
    },
    Row {
        words: &["cover", "net", "--cell", "2,0,0,1"],
        net: OTHERS,
        archive: "",
        status: Status::SomeRefused,
        written: OTHERS_REPORT,
    },
    Row {
        words: &["cover", "net", "--cell", "0,0,0,0"],
        net: "",
        archive: "",
        status: Status::Done,
        written: "",
    },
    Row {
        words: &["cover", "net", "--cell", "1,0,0,0,1,0,0,0,2"],
        net: PCU,
        archive: "",
        status: Status::Done,
        written: HIGH_PCU,
    },
    // a cell askew
    Row {
        words: &["cover", "net", "--cell", "1,499,0,1"],
        net: SQL,
        archive: "",
        status: Status::Done,
        written: "PERIODIC_GRAPH\nNAME \"sql\"\nEDGES\n1 1 0 1\n1 1 1 -499\nEND\n",
    },
];
