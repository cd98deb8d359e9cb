// All that is reported of a net: its placement, primitive graph, key, sequences and names.
use super::{PCU, Row, SODALITE};
use crate::tests::{DIA_ARCHIVE, HCB};
use net_report::Status;

// The coordination sequences are the published ones of these nets.
pub const IDENTIFIED: &[Row] = &[
    // one vertex
    Row {
        words: &["identify", "net"],
        net: "PERIODIC_GRAPH\nNAME sql\nEDGES\n1 1 1 0\n1 1 0 1\nEND\n",
        archive: DIA_ARCHIVE,
        status: Status::Done,
        written: "net 1 line 1 \"sql\"\ngraph d=2 vertices=1 edges=2 repeats=0\nplacement D0=1\nat 1 0 0\nprimitive vertices=1 edges=2\nbasis 1 0\nbasis 0 1\nedge 1 1 0 1\nedge 1 1 1 0\nkey 2 1 1 1 1 0 1 1 1 1 0\nshells 1 4 8 12 16 20 24 28 32 36 40\nnames 0\n",
    },
    // honeycombs
    Row {
        words: &["identify", "net"],
        net: HCB,
        archive: "",
        status: Status::Done,
        written: "net 1 line 1 \"hcb\"\ngraph d=2 vertices=2 edges=3 repeats=0\nplacement D0=3\nat 1 0 0\nat 2 -1 -1\nprimitive vertices=2 edges=3\nbasis 3 0\nbasis 0 3\nedge 1 2 0 0\nedge 1 2 0 1\nedge 1 2 1 0\nkey 2 2 1 1 2 -1 -1 1 2 0 1 1 2 1 0\nshells 1 3 6 9 12 15 18 21 24 27 30\nshells 2 3 6 9 12 15 18 21 24 27 30\nnames 0\n",
    },
    // three drawings of one net, which the archive has
    Row {
        words: &["identify", "net", "--archive", "archive"],
        net: "PERIODIC_GRAPH\nNAME dia\nEDGES\n1 2 0 0 0\n1 2 1 0 0\n1 2 0 1 0\n1 2 0 0 1\nEND\nPERIODIC_GRAPH\nNAME tilted\nEDGES\n4 7 0 0 0\n4 7 -1 0 0\n4 7 -1 -1 0\n4 7 0 -1 -1\nEND\nPERIODIC_GRAPH\nNAME again\nEDGES\n1 2 0 0 0\n1 2 1 0 0\n1 2 0 1 0\n1 2 0 0 1\n2 1 0 0 -1\nEND\n",
        archive: DIA_ARCHIVE,
        status: Status::Done,
        written: "net 1 line 1 \"dia\"\ngraph d=3 vertices=2 edges=4 repeats=0\nplacement D0=4\nat 1 0 0 0\nat 2 -1 -1 -1\nprimitive vertices=2 edges=4\nbasis 4 0 0\nbasis 0 4 0\nbasis 0 0 4\nedge 1 2 0 0 0\nedge 1 2 0 0 1\nedge 1 2 0 1 0\nedge 1 2 1 0 0\nkey 3 2 1 1 2 -1 -1 -1 1 2 0 0 1 1 2 0 1 0 1 2 1 0 0\nshells 1 4 12 24 42 64 92 124 162 204 252\nshells 2 4 12 24 42 64 92 124 162 204 252\nnames 1\nname \"dia\"\nnet 2 line 9 \"tilted\"\ngraph d=3 vertices=2 edges=4 repeats=0\nplacement D0=4\nat 4 0 0 0\nat 7 2 2 1\nprimitive vertices=2 edges=4\nbasis 4 0 0\nbasis 0 4 0\nbasis 0 0 4\nedge 1 2 -1 -1 0\nedge 1 2 -1 0 0\nedge 1 2 0 -1 -1\nedge 1 2 0 0 0\nkey 3 2 1 1 2 -1 -1 -1 1 2 0 0 1 1 2 0 1 0 1 2 1 0 0\nshells 1 4 12 24 42 64 92 124 162 204 252\nshells 2 4 12 24 42 64 92 124 162 204 252\nnames 1\nname \"dia\"\nnet 3 line 17 \"again\"\ngraph d=3 vertices=2 edges=4 repeats=1\nplacement D0=4\nat 1 0 0 0\nat 2 -1 -1 -1\nprimitive vertices=2 edges=4\nbasis 4 0 0\nbasis 0 4 0\nbasis 0 0 4\nedge 1 2 0 0 0\nedge 1 2 0 0 1\nedge 1 2 0 1 0\nedge 1 2 1 0 0\nkey 3 2 1 1 2 -1 -1 -1 1 2 0 0 1 1 2 0 1 0 1 2 1 0 0\nshells 1 4 12 24 42 64 92 124 162 204 252\nshells 2 4 12 24 42 64 92 124 162 204 252\nnames 1\nname \"dia\"\n",
    },
    // a net that has two names
    Row {
        words: &["identify", "--archive", "archive", "net"],
        net: PCU,
        archive: "net_archive 1\nentry \"pcu\"\ngraph 3 1 3\nedge 1 1 0 0 1\nedge 1 1 0 1 0\nedge 1 1 1 0 0\nkey 3 1 1 1 1 0 0 1 1 1 0 1 0 1 1 1 0 0\nend\nentry \"cubic\"\ngraph 3 1 3\nedge 1 1 0 0 1\nedge 1 1 0 1 0\nedge 1 1 1 0 0\nkey 3 1 1 1 1 0 0 1 1 1 0 1 0 1 1 1 0 0\nend\n",
        status: Status::Done,
        written: "net 1 line 1 \"pcu\"\ngraph d=3 vertices=1 edges=3 repeats=0\nplacement D0=1\nat 1 0 0 0\nprimitive vertices=1 edges=3\nbasis 1 0 0\nbasis 0 1 0\nbasis 0 0 1\nedge 1 1 0 0 1\nedge 1 1 0 1 0\nedge 1 1 1 0 0\nkey 3 1 1 1 1 0 0 1 1 1 0 1 0 1 1 1 0 0\nshells 1 6 18 38 66 102 146 198 258 326 402\nnames 2\nname \"pcu\"\nname \"cubic\"\n",
    },
    // a larger cell of a net that has two names
    Row {
        words: &["identify", "--archive", "archive", "net"],
        net: "PERIODIC_GRAPH\nNAME pcu2\nEDGES\n1 2 0 0 0\n2 1 1 0 0\n1 1 0 1 0\n1 1 0 0 1\n2 2 0 1 0\n2 2 0 0 1\nEND\n",
        archive: "net_archive 1\nentry \"pcu\"\ngraph 3 1 3\nedge 1 1 0 0 1\nedge 1 1 0 1 0\nedge 1 1 1 0 0\nkey 3 1 1 1 1 0 0 1 1 1 0 1 0 1 1 1 0 0\nend\nentry \"cubic\"\ngraph 3 1 3\nedge 1 1 0 0 1\nedge 1 1 0 1 0\nedge 1 1 1 0 0\nkey 3 1 1 1 1 0 0 1 1 1 0 1 0 1 1 1 0 0\nend\n",
        status: Status::Done,
        written: "net 1 line 1 \"pcu2\"\ngraph d=3 vertices=2 edges=6 repeats=0\nplacement D0=2\nat 1 0 0 0\nat 2 1 0 0\nprimitive vertices=1 edges=3\nbasis 1 0 0\nbasis 0 2 0\nbasis 0 0 2\nedge 1 1 0 0 1\nedge 1 1 0 1 0\nedge 1 1 1 0 0\nkey 3 1 1 1 1 0 0 1 1 1 0 1 0 1 1 1 0 0\nshells 1 6 18 38 66 102 146 198 258 326 402\nnames 2\nname \"pcu\"\nname \"cubic\"\n",
    },
    // the cubic net on a long basis, whose sequences are not counted in a box
    Row {
        words: &["identify", "net"],
        net: "PERIODIC_GRAPH\nNAME far\nEDGES\n1 1 1 0 0\n1 1 500 1 0\n1 1 0 500 1\nEND\n",
        archive: "",
        status: Status::Done,
        written: "net 1 line 1 \"far\"\ngraph d=3 vertices=1 edges=3 repeats=0\nplacement D0=1\nat 1 0 0 0\nprimitive vertices=1 edges=3\nbasis 1 0 0\nbasis 0 1 0\nbasis 0 0 1\nedge 1 1 0 500 1\nedge 1 1 1 0 0\nedge 1 1 500 1 0\nkey 3 1 1 1 1 0 0 1 1 1 0 1 0 1 1 1 0 0\nshells 1 6 18 38 66 102 146 198 258 326 402\nnames 0\n",
    },
    // arcs at a vertex that lie in a plane
    Row {
        words: &["identify", "net", "--archive=archive"],
        net: "PERIODIC_GRAPH\nNAME srs\nEDGES\n1 2 0 0 0\n1 3 0 0 0\n1 4 0 0 0\n2 3 1 0 0\n2 4 0 1 0\n3 4 0 0 1\nEND\n",
        archive: DIA_ARCHIVE,
        status: Status::Done,
        written: "net 1 line 1 \"srs\"\ngraph d=3 vertices=4 edges=6 repeats=0\nplacement D0=4\nat 1 0 0 0\nat 2 1 1 0\nat 3 -1 0 1\nat 4 0 -1 -1\nprimitive vertices=4 edges=6\nbasis 4 0 0\nbasis 0 4 0\nbasis 0 0 4\nedge 1 2 0 0 0\nedge 1 3 0 0 0\nedge 1 4 0 0 0\nedge 2 3 1 0 0\nedge 2 4 0 1 0\nedge 3 4 0 0 1\nkey 3 4 1 1 2 -1 -1 0 1 3 0 1 0 1 4 1 0 0 2 3 -1 -1 -1 2 4 0 0 1 3 4 -1 0 -1\nshells 1 3 6 12 24 35 48 69 86 108 138\nshells 2 3 6 12 24 35 48 69 86 108 138\nshells 3 3 6 12 24 35 48 69 86 108 138\nshells 4 3 6 12 24 35 48 69 86 108 138\nnames 0\n",
    },
    // comments, and a name in quotes
    Row {
        words: &["identify", "net"],
        net: SODALITE,
        archive: "",
        status: Status::Done,
        written: "net 1 line 2 \"sod, 12 sites\"\ngraph d=3 vertices=12 edges=24 repeats=0\nplacement D0=4\nat 1 0 0 0\nat 2 -1 1 0\nat 3 -1 3 0\nat 4 1 0 -1\nat 5 1 0 1\nat 6 2 0 0\nat 7 0 2 -2\nat 8 1 1 -2\nat 9 1 3 -2\nat 10 -1 2 -1\nat 11 -1 2 1\nat 12 2 2 -2\nprimitive vertices=6 edges=12\nbasis 2 2 2\nbasis 0 4 0\nbasis 0 0 4\nedge 1 2 0 0 0\nedge 1 3 0 -1 0\nedge 1 4 0 0 0\nedge 1 5 0 0 0\nedge 2 4 -1 1 1\nedge 2 5 -1 1 0\nedge 2 6 -2 1 1\nedge 3 4 -1 1 1\nedge 3 5 -1 1 0\nedge 3 6 -2 2 1\nedge 4 6 0 0 0\nedge 5 6 0 0 0\nkey 3 6 1 1 2 -1 -1 -1 1 3 0 0 1 1 4 0 1 0 1 5 1 0 0 2 4 -1 -1 0 2 3 -1 0 -1 2 6 1 0 0 3 5 -1 -1 0 3 6 0 1 0 4 5 -1 0 -1 4 6 0 0 1 5 6 -1 -1 -1\nshells 1 4 10 20 34 52 74 100 130 164 202\nshells 2 4 10 20 34 52 74 100 130 164 202\nshells 3 4 10 20 34 52 74 100 130 164 202\nshells 4 4 10 20 34 52 74 100 130 164 202\nshells 5 4 10 20 34 52 74 100 130 164 202\nshells 6 4 10 20 34 52 74 100 130 164 202\nnames 0\n",
    },
    // positions that repeat, though the edges do not
    Row {
        words: &["identify", "net"],
        net: "PERIODIC_GRAPH\nNAME shifted\nEDGES\n1 2 0 0\n2 1 1 0\n1 1 0 1\n2 2 0 1\n1 1 1 1\nEND\n",
        archive: "",
        status: Status::Done,
        written: "net 1 line 1 \"shifted\"\ngraph d=2 vertices=2 edges=5 repeats=0\nplacement D0=2\nat 1 0 0\nat 2 1 0\nprimitive vertices=2 edges=5\nbasis 2 0\nbasis 0 2\nedge 1 1 0 1\nedge 1 1 1 1\nedge 1 2 -1 0\nedge 1 2 0 0\nedge 2 2 0 1\nkey 2 2 1 1 2 -1 0 1 1 0 1 1 2 1 0 1 1 2 -1 2 2 0 1\nshells 1 6 14 22 30 38 46 54 62 70 78\nshells 2 4 10 18 26 34 42 50 58 66 74\nnames 0\n",
    },
    // no two of its arcs span the lattice: the scale is 2
    Row {
        words: &["identify", "net"],
        net: "PERIODIC_GRAPH\nNAME scaled\nEDGES\n1 1 0 1\n1 1 2 -1\n1 1 3 0\nEND\n",
        archive: "",
        status: Status::Done,
        written: "net 1 line 1 \"scaled\"\ngraph d=2 vertices=1 edges=3 repeats=0\nplacement D0=1\nat 1 0 0\nprimitive vertices=1 edges=3\nbasis 1 0\nbasis 0 1\nedge 1 1 0 1\nedge 1 1 2 -1\nedge 1 1 3 0\nkey 2 1 2 1 1 0 2 1 1 2 0 1 1 3 -3\nshells 1 6 18 38 56 70 86 102 118 134 150\nnames 0\n",
    },
    // the eighth shell would pass 20,000 vertices in all
    Row {
        words: &["identify", "net"],
        net: "PERIODIC_GRAPH\nNAME star\nEDGES\n1 1 0 0 1\n1 1 0 1 0\n1 1 1 -3 -3\n1 1 1 -3 0\n1 1 1 -3 3\n1 1 1 0 -3\n1 1 1 0 0\n1 1 1 0 3\n1 1 1 3 -3\n1 1 1 3 0\n1 1 1 3 3\nEND\n",
        archive: "",
        status: Status::Done,
        written: "net 1 line 1 \"star\"\ngraph d=3 vertices=1 edges=11 repeats=0\nplacement D0=1\nat 1 0 0 0\nprimitive vertices=1 edges=11\nbasis 1 0 0\nbasis 0 1 0\nbasis 0 0 1\nedge 1 1 0 0 1\nedge 1 1 0 1 0\nedge 1 1 1 -3 -3\nedge 1 1 1 -3 0\nedge 1 1 1 -3 3\nedge 1 1 1 0 -3\nedge 1 1 1 0 0\nedge 1 1 1 0 3\nedge 1 1 1 3 -3\nedge 1 1 1 3 0\nedge 1 1 1 3 3\nkey 3 1 1 1 1 0 0 1 1 1 0 1 -6 1 1 0 1 -3 1 1 0 1 0 1 1 1 0 0 1 1 3 -1 0 1 1 3 -1 3 1 1 3 -1 6 1 1 3 1 -6 1 1 3 1 -3 1 1 3 1 0\nshells 1 22 154 574 1414 2686 4390 6526\nnames 0\n",
    },
    // a collision
    Row {
        words: &["identify", "net", "--archive", "archive"],
        net: "PERIODIC_GRAPH\nNAME leaf\nEDGES\n1 1 1 0\n1 1 0 1\n1 2 0 0\nEND\n",
        archive: DIA_ARCHIVE,
        status: Status::SomeRefused,
        written: "net 1 line 1 \"leaf\"\ngraph d=2 vertices=2 edges=3 repeats=0\nrefused 5 Collision u=1 v=2 t=0 0\n",
    },
];
