// What is reported of the symmetries of nets. The expected lines were computed from the primitive graphs alone, by the
// quadratic form that each symmetry keeps.
use super::Row;
use net_report::Status;

// Diamond: point group m-3m, and that of a vertex -43m.
const DIAMOND: &str =
    "PERIODIC_GRAPH\nNAME dia\nEDGES\n1 2 0 0 0\n1 2 1 0 0\n1 2 0 1 0\n1 2 0 0 1\nEND\n";

const DIAMOND_REPORT: &str =
    "net 1 line 1 \"dia\"\ngraph d=3 vertices=2 edges=4 repeats=0\nprimitive vertices=2 edges=4\nbasis 4 0 0\nbasis 0 4 0\nbasis 0 0 4\nedge 1 2 0 0 0\nedge 1 2 0 0 1\nedge 1 2 0 1 0\nedge 1 2 1 0 0\nkey 3 2 1 1 2 -1 -1 -1 1 2 0 0 1 1 2 0 1 0 1 2 1 0 0\nplacement D=4\nat 1 0 0 0\nat 2 -1 -1 -1\noperations 48\noperation 1 0 0 0 1 0 0 0 1 0 0 0\noperation -1 -1 -1 0 0 1 0 1 0 0 0 0\noperation -1 -1 -1 0 0 1 1 0 0 0 0 0\noperation -1 -1 -1 0 1 0 0 0 1 0 0 0\noperation -1 -1 -1 0 1 0 1 0 0 0 0 0\noperation -1 -1 -1 1 0 0 0 0 1 0 0 0\noperation -1 -1 -1 1 0 0 0 1 0 0 0 0\noperation -1 0 0 0 -1 0 0 0 -1 -1 -1 -1\noperation -1 0 0 0 -1 0 1 1 1 -1 -1 -1\noperation -1 0 0 0 0 -1 0 -1 0 -1 -1 -1\noperation -1 0 0 0 0 -1 1 1 1 -1 -1 -1\noperation -1 0 0 1 1 1 0 -1 0 -1 -1 -1\noperation -1 0 0 1 1 1 0 0 -1 -1 -1 -1\noperation 0 -1 0 -1 0 0 0 0 -1 -1 -1 -1\noperation 0 -1 0 -1 0 0 1 1 1 -1 -1 -1\noperation 0 -1 0 0 0 -1 -1 0 0 -1 -1 -1\noperation 0 -1 0 0 0 -1 1 1 1 -1 -1 -1\noperation 0 -1 0 1 1 1 -1 0 0 -1 -1 -1\noperation 0 -1 0 1 1 1 0 0 -1 -1 -1 -1\noperation 0 0 -1 -1 0 0 0 -1 0 -1 -1 -1\noperation 0 0 -1 -1 0 0 1 1 1 -1 -1 -1\noperation 0 0 -1 0 -1 0 -1 0 0 -1 -1 -1\noperation 0 0 -1 0 -1 0 1 1 1 -1 -1 -1\noperation 0 0 -1 1 1 1 -1 0 0 -1 -1 -1\noperation 0 0 -1 1 1 1 0 -1 0 -1 -1 -1\noperation 0 0 1 -1 -1 -1 0 1 0 0 0 0\noperation 0 0 1 -1 -1 -1 1 0 0 0 0 0\noperation 0 0 1 0 1 0 -1 -1 -1 0 0 0\noperation 0 0 1 0 1 0 1 0 0 0 0 0\noperation 0 0 1 1 0 0 -1 -1 -1 0 0 0\noperation 0 0 1 1 0 0 0 1 0 0 0 0\noperation 0 1 0 -1 -1 -1 0 0 1 0 0 0\noperation 0 1 0 -1 -1 -1 1 0 0 0 0 0\noperation 0 1 0 0 0 1 -1 -1 -1 0 0 0\noperation 0 1 0 0 0 1 1 0 0 0 0 0\noperation 0 1 0 1 0 0 -1 -1 -1 0 0 0\noperation 0 1 0 1 0 0 0 0 1 0 0 0\noperation 1 0 0 -1 -1 -1 0 0 1 0 0 0\noperation 1 0 0 -1 -1 -1 0 1 0 0 0 0\noperation 1 0 0 0 0 1 -1 -1 -1 0 0 0\noperation 1 0 0 0 0 1 0 1 0 0 0 0\noperation 1 0 0 0 1 0 -1 -1 -1 0 0 0\noperation 1 1 1 -1 0 0 0 -1 0 -1 -1 -1\noperation 1 1 1 -1 0 0 0 0 -1 -1 -1 -1\noperation 1 1 1 0 -1 0 -1 0 0 -1 -1 -1\noperation 1 1 1 0 -1 0 0 0 -1 -1 -1 -1\noperation 1 1 1 0 0 -1 -1 0 0 -1 -1 -1\noperation 1 1 1 0 0 -1 0 -1 0 -1 -1 -1\nvertices 1\norbit 1 size=2 order=24\nedges 1\norbit 1 2 0 0 0 size=4\n";

// The honeycomb net: 6mm, and 3m of a vertex.
const HONEYCOMB: &str = "PERIODIC_GRAPH\nNAME hcb\nEDGES\n1 2 0 0\n1 2 1 0\n1 2 0 1\nEND\n";

const HONEYCOMB_REPORT: &str =
    "net 1 line 1 \"hcb\"\ngraph d=2 vertices=2 edges=3 repeats=0\nprimitive vertices=2 edges=3\nbasis 3 0\nbasis 0 3\nedge 1 2 0 0\nedge 1 2 0 1\nedge 1 2 1 0\nkey 2 2 1 1 2 -1 -1 1 2 0 1 1 2 1 0\nplacement D=3\nat 1 0 0\nat 2 -1 -1\noperations 12\noperation 1 0 0 1 0 0\noperation -1 -1 0 1 0 0\noperation -1 -1 1 0 0 0\noperation -1 0 0 -1 -1 -1\noperation -1 0 1 1 -1 -1\noperation 0 -1 -1 0 -1 -1\noperation 0 -1 1 1 -1 -1\noperation 0 1 -1 -1 0 0\noperation 0 1 1 0 0 0\noperation 1 0 -1 -1 0 0\noperation 1 1 -1 0 -1 -1\noperation 1 1 0 -1 -1 -1\nvertices 1\norbit 1 size=2 order=6\nedges 1\norbit 1 2 0 0 size=3\n";

// The cubic net in a doubled cell: m-3m, in its primitive cell.
const DOUBLED: &str =
    "PERIODIC_GRAPH\nNAME pcu2\nEDGES\n1 2 0 0 0\n1 2 1 0 0\n1 1 0 1 0\n2 2 0 1 0\n1 1 0 0 1\n2 2 0 0 1\nEND\n";

const DOUBLED_REPORT: &str =
    "net 1 line 1 \"pcu2\"\ngraph d=3 vertices=2 edges=6 repeats=0\nprimitive vertices=1 edges=3\nbasis 1 0 0\nbasis 0 2 0\nbasis 0 0 2\nedge 1 1 0 0 1\nedge 1 1 0 1 0\nedge 1 1 1 0 0\nkey 3 1 1 1 1 0 0 1 1 1 0 1 0 1 1 1 0 0\nplacement D=1\nat 1 0 0 0\noperations 48\noperation 1 0 0 0 1 0 0 0 1 0 0 0\noperation -1 0 0 0 -1 0 0 0 -1 0 0 0\noperation -1 0 0 0 -1 0 0 0 1 0 0 0\noperation -1 0 0 0 0 -1 0 -1 0 0 0 0\noperation -1 0 0 0 0 -1 0 1 0 0 0 0\noperation -1 0 0 0 0 1 0 -1 0 0 0 0\noperation -1 0 0 0 0 1 0 1 0 0 0 0\noperation -1 0 0 0 1 0 0 0 -1 0 0 0\noperation -1 0 0 0 1 0 0 0 1 0 0 0\noperation 0 -1 0 -1 0 0 0 0 -1 0 0 0\noperation 0 -1 0 -1 0 0 0 0 1 0 0 0\noperation 0 -1 0 0 0 -1 -1 0 0 0 0 0\noperation 0 -1 0 0 0 -1 1 0 0 0 0 0\noperation 0 -1 0 0 0 1 -1 0 0 0 0 0\noperation 0 -1 0 0 0 1 1 0 0 0 0 0\noperation 0 -1 0 1 0 0 0 0 -1 0 0 0\noperation 0 -1 0 1 0 0 0 0 1 0 0 0\noperation 0 0 -1 -1 0 0 0 -1 0 0 0 0\noperation 0 0 -1 -1 0 0 0 1 0 0 0 0\noperation 0 0 -1 0 -1 0 -1 0 0 0 0 0\noperation 0 0 -1 0 -1 0 1 0 0 0 0 0\noperation 0 0 -1 0 1 0 -1 0 0 0 0 0\noperation 0 0 -1 0 1 0 1 0 0 0 0 0\noperation 0 0 -1 1 0 0 0 -1 0 0 0 0\noperation 0 0 -1 1 0 0 0 1 0 0 0 0\noperation 0 0 1 -1 0 0 0 -1 0 0 0 0\noperation 0 0 1 -1 0 0 0 1 0 0 0 0\noperation 0 0 1 0 -1 0 -1 0 0 0 0 0\noperation 0 0 1 0 -1 0 1 0 0 0 0 0\noperation 0 0 1 0 1 0 -1 0 0 0 0 0\noperation 0 0 1 0 1 0 1 0 0 0 0 0\noperation 0 0 1 1 0 0 0 -1 0 0 0 0\noperation 0 0 1 1 0 0 0 1 0 0 0 0\noperation 0 1 0 -1 0 0 0 0 -1 0 0 0\noperation 0 1 0 -1 0 0 0 0 1 0 0 0\noperation 0 1 0 0 0 -1 -1 0 0 0 0 0\noperation 0 1 0 0 0 -1 1 0 0 0 0 0\noperation 0 1 0 0 0 1 -1 0 0 0 0 0\noperation 0 1 0 0 0 1 1 0 0 0 0 0\noperation 0 1 0 1 0 0 0 0 -1 0 0 0\noperation 0 1 0 1 0 0 0 0 1 0 0 0\noperation 1 0 0 0 -1 0 0 0 -1 0 0 0\noperation 1 0 0 0 -1 0 0 0 1 0 0 0\noperation 1 0 0 0 0 -1 0 -1 0 0 0 0\noperation 1 0 0 0 0 -1 0 1 0 0 0 0\noperation 1 0 0 0 0 1 0 -1 0 0 0 0\noperation 1 0 0 0 0 1 0 1 0 0 0 0\noperation 1 0 0 0 1 0 0 0 -1 0 0 0\nvertices 1\norbit 1 size=1 order=48\nedges 1\norbit 1 1 0 0 1 size=3\n";

// A net of group cm: one mirror, in a basis that it does not keep.
const MIRRORED: &str =
    "PERIODIC_GRAPH\nNAME cm\nEDGES\n1 2 -1 0\n1 2 0 -1\n2 3 -1 -1\n2 3 -1 0\n2 3 0 0\nEND\n";

const MIRRORED_REPORT: &str =
    "net 1 line 1 \"cm\"\ngraph d=2 vertices=3 edges=5 repeats=0\nprimitive vertices=3 edges=5\nbasis 6 0\nbasis 0 6\nedge 1 2 -1 0\nedge 1 2 0 -1\nedge 2 3 -1 -1\nedge 2 3 -1 0\nedge 2 3 0 0\nkey 2 3 2 1 2 -3 -3 1 3 -2 -2 1 3 0 2 1 3 2 0 1 2 3 3\nplacement D=6\nat 1 0 0\nat 2 3 3\nat 3 7 5\noperations 2\noperation 1 0 0 1 0 0\noperation 0 -1 -1 0 0 0\nvertices 3\norbit 1 size=1 order=2\norbit 2 size=1 order=2\norbit 3 size=1 order=2\nedges 4\norbit 1 2 -1 0 size=1\norbit 1 2 0 -1 size=1\norbit 2 3 -1 -1 size=2\norbit 2 3 -1 0 size=1\n";

// The net of strontium disilicide, which has no mirror: 432, and 32 of a vertex.
const SRS: &str =
    "PERIODIC_GRAPH\nNAME srs\nEDGES\n1 2 0 0 0\n1 3 0 0 0\n1 4 0 0 0\n2 3 1 0 0\n3 4 0 1 0\n4 2 0 0 1\nEND\n";

const SRS_REPORT: &str =
    "net 1 line 1 \"srs\"\ngraph d=3 vertices=4 edges=6 repeats=0\nprimitive vertices=4 edges=6\nbasis 4 0 0\nbasis 0 4 0\nbasis 0 0 4\nedge 1 2 0 0 0\nedge 1 3 0 0 0\nedge 1 4 0 0 0\nedge 2 3 1 0 0\nedge 2 4 0 0 -1\nedge 3 4 0 1 0\nkey 3 4 1 1 2 -1 -1 0 1 3 0 1 0 1 4 1 0 0 2 3 -1 -1 -1 2 4 0 0 1 3 4 -1 0 -1\nplacement D=4\nat 1 0 0 0\nat 2 1 0 -1\nat 3 -1 1 0\nat 4 0 -1 1\noperations 24\noperation 1 0 0 0 1 0 0 0 1 0 0 0\noperation -1 0 0 -1 0 1 -1 1 0 0 -1 1\noperation -1 0 0 0 0 -1 0 -1 0 0 0 0\noperation -1 0 1 -1 1 0 -1 0 0 -1 1 0\noperation -1 0 1 0 -1 1 0 0 1 -1 1 0\noperation -1 1 0 -1 0 0 -1 0 1 1 0 -1\noperation -1 1 0 0 1 0 0 1 -1 1 0 -1\noperation 0 -1 0 -1 0 0 0 0 -1 0 0 0\noperation 0 -1 0 1 -1 0 0 -1 1 0 -1 1\noperation 0 -1 1 0 -1 0 1 -1 0 1 0 -1\noperation 0 -1 1 0 0 1 -1 0 1 1 0 -1\noperation 0 0 -1 0 -1 0 -1 0 0 0 0 0\noperation 0 0 -1 0 1 -1 1 0 -1 0 -1 1\noperation 0 0 1 -1 0 1 0 -1 1 0 -1 1\noperation 0 0 1 1 0 0 0 1 0 0 0 0\noperation 0 1 -1 -1 1 0 0 1 0 -1 1 0\noperation 0 1 -1 1 0 -1 0 0 -1 -1 1 0\noperation 0 1 0 0 0 1 1 0 0 0 0 0\noperation 0 1 0 0 1 -1 -1 1 0 0 -1 1\noperation 1 -1 0 0 -1 1 0 -1 0 -1 1 0\noperation 1 -1 0 1 0 -1 1 0 0 -1 1 0\noperation 1 0 -1 0 0 -1 0 1 -1 1 0 -1\noperation 1 0 -1 1 0 0 1 -1 0 1 0 -1\noperation 1 0 0 1 -1 0 1 0 -1 0 -1 1\nvertices 1\norbit 1 size=4 order=6\nedges 1\norbit 1 2 0 0 0 size=6\n";

// Quartz: 622, and 222 of a vertex.
const QUARTZ: &str =
    "PERIODIC_GRAPH\nNAME qtz\nEDGES\n1 2 0 0 0\n1 2 1 0 0\n2 3 0 0 0\n2 3 0 1 0\n3 1 0 0 1\n3 1 -1 -1 1\nEND\n";

const QUARTZ_REPORT: &str =
    "net 1 line 1 \"qtz\"\ngraph d=3 vertices=3 edges=6 repeats=0\nprimitive vertices=3 edges=6\nbasis 6 0 0\nbasis 0 6 0\nbasis 0 0 6\nedge 1 2 0 0 0\nedge 1 2 1 0 0\nedge 1 3 0 0 -1\nedge 1 3 1 1 -1\nedge 2 3 0 0 0\nedge 2 3 0 1 0\nkey 3 3 2 1 2 -2 -2 -2 1 2 0 0 2 1 3 0 2 0 1 3 2 0 0 2 3 -3 -1 -2 2 3 1 -1 2\nplacement D=6\nat 1 0 0 0\nat 2 -3 0 2\nat 3 -3 -3 4\noperations 12\noperation 1 0 0 0 1 0 0 0 1 0 0 0\noperation -1 0 0 -1 1 0 0 0 -1 0 0 0\noperation -1 0 0 0 -1 0 0 0 1 0 0 0\noperation -1 1 0 -1 0 0 0 0 1 -3 -3 4\noperation -1 1 0 0 1 0 0 0 -1 -3 0 2\noperation 0 -1 0 -1 0 0 0 0 -1 -3 -3 4\noperation 0 -1 0 1 -1 0 0 0 1 -3 0 2\noperation 0 1 0 -1 1 0 0 0 1 -3 0 2\noperation 0 1 0 1 0 0 0 0 -1 -3 -3 4\noperation 1 -1 0 0 -1 0 0 0 -1 -3 0 2\noperation 1 -1 0 1 0 0 0 0 1 -3 -3 4\noperation 1 0 0 1 -1 0 0 0 -1 0 0 0\nvertices 1\norbit 1 size=3 order=4\nedges 1\norbit 1 2 0 0 0 size=6\n";

// Niobium monoxide, in a cell of two primitive ones: m-3m, and 4/mmm of a vertex.
const NIOBIUM: &str =
    "PERIODIC_GRAPH\nNAME nbo\nEDGES\n1 2 0 0 0\n1 2 0 0 1\n1 3 0 0 0\n1 3 0 1 0\n4 5 0 0 0\n4 5 0 0 1\n4 3 0 0 0\n4 3 1 0 0\n6 5 0 0 0\n6 5 0 1 0\n6 2 0 0 0\n6 2 1 0 0\nEND\n";

const NIOBIUM_REPORT: &str =
    "net 1 line 1 \"nbo\"\ngraph d=3 vertices=6 edges=12 repeats=0\nprimitive vertices=3 edges=6\nbasis 1 1 1\nbasis 0 2 0\nbasis 0 0 2\nedge 1 2 0 0 0\nedge 1 2 0 0 1\nedge 1 3 0 0 0\nedge 1 3 0 1 0\nedge 2 3 -1 1 0\nedge 2 3 1 0 -1\nkey 3 3 1 1 2 -1 0 0 1 3 0 -1 0 1 3 0 1 0 1 2 1 0 0 2 3 0 0 -1 2 3 0 0 1\nplacement D=2\nat 1 0 0 0\nat 2 0 0 -1\nat 3 0 -1 0\noperations 48\noperation 1 0 0 0 1 0 0 0 1 0 0 0\noperation -1 -2 0 0 1 -1 0 1 0 0 -1 0\noperation -1 -2 0 0 1 -1 1 1 0 0 -1 0\noperation -1 -2 0 0 1 0 0 1 -1 0 0 -1\noperation -1 -2 0 0 1 0 1 1 1 0 0 -1\noperation -1 -2 0 1 1 0 0 1 -1 0 0 -1\noperation -1 -2 0 1 1 0 1 1 1 0 0 -1\noperation -1 -2 0 1 1 1 0 1 0 0 -1 0\noperation -1 -2 0 1 1 1 1 1 0 0 -1 0\noperation -1 0 -2 0 -1 1 0 0 1 0 -1 0\noperation -1 0 -2 0 -1 1 1 0 1 0 -1 0\noperation -1 0 -2 0 0 1 0 -1 1 0 0 -1\noperation -1 0 -2 0 0 1 1 1 1 0 0 -1\noperation -1 0 -2 1 0 1 0 -1 1 0 0 -1\noperation -1 0 -2 1 0 1 1 1 1 0 0 -1\noperation -1 0 -2 1 1 1 0 0 1 0 -1 0\noperation -1 0 -2 1 1 1 1 0 1 0 -1 0\noperation -1 0 0 0 -1 0 0 0 -1 0 0 0\noperation -1 0 0 0 -1 0 1 0 1 0 0 0\noperation -1 0 0 0 0 -1 0 -1 0 0 0 0\noperation -1 0 0 0 0 -1 1 1 0 0 0 0\noperation -1 0 0 1 0 1 0 -1 0 0 0 0\noperation -1 0 0 1 0 1 1 1 0 0 0 0\noperation -1 0 0 1 1 0 0 0 -1 0 0 0\noperation -1 0 0 1 1 0 1 0 1 0 0 0\noperation 1 0 0 -1 -1 0 -1 0 -1 0 0 0\noperation 1 0 0 -1 -1 0 0 0 1 0 0 0\noperation 1 0 0 -1 0 -1 -1 -1 0 0 0 0\noperation 1 0 0 -1 0 -1 0 1 0 0 0 0\noperation 1 0 0 0 0 1 -1 -1 0 0 0 0\noperation 1 0 0 0 0 1 0 1 0 0 0 0\noperation 1 0 0 0 1 0 -1 0 -1 0 0 0\noperation 1 0 2 -1 -1 -1 -1 0 -1 0 -1 0\noperation 1 0 2 -1 -1 -1 0 0 -1 0 -1 0\noperation 1 0 2 -1 0 -1 -1 -1 -1 0 0 -1\noperation 1 0 2 -1 0 -1 0 1 -1 0 0 -1\noperation 1 0 2 0 0 -1 -1 -1 -1 0 0 -1\noperation 1 0 2 0 0 -1 0 1 -1 0 0 -1\noperation 1 0 2 0 1 -1 -1 0 -1 0 -1 0\noperation 1 0 2 0 1 -1 0 0 -1 0 -1 0\noperation 1 2 0 -1 -1 -1 -1 -1 0 0 -1 0\noperation 1 2 0 -1 -1 -1 0 -1 0 0 -1 0\noperation 1 2 0 -1 -1 0 -1 -1 -1 0 0 -1\noperation 1 2 0 -1 -1 0 0 -1 1 0 0 -1\noperation 1 2 0 0 -1 0 -1 -1 -1 0 0 -1\noperation 1 2 0 0 -1 0 0 -1 1 0 0 -1\noperation 1 2 0 0 -1 1 -1 -1 0 0 -1 0\noperation 1 2 0 0 -1 1 0 -1 0 0 -1 0\nvertices 1\norbit 1 size=3 order=16\nedges 1\norbit 1 2 0 0 0 size=6\n";

// The kagome net: 6mm, and 2mm of a vertex.
const KAGOME: &str =
    "PERIODIC_GRAPH\nNAME kgm\nEDGES\n1 2 0 0\n1 2 1 0\n1 3 0 0\n1 3 0 1\n2 3 0 0\n2 3 -1 1\nEND\n";

const KAGOME_REPORT: &str =
    "net 1 line 1 \"kgm\"\ngraph d=2 vertices=3 edges=6 repeats=0\nprimitive vertices=3 edges=6\nbasis 2 0\nbasis 0 2\nedge 1 2 0 0\nedge 1 2 1 0\nedge 1 3 0 0\nedge 1 3 0 1\nedge 2 3 -1 1\nedge 2 3 0 0\nkey 2 3 1 1 2 -1 0 1 3 0 -1 1 3 0 1 1 2 1 0 2 3 -1 -1 2 3 1 1\nplacement D=2\nat 1 0 0\nat 2 -1 0\nat 3 0 -1\noperations 12\noperation 1 0 0 1 0 0\noperation -1 -1 0 1 -1 0\noperation -1 -1 1 0 -1 0\noperation -1 0 0 -1 0 0\noperation -1 0 1 1 0 -1\noperation 0 -1 -1 0 0 0\noperation 0 -1 1 1 0 -1\noperation 0 1 -1 -1 0 -1\noperation 0 1 1 0 0 0\noperation 1 0 -1 -1 0 -1\noperation 1 1 -1 0 -1 0\noperation 1 1 0 -1 -1 0\nvertices 1\norbit 1 size=3 order=4\nedges 1\norbit 1 2 0 0 size=6\n";

// The net of cadmium sulfate: 4/mmm, mmm of a vertex, and two kinds of edges.
const CADMIUM: &str =
    "PERIODIC_GRAPH\nNAME cds\nEDGES\n1 1 1 0 0\n2 2 0 1 0\n1 2 0 0 0\n1 2 0 0 1\nEND\n";

const CADMIUM_REPORT: &str =
    "net 1 line 1 \"cds\"\ngraph d=3 vertices=2 edges=4 repeats=0\nprimitive vertices=2 edges=4\nbasis 2 0 0\nbasis 0 2 0\nbasis 0 0 2\nedge 1 1 1 0 0\nedge 1 2 0 0 0\nedge 1 2 0 0 1\nedge 2 2 0 1 0\nkey 3 2 1 1 2 -1 0 0 1 1 0 1 0 1 2 1 0 0 2 2 0 0 1\nplacement D=2\nat 1 0 0 0\nat 2 0 0 -1\noperations 16\noperation 1 0 0 0 1 0 0 0 1 0 0 0\noperation -1 0 0 0 -1 0 0 0 -1 0 0 0\noperation -1 0 0 0 -1 0 0 0 1 0 0 0\noperation -1 0 0 0 1 0 0 0 -1 0 0 0\noperation -1 0 0 0 1 0 0 0 1 0 0 0\noperation 0 -1 0 -1 0 0 0 0 -1 0 0 -1\noperation 0 -1 0 -1 0 0 0 0 1 0 0 -1\noperation 0 -1 0 1 0 0 0 0 -1 0 0 -1\noperation 0 -1 0 1 0 0 0 0 1 0 0 -1\noperation 0 1 0 -1 0 0 0 0 -1 0 0 -1\noperation 0 1 0 -1 0 0 0 0 1 0 0 -1\noperation 0 1 0 1 0 0 0 0 -1 0 0 -1\noperation 0 1 0 1 0 0 0 0 1 0 0 -1\noperation 1 0 0 0 -1 0 0 0 -1 0 0 0\noperation 1 0 0 0 -1 0 0 0 1 0 0 0\noperation 1 0 0 0 1 0 0 0 -1 0 0 0\nvertices 1\norbit 1 size=2 order=8\nedges 2\norbit 1 1 1 0 0 size=2\norbit 1 2 0 0 0 size=2\n";

// A net with no symmetry but its translations.
const LOW: &str =
    "PERIODIC_GRAPH\nNAME low\nEDGES\n1 2 -1 1\n1 2 0 1\n1 3 -1 -1\n2 2 0 1\n2 3 0 0\nEND\n";

const LOW_REPORT: &str =
    "net 1 line 1 \"low\"\ngraph d=2 vertices=3 edges=5 repeats=0\nprimitive vertices=3 edges=5\nbasis 5 0\nbasis 0 5\nedge 1 2 -1 1\nedge 1 2 0 1\nedge 1 3 -1 -1\nedge 2 2 0 1\nedge 2 3 0 0\nkey 2 3 1 1 2 -3 -2 1 1 0 1 1 3 1 0 1 2 2 2 2 3 -1 0\nplacement D=5\nat 1 0 0\nat 2 3 -3\nat 3 4 1\noperations 1\noperation 1 0 0 1 0 0\nvertices 3\norbit 1 size=1 order=1\norbit 2 size=1 order=1\norbit 3 size=1 order=1\nedges 5\norbit 1 2 -1 1 size=1\norbit 1 2 0 1 size=1\norbit 1 3 -1 -1 size=1\norbit 2 2 0 1 size=1\norbit 2 3 0 0 size=1\n";

// The primitive cell is half the cell, and an edge is too long there.
const FAR: &str = "PERIODIC_GRAPH\nNAME far\nEDGES\n1 2 0 0\n1 2 1 0\n1 1 500 1\n2 2 500 1\nEND\n";

const FAR_REPORT: &str =
    "net 1 line 1 \"far\"\ngraph d=2 vertices=2 edges=4 repeats=0\nprimitive vertices=1 edges=2\nbasis 1 0\nbasis 0 2\nedge 1 1 1 0\nedge 1 1 1000 1\nkey 2 1 1 1 1 0 1 1 1 1 0\nsymmetry refused 1 WideShift u=1 v=1 s=1000 1\n";

// Another kind of block, a broken one, a net that is not connected, and the square net.
const OTHERS: &str =
    "CRYSTAL\nEND\nPERIODIC_GRAPH\nEDGES\n1 1 0 0\nEND\nPERIODIC_GRAPH\nNAME split\nEDGES\n1 1 1 0\n1 1 0 2\nEND\nPERIODIC_GRAPH\nNAME sql\nEDGES\n1 1 1 0\n1 1 0 1\nEND\n";

const OTHERS_REPORT: &str =
    "net 1 line 1\nunsupported CRYSTAL\nnet 2 line 3\nmalformed line=5 6 SelfEdge\nnet 3 line 7 \"split\"\ngraph d=2 vertices=1 edges=2 repeats=0\nrefused 1 Disconnected q=2 c=0 1 h=0\nnet 4 line 13 \"sql\"\ngraph d=2 vertices=1 edges=2 repeats=0\nprimitive vertices=1 edges=2\nbasis 1 0\nbasis 0 1\nedge 1 1 0 1\nedge 1 1 1 0\nkey 2 1 1 1 1 0 1 1 1 1 0\nplacement D=1\nat 1 0 0\noperations 8\noperation 1 0 0 1 0 0\noperation -1 0 0 -1 0 0\noperation -1 0 0 1 0 0\noperation 0 -1 -1 0 0 0\noperation 0 -1 1 0 0 0\noperation 0 1 -1 0 0 0\noperation 0 1 1 0 0 0\noperation 1 0 0 -1 0 0\nvertices 1\norbit 1 size=1 order=8\nedges 1\norbit 1 1 0 1 size=2\n";

pub const SYMMETRIC: &[Row] = &[
    Row {
        words: &["symmetry", "net"],
        net: DIAMOND,
        archive: "",
        status: Status::Done,
        written: DIAMOND_REPORT,
    },
    Row {
        words: &["symmetry", "net"],
        net: HONEYCOMB,
        archive: "",
        status: Status::Done,
        written: HONEYCOMB_REPORT,
    },
    Row {
        words: &["symmetry", "net"],
        net: DOUBLED,
        archive: "",
        status: Status::Done,
        written: DOUBLED_REPORT,
    },
    Row {
        words: &["symmetry", "net"],
        net: MIRRORED,
        archive: "",
        status: Status::Done,
        written: MIRRORED_REPORT,
    },
    Row {
        words: &["symmetry", "net"],
        net: SRS,
        archive: "",
        status: Status::Done,
        written: SRS_REPORT,
    },
    Row {
        words: &["symmetry", "net"],
        net: QUARTZ,
        archive: "",
        status: Status::Done,
        written: QUARTZ_REPORT,
    },
    Row {
        words: &["symmetry", "net"],
        net: NIOBIUM,
        archive: "",
        status: Status::Done,
        written: NIOBIUM_REPORT,
    },
    Row {
        words: &["symmetry", "net"],
        net: KAGOME,
        archive: "",
        status: Status::Done,
        written: KAGOME_REPORT,
    },
    Row {
        words: &["symmetry", "net"],
        net: CADMIUM,
        archive: "",
        status: Status::Done,
        written: CADMIUM_REPORT,
    },
    Row {
        words: &["symmetry", "net"],
        net: LOW,
        archive: "",
        status: Status::Done,
        written: LOW_REPORT,
    },
    Row {
        words: &["symmetry", "net"],
        net: FAR,
        archive: "",
        status: Status::SomeRefused,
        written: FAR_REPORT,
    },
    Row {
        words: &["symmetry", "net"],
        net: OTHERS,
        archive: "",
        status: Status::SomeRefused,
        written: OTHERS_REPORT,
    },
    Row {
        words: &["symmetry", "net"],
        net: "",
        archive: "",
        status: Status::Done,
        written: "",
    },
];
