// What `verify` reports, each verdict and each kind of bad line, and what `same` writes.
use super::keys::ring;
use super::{PCU, Row, answer_on};
use line_text::push_row;
use net_report::{Answer, Status};
use std::alloc::Global;
use std::test::Fail;

const CUBIC: &str =
    "net_maps 1\ngraph 3 1 3\nedge 1 1 0 0 1\nedge 1 1 0 1 0\nedge 1 1 1 0 0\npair 2 map\ngraph 3 1 3\nedge 1 1 0 0 1\nedge 1 1 0 1 0\nedge 1 1 1 0 0\nperiod 8\n";

const LOST: &str = "pair 2 refused 5 Arc u=1 r=0 0 0 v=1 s=-1 0 0\n";

pub const VERIFIED: &[Row] = &[
    Row {
        words: &["verify", "net"],
        net: "net_maps 1\ngraph 3 2 6\nedge 1 1 0 0 1\nedge 1 1 0 1 0\nedge 1 2 -1 0 0\nedge 1 2 0 0 0\nedge 2 2 0 0 1\nedge 2 2 0 1 0\npair 2 map\ngraph 3 1 3\nedge 1 1 0 0 1\nedge 1 1 0 1 0\nedge 1 1 1 0 0\nperiod 1\nimage 1 0 0 0 1 0 0 0\nimage 2 0 0 0 1 1 0 0\nbase 2 0 0\nbase 0 1 0\nbase 0 0 1\nend\n",
        archive: "",
        status: Status::Done,
        written: "pair 2 verified\n",
    },
    Row {
        words: &["verify", "net"],
        net: "net_maps 1\ngraph 3 2 6\nedge 1 1 0 0 1\nedge 1 1 0 1 0\nedge 1 2 -1 0 0\nedge 1 2 0 0 0\nedge 2 2 0 0 1\nedge 2 2 0 1 0\npair 2 map\ngraph 3 1 3\nedge 1 1 0 0 1\nedge 1 1 0 1 0\nedge 1 1 1 0 0\nperiod 1\nimage 1 0 0 0 1 0 0 0\nimage 2 0 0 0 1 2 0 0\nbase 2 0 0\nbase 0 1 0\nbase 0 0 1\nend\n",
        archive: "",
        status: Status::SomeRefused,
        written: "pair 2 refused 3 Doubled u=2 r=0 0 0\n",
    },
    Row {
        words: &["verify", "net"],
        net: "net_maps 1\ngraph 3 2 6\nedge 1 1 0 0 1\nedge 1 1 0 1 0\nedge 1 2 -1 0 0\nedge 1 2 0 0 0\nedge 2 2 0 0 1\nedge 2 2 0 1 0\npair 2 map\ngraph 3 1 3\nedge 1 1 0 0 1\nedge 1 1 0 1 0\nedge 1 1 1 0 0\nperiod 1\nimage 1 0 0 0 1 0 0 0\nimage 2 0 0 0 1 1 0 0\nbase 2 0 0\nbase 0 1 0\nbase 0 0 2\nend\n",
        archive: "",
        status: Status::SomeRefused,
        written: "pair 2 refused 2 Count entries=2 product=4\n",
    },
    Row {
        words: &["verify", "net"],
        net: "net_maps 1\ngraph 3 2 6\nedge 1 1 0 0 1\nedge 1 1 0 1 0\nedge 1 2 -1 0 0\nedge 1 2 0 0 0\nedge 2 2 0 0 1\nedge 2 2 0 1 0\npair 2 map\ngraph 3 1 3\nedge 1 1 0 0 1\nedge 1 1 0 1 0\nedge 1 1 1 0 0\nperiod 1\nimage 1 0 0 0 1 1 0 0\nimage 2 0 0 0 1 0 0 0\nbase 2 0 0\nbase 0 1 0\nbase 0 0 1\nend\n",
        archive: "",
        status: Status::SomeRefused,
        written: "pair 2 refused 5 Arc u=1 r=0 0 0 v=2 s=-1 0 0\n",
    },
    Row {
        words: &["verify", "net"],
        net: "net_maps 1\ngraph 3 1 3\nedge 1 1 0 0 1\nedge 1 1 0 1 0\nedge 1 1 1 0 0\npair 2 map\ngraph 2 1 2\nedge 1 1 0 1\nedge 1 1 1 0\nperiod 1\nimage 1 0 0 0 1 0 0\nbase 1 0\nbase 0 1\nbase 0 0\nend\n",
        archive: "",
        status: Status::SomeRefused,
        written: "pair 2 refused 1 Dimension\n",
    },
    Row {
        words: &["verify", "net"],
        net: "net_maps 1\ngraph 3 1 3\nedge 1 1 0 0 1\nedge 1 1 0 1 0\nedge 1 1 1 0 0\npair 2 map\ngraph 3 1 2\nedge 1 1 0 0 1\nedge 1 1 1 0 0\nperiod 1\nimage 1 0 0 0 1 0 0 0\nbase 1 0 0\nbase 0 1 0\nbase 0 0 1\nend\n",
        archive: "",
        status: Status::SomeRefused,
        written: "pair 2 refused 4 Degree u=1 r=0 0 0\n",
    },
    Row {
        words: &["verify", "net"],
        net: "net_maps 1\ngraph 3 2 6\nedge 1 1 0 0 1\nedge 1 1 0 1 0\nedge 1 2 -1 0 0\nedge 1 2 0 0 0\nedge 2 2 0 0 1\nedge 2 2 0 1 0\npair 2 map\ngraph 3 1 3\nedge 1 1 0 0 1\nedge 1 1 0 1 0\nedge 1 1 1 0 0\n",
        archive: "",
        status: Status::BadMap,
        written: "maps refused line=14\n",
    },
    Row {
        words: &["verify", "net"],
        net: "net_maps 1\ngraph 3 2 6\nedge 1 1 0 0 1\nedge 1 1 0 1 0\nedge 1 2 -1 0 0\nedge 1 2 0 0 0\nedge 2 2 0 0 1\nedge 2 2 0 1 0\npair 2 map\ngraph 3 1 3\nedge 1 1 0 0 1\nedge 1 1 0 1 0\nedge 1 1 1 0 0\nperiod 0\n",
        archive: "",
        status: Status::BadMap,
        written: "maps refused line=14\n",
    },
    Row {
        words: &["verify", "net"],
        net: "net_maps 1\ngraph 3 2 6\nedge 1 1 0 0 1\nedge 1 1 0 1 0\nedge 1 2 -1 0 0\nedge 1 2 0 0 0\nedge 2 2 0 0 1\nedge 2 2 0 1 0\npair 2 map\ngraph 3 1 3\nedge 1 1 0 0 1\nedge 1 1 0 1 0\nedge 1 1 1 0 0\nperiod 37\n",
        archive: "",
        status: Status::BadMap,
        written: "maps refused line=14\n",
    },
    Row {
        words: &["verify", "net"],
        net: "net_maps 1\ngraph 3 2 6\nedge 1 1 0 0 1\nedge 1 1 0 1 0\nedge 1 2 -1 0 0\nedge 1 2 0 0 0\nedge 2 2 0 0 1\nedge 2 2 0 1 0\npair 2 map\ngraph 3 1 3\nedge 1 1 0 0 1\nedge 1 1 0 1 0\nedge 1 1 1 0 0\nperiod 1",
        archive: "",
        status: Status::BadMap,
        written: "maps refused line=14\n",
    },
    Row {
        words: &["verify", "net"],
        net: "net_maps 1\ngraph 3 2 6\nedge 1 1 0 0 1\nedge 1 1 0 1 0\nedge 1 2 -1 0 0\nedge 1 2 0 0 0\nedge 2 2 0 0 1\nedge 2 2 0 1 0\npair 2 map\ngraph 3 1 3\nedge 1 1 0 0 1\nedge 1 1 0 1 0\nedge 1 1 1 0 0\nperiod 1\nimage 1 0 0 0 2 0 0 0\n",
        archive: "",
        status: Status::BadMap,
        written: "maps refused line=15\n",
    },
    Row {
        words: &["verify", "net"],
        net: "net_maps 1\ngraph 3 2 6\nedge 1 1 0 0 1\nedge 1 1 0 1 0\nedge 1 2 -1 0 0\nedge 1 2 0 0 0\nedge 2 2 0 0 1\nedge 2 2 0 1 0\npair 2 map\ngraph 3 1 3\nedge 1 1 0 0 1\nedge 1 1 0 1 0\nedge 1 1 1 0 0\nperiod 1\nimage 1 0 0 0 1 0 0 274877906945\n",
        archive: "",
        status: Status::BadMap,
        written: "maps refused line=15\n",
    },
    Row {
        words: &["verify", "net"],
        net: "net_maps 1\ngraph 3 2 6\nedge 1 1 0 0 1\nedge 1 1 0 1 0\nedge 1 2 -1 0 0\nedge 1 2 0 0 0\nedge 2 2 0 0 1\nedge 2 2 0 1 0\npair 2 map\ngraph 3 1 3\nedge 1 1 0 0 1\nedge 1 1 0 1 0\nedge 1 1 1 0 0\nperiod 1\nimage 2 0 0 0 1 1 0 0\n",
        archive: "",
        status: Status::BadMap,
        written: "maps refused line=15\n",
    },
    Row {
        words: &["verify", "net"],
        net: "net_maps 1\ngraph 3 2 6\nedge 1 1 0 0 1\nedge 1 1 0 1 0\nedge 1 2 -1 0 0\nedge 1 2 0 0 0\nedge 2 2 0 0 1\nedge 2 2 0 1 0\npair 2 map\ngraph 3 1 3\nedge 1 1 0 0 1\nedge 1 1 0 1 0\nedge 1 1 1 0 0\nperiod 1\nimage 1 0 0 0 1 0 0 0\n",
        archive: "",
        status: Status::BadMap,
        written: "maps refused line=16\n",
    },
    Row {
        words: &["verify", "net"],
        net: "net_maps 1\ngraph 3 2 6\nedge 1 1 0 0 1\nedge 1 1 0 1 0\nedge 1 2 -1 0 0\nedge 1 2 0 0 0\nedge 2 2 0 0 1\nedge 2 2 0 1 0\npair 2 map\ngraph 3 1 3\nedge 1 1 0 0 1\nedge 1 1 0 1 0\nedge 1 1 1 0 0\nperiod 1\nimage 1 0 0 0 1 0 0 0\nimage 2 0 0 0 1 1 0 0\nbase 2 0 0\nend\n",
        archive: "",
        status: Status::BadMap,
        written: "maps refused line=18\n",
    },
    Row {
        words: &["verify", "net"],
        net: "net_maps 1\ngraph 3 2 6\nedge 1 1 0 0 1\nedge 1 1 0 1 0\nedge 1 2 -1 0 0\nedge 1 2 0 0 0\nedge 2 2 0 0 1\nedge 2 2 0 1 0\npair 2 map\ngraph 3 1 3\nedge 1 1 0 0 1\nedge 1 1 0 1 0\nedge 1 1 1 0 0\nperiod 1\nimage 1 0 0 0 1 0 0 0\nimage 2 0 0 0 1 1 0 0\nbase +2 0 0\n",
        archive: "",
        status: Status::BadMap,
        written: "maps refused line=17\n",
    },
    Row {
        words: &["verify", "net"],
        net: "net_maps 1\ngraph 3 2 6\nedge 1 1 0 0 1\nedge 1 1 0 1 0\nedge 1 2 -1 0 0\nedge 1 2 0 0 0\nedge 2 2 0 0 1\nedge 2 2 0 1 0\npair 2 map\ngraph 3 1 3\nedge 1 1 0 0 1\nedge 1 1 0 1 0\nedge 1 1 1 0 0\nperiod 1\nimage 1 0 0 0 1 0 0 0\nimage 2 0 0 0 1 1 0 0\nbase 2 0 0\nbase 0 1 0\nbase 0 0 1\n",
        archive: "",
        status: Status::BadMap,
        written: "maps refused line=20\n",
    },
    Row {
        words: &["verify", "net"],
        net: "net_maps 1\ngraph 3 2 6\nedge 1 1 0 0 1\nedge 1 1 0 1 0\nedge 1 2 -1 0 0\nedge 1 2 0 0 0\nedge 2 2 0 0 1\nedge 2 2 0 1 0\npair 2 map\ngraph 3 1 3\nedge 1 1 0 0 1\nedge 1 1 0 1 0\nedge 1 1 1 0 0\nperiod 1\nimage 1 0 0 0 1 0 0 0\nimage 2 0 0 0 1 1 0 0\nbase 2 0 0\nbase 0 1 0\nbase 0 0 1\nend\npair 4 map\n",
        archive: "",
        status: Status::BadMap,
        written: "maps refused line=21\n",
    },
    Row {
        words: &["verify", "net"],
        net: "",
        archive: "",
        status: Status::BadMap,
        written: "maps refused line=1\n",
    },
    Row {
        words: &["verify", "net"],
        net: "net_maps 1",
        archive: "",
        status: Status::BadMap,
        written: "maps refused line=1\n",
    },
    Row {
        words: &["verify", "net"],
        net: "net_maps 1\n\n",
        archive: "",
        status: Status::BadMap,
        written: "maps refused line=2\n",
    },
    Row {
        words: &["verify", "net"],
        net: "net_maps 1\npair 2 different\n",
        archive: "",
        status: Status::BadMap,
        written: "maps refused line=2\n",
    },
    Row {
        words: &["verify", "net"],
        net: "net_maps 1\n",
        archive: "",
        status: Status::Done,
        written: "",
    },
    // of plane nets
    Row {
        words: &["verify", "net"],
        net: "net_maps 1\ngraph 2 1 2\nedge 1 1 0 1\nedge 1 1 1 0\npair 2 map\ngraph 2 1 2\nedge 1 1 0 1\nedge 1 1 1 0\nperiod 1\nimage 1 0 0 1 0 0\nbase 1 0\nbase 0 1\nend\n",
        archive: "",
        status: Status::Done,
        written: "pair 2 verified\n",
    },
    Row {
        words: &["verify", "net"],
        net: "net_maps 1\ngraph 2 1 2\nedge 1 1 0 1\nedge 1 1 1 0\npair 2 map\ngraph 2 1 2\nedge 1 1 0 1\nedge 1 1 1 0\nperiod 1\nimage 1 0 0 1 0 0\nbase 0 1\nbase -1 0\nend\n",
        archive: "",
        status: Status::Done,
        written: "pair 2 verified\n",
    },
    Row {
        words: &["verify", "net"],
        net: "net_maps 1\ngraph 2 1 2\nedge 1 1 0 1\nedge 1 1 1 0\npair 2 map\ngraph 2 1 3\nedge 1 1 0 1\nedge 1 1 1 -1\nedge 1 1 1 0\nperiod 1\nimage 1 0 0 1 0 0\nbase 1 0\nbase 0 1\nend\n",
        archive: "",
        status: Status::SomeRefused,
        written: "pair 2 refused 4 Degree u=1 r=0 0\n",
    },
    Row {
        words: &["verify", "net"],
        net: "net_maps 1\ngraph 2 1 2\nedge 1 1 0 1\nedge 1 1 1 0\npair 2 map\ngraph 2 1 2\nedge 1 1 0 1\nedge 1 1 1 1\nperiod 1\nimage 1 0 0 1 0 0\nbase 1 0\nbase 0 1\nend\n",
        archive: "",
        status: Status::SomeRefused,
        written: "pair 2 refused 5 Arc u=1 r=0 0 v=1 s=-1 0\n",
    },
    Row {
        words: &["verify", "net"],
        net: "net_maps 1\ngraph 2 1 2\nedge 1 1 0 1\nedge 1 1 1 0\npair 2 map\ngraph 2 1 2\nedge 1 1 0 1\nedge 1 1 1 1\nperiod 1\nimage 1 0 0 1 0 0\nbase 1 1\nbase 0 1\nend\n",
        archive: "",
        status: Status::Done,
        written: "pair 2 verified\n",
    },
    // of period 2
    Row {
        words: &["verify", "net"],
        net: "net_maps 1\ngraph 2 1 2\nedge 1 1 0 1\nedge 1 1 1 0\npair 2 map\ngraph 2 1 2\nedge 1 1 0 1\nedge 1 1 1 0\nperiod 2\nimage 1 0 0 1 0 0\nimage 1 0 1 1 0 1\nimage 1 1 0 1 1 0\nimage 1 1 1 1 1 1\nbase 2 0\nbase 0 2\nend\n",
        archive: "",
        status: Status::Done,
        written: "pair 2 verified\n",
    },
    Row {
        words: &["verify", "net"],
        net: "net_maps 1\ngraph 2 1 2\nedge 1 1 0 1\nedge 1 1 1 0\npair 2 map\ngraph 2 1 2\nedge 1 1 0 1\nedge 1 1 1 0\nperiod 2\nimage 1 0 0 1 0 0\nimage 1 0 1 1 0 1\nimage 1 1 0 1 1 0\nimage 1 1 1 1 1 1\nbase 2 0\nbase 0 1\nend\n",
        archive: "",
        status: Status::SomeRefused,
        written: "pair 2 refused 2 Count entries=4 product=2\n",
    },
    Row {
        words: &["verify", "net"],
        net: "net_maps 1\ngraph 2 1 2\nedge 1 1 0 1\nedge 1 1 1 0\npair 2 map\ngraph 2 1 2\nedge 1 1 0 1\nedge 1 1 1 0\nperiod 2\nimage 1 0 0 1 0 0\nimage 1 0 1 1 0 1\nimage 1 1 0 1 1 1\nimage 1 1 1 1 1 0\nbase 2 0\nbase 0 2\nend\n",
        archive: "",
        status: Status::SomeRefused,
        written: "pair 2 refused 5 Arc u=1 r=0 0 v=1 s=-1 0\n",
    },
    // two cells of the first net make one of the second
    Row {
        words: &["verify", "net"],
        net: "net_maps 1\ngraph 3 1 3\nedge 1 1 0 0 1\nedge 1 1 0 1 0\nedge 1 1 1 0 0\npair 2 map\ngraph 3 2 6\nedge 1 1 0 0 1\nedge 1 1 0 1 0\nedge 1 2 -1 0 0\nedge 1 2 0 0 0\nedge 2 2 0 0 1\nedge 2 2 0 1 0\nperiod 2\nimage 1 0 0 0 1 0 0 0\nimage 1 0 0 1 1 0 0 1\nimage 1 0 1 0 1 0 1 0\nimage 1 0 1 1 1 0 1 1\nimage 1 1 0 0 2 0 0 0\nimage 1 1 0 1 2 0 0 1\nimage 1 1 1 0 2 0 1 0\nimage 1 1 1 1 2 0 1 1\nbase 1 0 0\nbase 0 2 0\nbase 0 0 2\nend\n",
        archive: "",
        status: Status::Done,
        written: "pair 2 verified\n",
    },
    // what `same` writes of two nets that are different
    Row {
        words: &["verify", "net"],
        net: "net_maps 1\ngraph 2 1 2\nedge 1 1 0 1\nedge 1 1 1 0\npair 2 different\n",
        archive: "",
        status: Status::Done,
        written: "pair 2 unproved\n",
    },
    // a pair without a map is not proved
    Row {
        words: &["verify", "net"],
        net: "net_maps 1\ngraph 3 2 6\nedge 1 1 0 0 1\nedge 1 1 0 1 0\nedge 1 2 -1 0 0\nedge 1 2 0 0 0\nedge 2 2 0 0 1\nedge 2 2 0 1 0\npair 2 map\ngraph 3 1 3\nedge 1 1 0 0 1\nedge 1 1 0 1 0\nedge 1 1 1 0 0\nperiod 1\nimage 1 0 0 0 1 0 0 0\nimage 2 0 0 0 1 1 0 0\nbase 2 0 0\nbase 0 1 0\nbase 0 0 1\nend\npair 3 different\npair 4 long entries=262144\npair 5 wide value=-274877906945\n",
        archive: "",
        status: Status::Done,
        written: "pair 2 verified\npair 3 unproved\npair 4 unproved\npair 5 unproved\n",
    },
];

// Maps between the nets of a text.
pub const MAPPED: &[Row] = &[
    Row {
        words: &["same", "net"],
        net: "PERIODIC_GRAPH\nNAME pcu2\nEDGES\n1 2 0 0 0\n2 1 1 0 0\n1 1 0 1 0\n1 1 0 0 1\n2 2 0 1 0\n2 2 0 0 1\nEND\nPERIODIC_GRAPH\nNAME pcu\nEDGES\n1 1 1 0 0\n1 1 0 1 0\n1 1 0 0 1\nEND\n",
        archive: "",
        status: Status::Done,
        written: "net_maps 1\ngraph 3 2 6\nedge 1 1 0 0 1\nedge 1 1 0 1 0\nedge 1 2 -1 0 0\nedge 1 2 0 0 0\nedge 2 2 0 0 1\nedge 2 2 0 1 0\npair 2 map\ngraph 3 1 3\nedge 1 1 0 0 1\nedge 1 1 0 1 0\nedge 1 1 1 0 0\nperiod 1\nimage 1 0 0 0 1 0 0 0\nimage 2 0 0 0 1 1 0 0\nbase 2 0 0\nbase 0 1 0\nbase 0 0 1\nend\n",
    },
    // two cells of the first net make one of the second
    Row {
        words: &["same", "net"],
        net: "PERIODIC_GRAPH\nNAME pcu\nEDGES\n1 1 1 0 0\n1 1 0 1 0\n1 1 0 0 1\nEND\nPERIODIC_GRAPH\nNAME pcu2\nEDGES\n1 2 0 0 0\n2 1 1 0 0\n1 1 0 1 0\n1 1 0 0 1\n2 2 0 1 0\n2 2 0 0 1\nEND\n",
        archive: "",
        status: Status::Done,
        written: "net_maps 1\ngraph 3 1 3\nedge 1 1 0 0 1\nedge 1 1 0 1 0\nedge 1 1 1 0 0\npair 2 map\ngraph 3 2 6\nedge 1 1 0 0 1\nedge 1 1 0 1 0\nedge 1 2 -1 0 0\nedge 1 2 0 0 0\nedge 2 2 0 0 1\nedge 2 2 0 1 0\nperiod 2\nimage 1 0 0 0 1 0 0 0\nimage 1 0 0 1 1 0 0 1\nimage 1 0 1 0 1 0 1 0\nimage 1 0 1 1 1 0 1 1\nimage 1 1 0 0 2 0 0 0\nimage 1 1 0 1 2 0 0 1\nimage 1 1 1 0 2 0 1 0\nimage 1 1 1 1 2 0 1 1\nbase 1 0 0\nbase 0 2 0\nbase 0 0 2\nend\n",
    },
    // other nets
    Row {
        words: &["same", "net"],
        net: "PERIODIC_GRAPH\nNAME sql\nEDGES\n1 1 1 0\n1 1 0 1\nEND\nPERIODIC_GRAPH\nNAME hxl\nEDGES\n1 1 1 0\n1 1 0 1\n1 1 1 1\nEND\nPERIODIC_GRAPH\nNAME pcu\nEDGES\n1 1 1 0 0\n1 1 0 1 0\n1 1 0 0 1\nEND\n",
        archive: "",
        status: Status::Done,
        written: "net_maps 1\ngraph 2 1 2\nedge 1 1 0 1\nedge 1 1 1 0\npair 2 different\npair 3 different\n",
    },
    // one net, and none
    Row {
        words: &["same", "net"],
        net: "PERIODIC_GRAPH\nNAME hxl\nEDGES\n1 1 1 0\n1 1 0 1\n1 1 1 1\nEND\n",
        archive: "",
        status: Status::Done,
        written: "net_maps 1\ngraph 2 1 3\nedge 1 1 0 1\nedge 1 1 1 0\nedge 1 1 1 1\n",
    },
    Row {
        words: &["same", "net"],
        net: "",
        archive: "",
        status: Status::Done,
        written: "net_maps 1\n",
    },
    // a block that is no net
    Row {
        words: &["same", "net"],
        net: "PERIODIC_GRAPH\nNAME hxl\nEDGES\n1 1 1 0\n1 1 0 1\n1 1 1 1\nEND\nCRYSTAL\nNAME x\nEND\n",
        archive: "",
        status: Status::SomeRefused,
        written: "net 1 line 1 \"hxl\"\ngraph d=2 vertices=1 edges=3 repeats=0\nkey 2 1 1 1 1 0 1 1 1 1 -1 1 1 1 0\nnet 2 line 8\nunsupported CRYSTAL\n",
    },
];

// The map of the cubic net to itself of period 8 that keeps each of its 512 vertices, but for two
// that change their images; with these shifts.
fn kept_cubic(alloc: Global, one: u32, other: u32, base: &str) -> Result<Vec<u8>, Fail> {
    let mut text = Vec::from_slice(alloc, CUBIC.as_bytes())?;
    for i in 0..512u32 {
        let j = if i == one {
            other
        } else if i == other {
            one
        } else {
            i
        };
        let [x, y, z] = [i128::from(i / 64), i128::from(i / 8 % 8), i128::from(i % 8)];
        let [p, q, r] = [i128::from(j / 64), i128::from(j / 8 % 8), i128::from(j % 8)];
        push_row(&mut text, b"image", &[1, x, y, z, 1, p, q, r])?;
    }
    text.extend_from_slice(base.as_bytes())?;
    text.extend_from_slice(b"end\n")?;
    Ok(text)
}

// Two vertices, the shifts of a map, and what is told of it if the images of the two are
// exchanged.
const FORGED: [(u32, u32, &str, &str); 5] = [
    (
        0,
        0,
        "base 8 0 0\nbase 0 8 0\nbase 0 0 8\n",
        "pair 2 verified\n",
    ),
    // two images exchanged
    (0, 1, "base 8 0 0\nbase 0 8 0\nbase 0 0 8\n", LOST),
    // shifts exchanged
    (0, 0, "base 0 8 0\nbase 8 0 0\nbase 0 0 8\n", LOST),
    // a wrong shift
    (
        0,
        0,
        "base 9 0 0\nbase 0 8 0\nbase 0 0 8\n",
        "pair 2 refused 2 Count entries=512 product=576\n",
    ),
    // shifts in one plane
    (
        0,
        0,
        "base 8 0 0\nbase 0 8 0\nbase 8 8 0\n",
        "pair 2 refused 2 Count entries=512 product=0\n",
    ),
];

#[test]
fn forged_maps(rt: HostRuntime) -> Result<(), Fail> {
    for (one, other, base, told) in &FORGED {
        let text = kept_cubic(rt.alloc(), *one, *other, base)?;
        let answer = answer_on(rt.alloc(), "verify", &text)?;
        assert_eq!(rt; answer.text.as_slice(), told.as_bytes());
    }
    Ok(())
}

// What `same` answers to the cubic net and rings of so many vertices.
fn same_rings(alloc: Global, lengths: &[u32]) -> Result<Answer, Fail> {
    let mut text = Vec::from_slice(alloc, PCU.as_bytes())?;
    for length in lengths {
        text.extend_from_slice(&ring(alloc, *length)?)?;
    }
    answer_on(alloc, "same", &text)
}

// A map to a ring of 50 vertices has 125,000 images. One to a ring of 40 has 64,000: after it there
// is no room for another.
#[test]
fn room_is_kept(rt: HostRuntime) -> Result<(), Fail> {
    let first = same_rings(rt.alloc(), &[50])?;
    let told = b"\npair 2 long entries=125000\n";
    assert!(rt; first.text.as_slice().ends_with(told));
    let both = same_rings(rt.alloc(), &[40, 40])?;
    let told = b"\nend\npair 3 long entries=64000\n";
    assert!(rt; both.text.as_slice().ends_with(told));
    let verified = answer_on(rt.alloc(), "verify", &both.text)?;
    let told = b"pair 2 verified\npair 3 unproved\n";
    assert_eq!(rt; verified.text.as_slice(), told.as_slice());
    Ok(())
}
