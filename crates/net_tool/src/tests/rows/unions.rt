// Unions of an archive with the nets of a file, which is an archive or has key lines.
use super::Row;
use crate::tests::PCU_ARCHIVE;
use net_report::Status;

// the cubic net twice, with the square one between
const SPLIT_ARCHIVE: &str =
    "net_archive 1\nentry \"pcu\"\ngraph 3 1 3\nedge 1 1 0 0 1\nedge 1 1 0 1 0\nedge 1 1 1 0 0\nkey 3 1 1 1 1 0 0 1 1 1 0 1 0 1 1 1 0 0\nend\nentry \"square\"\ngraph 2 1 2\nedge 1 1 0 1\nedge 1 1 1 0\nkey 2 1 1 1 1 0 1 1 1 1 0\nend\nentry \"cube\"\ngraph 3 1 3\nedge 1 1 0 0 1\nedge 1 1 0 1 0\nedge 1 1 1 0 0\nkey 3 1 1 1 1 0 0 1 1 1 0 1 0 1 1 1 0 0\nend\n";

// the same, with the cubic nets together
const REGROUPED: &str =
    "net_archive 1\nentry \"pcu\"\ngraph 3 1 3\nedge 1 1 0 0 1\nedge 1 1 0 1 0\nedge 1 1 1 0 0\nkey 3 1 1 1 1 0 0 1 1 1 0 1 0 1 1 1 0 0\nend\nentry \"cube\"\ngraph 3 1 3\nedge 1 1 0 0 1\nedge 1 1 0 1 0\nedge 1 1 1 0 0\nkey 3 1 1 1 1 0 0 1 1 1 0 1 0 1 1 1 0 0\nend\nentry \"square\"\ngraph 2 1 2\nedge 1 1 0 1\nedge 1 1 1 0\nkey 2 1 1 1 1 0 1 1 1 1 0\nend\n";

const SQUARE_ARCHIVE: &str =
    "net_archive 1\nentry \"sql\"\ngraph 2 1 2\nedge 1 1 0 1\nedge 1 1 1 0\nkey 2 1 1 1 1 0 1 1 1 1 0\nend\nentry \"cube\"\ngraph 3 1 3\nedge 1 1 0 0 1\nedge 1 1 0 1 0\nedge 1 1 1 0 0\nkey 3 1 1 1 1 0 0 1 1 1 0 1 0 1 1 1 0 0\nend\n";

pub const UNITED: &[Row] = &[
    // two nets of key lines; that of a new kind stands last
    Row {
        words: &["union", "net", "--archive", "archive"],
        net: "key 2 1 1 1 0 1 1 0 1\nversion 1.0\nid square\nend\nkey 3 1 1 1 0 0 1 1 0 1 0 1 1 0 0 1\nid cube\nend\n",
        archive: PCU_ARCHIVE,
        status: Status::Done,
        written: REGROUPED,
    },
    // the same archive
    Row {
        words: &["union", "net", "--archive", "archive"],
        net: PCU_ARCHIVE,
        archive: PCU_ARCHIVE,
        status: Status::Done,
        written: PCU_ARCHIVE,
    },
    // the name of another net
    Row {
        words: &["union", "net", "--archive", "archive"],
        net: "key 2 1 1 1 0 1 1 0 1\nid pcu\nend\n",
        archive: PCU_ARCHIVE,
        status: Status::AddRefused,
        written: "add refused 1 1 NameTaken\n",
    },
    // of the second entry
    Row {
        words: &["union", "net", "--archive", "archive"],
        net: "net_archive 1\nentry \"sql\"\ngraph 2 1 2\nedge 1 1 0 1\nedge 1 1 1 0\nkey 2 1 1 1 1 0 1 1 1 1 0\nend\nentry \"pcu\"\ngraph 2 1 2\nedge 1 1 0 1\nedge 1 1 1 0\nkey 2 1 1 1 1 0 1 1 1 1 0\nend\n",
        archive: PCU_ARCHIVE,
        status: Status::AddRefused,
        written: "add refused 2 1 NameTaken\n",
    },
    // a key line that is none
    Row {
        words: &["union", "net", "--archive", "archive"],
        net: "key 4 1 1 1 0 0 0\nid x\nend\n",
        archive: PCU_ARCHIVE,
        status: Status::SomeRefused,
        written: "net 1 line 1\nmalformed line=1 1 BadKey\n",
    },
    // an archive with itself is itself regrouped
    Row {
        words: &["union", "net", "--archive", "archive"],
        net: SPLIT_ARCHIVE,
        archive: SPLIT_ARCHIVE,
        status: Status::Done,
        written: REGROUPED,
    },
    // two archives that share nets under other names: those of the one that is named come first
    Row {
        words: &["union", "net", "--archive", "archive"],
        net: SQUARE_ARCHIVE,
        archive: PCU_ARCHIVE,
        status: Status::Done,
        written: "net_archive 1\nentry \"pcu\"\ngraph 3 1 3\nedge 1 1 0 0 1\nedge 1 1 0 1 0\nedge 1 1 1 0 0\nkey 3 1 1 1 1 0 0 1 1 1 0 1 0 1 1 1 0 0\nend\nentry \"cube\"\ngraph 3 1 3\nedge 1 1 0 0 1\nedge 1 1 0 1 0\nedge 1 1 1 0 0\nkey 3 1 1 1 1 0 0 1 1 1 0 1 0 1 1 1 0 0\nend\nentry \"sql\"\ngraph 2 1 2\nedge 1 1 0 1\nedge 1 1 1 0\nkey 2 1 1 1 1 0 1 1 1 1 0\nend\n",
    },
    // and the other way round
    Row {
        words: &["union", "net", "--archive", "archive"],
        net: PCU_ARCHIVE,
        archive: SQUARE_ARCHIVE,
        status: Status::Done,
        written: "net_archive 1\nentry \"sql\"\ngraph 2 1 2\nedge 1 1 0 1\nedge 1 1 1 0\nkey 2 1 1 1 1 0 1 1 1 1 0\nend\nentry \"cube\"\ngraph 3 1 3\nedge 1 1 0 0 1\nedge 1 1 0 1 0\nedge 1 1 1 0 0\nkey 3 1 1 1 1 0 0 1 1 1 0 1 0 1 1 1 0 0\nend\nentry \"pcu\"\ngraph 3 1 3\nedge 1 1 0 0 1\nedge 1 1 0 1 0\nedge 1 1 1 0 0\nkey 3 1 1 1 1 0 0 1 1 1 0 1 0 1 1 1 0 0\nend\n",
    },
    // a net that is not connected, after one that has a key
    Row {
        words: &["union", "net", "--archive", "archive"],
        net: "key 2 1 1 1 0 1 1 0 1\nid square\nend\nkey 3 1 1 1 0 0 1 1 0 2 0 1 1 0 0 1\nid sub\nend\n",
        archive: PCU_ARCHIVE,
        status: Status::SomeRefused,
        written: "net 1 line 1 \"square\"\ngraph d=2 vertices=1 edges=2 repeats=0\nkey 2 1 1 1 1 0 1 1 1 1 0\nnet 2 line 4 \"sub\"\ngraph d=3 vertices=1 edges=3 repeats=0\nrefused 1 Disconnected q=2 c=0 1 0 h=0\n",
    },
    // no item
    Row {
        words: &["union", "net", "--archive", "archive"],
        net: "version 1.0\n",
        archive: SPLIT_ARCHIVE,
        status: Status::Done,
        written: REGROUPED,
    },
    // of two archives that are none, the first is reported
    Row {
        words: &["union", "net", "--archive", "archive"],
        net: "net_archive 3\n",
        archive: "net_archive 2",
        status: Status::BadArchive,
        written: "archive refused 6 Version line=1\n",
    },
    // an archive that is none, before an item that is none
    Row {
        words: &["union", "net", "--archive", "archive"],
        net: "id x\n",
        archive: "net_archive 2",
        status: Status::BadArchive,
        written: "archive refused 1 BadLine line=1\n",
    },
    // words in other letters, an item before an end, and a vertex that no edge names
    Row {
        words: &["union", "net", "--archive", "archive"],
        net: "End\nID \"a b\"\n\nKEY +2 01 2 0 0 2 1 -0 0 1 4 1 0 # edges\nEND id x",
        archive: PCU_ARCHIVE,
        status: Status::SomeRefused,
        written: "net 1 line 2 \"a b\"\ngraph d=2 vertices=4 edges=2 repeats=1\nrefused 1 Disconnected q=0 c=0 0 h=0 0 1 0\n",
    },
    // each fault of an item
    Row {
        words: &["union", "net", "--archive", "archive"],
        net: "key 2 1 1 0 0\n",
        archive: PCU_ARCHIVE,
        status: Status::SomeRefused,
        written: "net 1 line 1\nmalformed line=1 1 BadKey\n",
    },
    Row {
        words: &["union", "net", "--archive", "archive"],
        net: "key 2 1 513 0 0\n",
        archive: PCU_ARCHIVE,
        status: Status::SomeRefused,
        written: "net 1 line 1\nmalformed line=1 1 BadKey\n",
    },
    Row {
        words: &["union", "net", "--archive", "archive"],
        net: "id x\nkey 2 1 1 501 0\n",
        archive: PCU_ARCHIVE,
        status: Status::SomeRefused,
        written: "net 1 line 1 \"x\"\nmalformed line=2 1 BadKey\n",
    },
    Row {
        words: &["union", "net", "--archive", "archive"],
        net: "key 2\nend\n",
        archive: PCU_ARCHIVE,
        status: Status::SomeRefused,
        written: "net 1 line 1\nmalformed line=1 1 BadKey\n",
    },
    Row {
        words: &["union", "net", "--archive", "archive"],
        net: "id x y\nid x\nend\n",
        archive: PCU_ARCHIVE,
        status: Status::SomeRefused,
        written: "net 1 line 1\nmalformed line=1 2 BadId\n",
    },
    Row {
        words: &["union", "net", "--archive", "archive"],
        net: "key 2 1 1 1 0\nkey 2\nend\n",
        archive: PCU_ARCHIVE,
        status: Status::SomeRefused,
        written: "net 1 line 1\nmalformed line=2 3 Twice\n",
    },
    Row {
        words: &["union", "net", "--archive", "archive"],
        net: "id x\nend\n",
        archive: PCU_ARCHIVE,
        status: Status::SomeRefused,
        written: "net 1 line 1 \"x\"\nmalformed line=2 4 Missing\n",
    },
    Row {
        words: &["union", "net", "--archive", "archive"],
        net: "\nid x\n",
        archive: PCU_ARCHIVE,
        status: Status::SomeRefused,
        written: "net 1 line 2 \"x\"\nmalformed line=2 5 NoEnd\n",
    },
];
