// Archives: nets that are added, reported and found twice, and texts that are none.
use super::{PCU, Row, answer_over};
use crate::tests::{DIA, DIA_ARCHIVE, PCU_ARCHIVE};
use line_text::{push_field, push_row};
use net_report::Status;
use std::alloc::Global;
use std::test::Fail;

const PCU_NEWEST: &str =
    "net_archive 2\nentry \"pcu\"\ngraph 3 1 3\nedge 1 1 0 0 1\nedge 1 1 0 1 0\nedge 1 1 1 0 0\nkey 3 1 1 1 1 0 0 1 1 1 0 1 0 1 1 1 0 0\nprimitive 1\nshells 1 6 18 38 66 102 146 198 258 326 402\nend\n";

pub const IN_USE: &[Row] = &[
    // entries that share a net
    Row {
        words: &["duplicates", "--archive", "archive"],
        net: "",
        archive: "net_archive 1\nentry \"pcu\"\ngraph 3 1 3\nedge 1 1 0 0 1\nedge 1 1 0 1 0\nedge 1 1 1 0 0\nkey 3 1 1 1 1 0 0 1 1 1 0 1 0 1 1 1 0 0\nend\nentry \"cubic\"\ngraph 3 1 3\nedge 1 1 0 0 1\nedge 1 1 0 1 0\nedge 1 1 1 0 0\nkey 3 1 1 1 1 0 0 1 1 1 0 1 0 1 1 1 0 0\nend\n",
        status: Status::Done,
        written: "entries 2\ngroup \"pcu\" \"cubic\"\n",
    },
    // none that do
    Row {
        words: &["duplicates", "--archive", "archive"],
        net: "",
        archive: DIA_ARCHIVE,
        status: Status::Done,
        written: "entries 1\n",
    },
    // an archive of one net
    Row {
        words: &["add", "net"],
        net: DIA,
        archive: "",
        status: Status::Done,
        written: "net_archive 2\nentry \"dia\"\ngraph 3 2 4\nedge 1 2 0 0 0\nedge 1 2 0 0 1\nedge 1 2 0 1 0\nedge 1 2 1 0 0\nkey 3 2 1 1 2 -1 -1 -1 1 2 0 0 1 1 2 0 1 0 1 2 1 0 0\nprimitive 2\nshells 1 4 12 24 42 64 92 124 162 204 252\nshells 2 4 12 24 42 64 92 124 162 204 252\nend\n",
    },
    // no net to add
    Row {
        words: &["add", "net", "--name", "x"],
        net: "",
        archive: "",
        status: Status::Done,
        written: "net_archive 2\n",
    },
    // the format is kept
    Row {
        words: &["add", "net", "--archive", "archive", "--name", "cubic"],
        net: PCU,
        archive: PCU_ARCHIVE,
        status: Status::Done,
        written: "net_archive 1\nentry \"pcu\"\ngraph 3 1 3\nedge 1 1 0 0 1\nedge 1 1 0 1 0\nedge 1 1 1 0 0\nkey 3 1 1 1 1 0 0 1 1 1 0 1 0 1 1 1 0 0\nend\nentry \"cubic\"\ngraph 3 1 3\nedge 1 1 0 0 1\nedge 1 1 0 1 0\nedge 1 1 1 0 0\nkey 3 1 1 1 1 0 0 1 1 1 0 1 0 1 1 1 0 0\nend\n",
    },
    // and so is the newest
    Row {
        words: &["add", "net", "--archive", "archive"],
        net: PCU,
        archive: "net_archive 2\nentry \"dia\"\ngraph 3 2 4\nedge 1 2 0 0 0\nedge 1 2 0 0 1\nedge 1 2 0 1 0\nedge 1 2 1 0 0\nkey 3 2 1 1 2 -1 -1 -1 1 2 0 0 1 1 2 0 1 0 1 2 1 0 0\nprimitive 2\nshells 1 4 12 24 42 64 92 124 162 204 252\nshells 2 4 12 24 42 64 92 124 162 204 252\nend\n",
        status: Status::Done,
        written: "net_archive 2\nentry \"dia\"\ngraph 3 2 4\nedge 1 2 0 0 0\nedge 1 2 0 0 1\nedge 1 2 0 1 0\nedge 1 2 1 0 0\nkey 3 2 1 1 2 -1 -1 -1 1 2 0 0 1 1 2 0 1 0 1 2 1 0 0\nprimitive 2\nshells 1 4 12 24 42 64 92 124 162 204 252\nshells 2 4 12 24 42 64 92 124 162 204 252\nend\nentry \"pcu\"\ngraph 3 1 3\nedge 1 1 0 0 1\nedge 1 1 0 1 0\nedge 1 1 1 0 0\nkey 3 1 1 1 1 0 0 1 1 1 0 1 0 1 1 1 0 0\nprimitive 1\nshells 1 6 18 38 66 102 146 198 258 326 402\nend\n",
    },
    // the newest format
    Row {
        words: &["migrate", "--archive", "archive"],
        net: "",
        archive: PCU_ARCHIVE,
        status: Status::Done,
        written: PCU_NEWEST,
    },
    // which it has
    Row {
        words: &["migrate", "--archive", "archive"],
        net: "",
        archive: PCU_NEWEST,
        status: Status::Done,
        written: PCU_NEWEST,
    },
    // a name that is taken
    Row {
        words: &["add", "net", "--archive", "archive"],
        net: DIA,
        archive: DIA_ARCHIVE,
        status: Status::AddRefused,
        written: "add refused 1 1 NameTaken\n",
    },
    // by a block before
    Row {
        words: &["add", "net", "--archive", "archive", "--name", "cubic"],
        net: "PERIODIC_GRAPH\nNAME pcu\nEDGES\n1 1 1 0 0\n1 1 0 1 0\n1 1 0 0 1\nEND\nPERIODIC_GRAPH\nNAME cubic\nEDGES\n1 1 1 0 0\n1 1 0 1 0\n1 1 0 0 1\nEND\n",
        archive: DIA_ARCHIVE,
        status: Status::AddRefused,
        written: "add refused 2 1 NameTaken\n",
    },
    // a block without a name
    Row {
        words: &["add", "net", "--archive", "archive"],
        net: "PERIODIC_GRAPH\nEDGES\n1 1 1 0 0\n1 1 0 1 0\n1 1 0 0 1\nEND\n",
        archive: DIA_ARCHIVE,
        status: Status::AddRefused,
        written: "add refused 1 2 BadName\n",
    },
    // a block without a key, after one with a name that is taken
    Row {
        words: &["add", "net", "--archive", "archive"],
        net: "PERIODIC_GRAPH\nNAME dia\nEDGES\n1 2 0 0 0\n1 2 1 0 0\n1 2 0 1 0\n1 2 0 0 1\nEND\nX\nEND\n",
        archive: DIA_ARCHIVE,
        status: Status::SomeRefused,
        written: "net 1 line 1 \"dia\"\ngraph d=3 vertices=2 edges=4 repeats=0\nkey 3 2 1 1 2 -1 -1 -1 1 2 0 0 1 1 2 0 1 0 1 2 1 0 0\nnet 2 line 9\nunsupported X\n",
    },
    // many nets
    Row {
        words: &["workload", "100"],
        net: "",
        archive: "",
        status: Status::Done,
        written: "workload 100\naccepted 100\nkeys 8\n",
    },
    // one net of many
    Row {
        words: &["workload", "1"],
        net: "",
        archive: "",
        status: Status::Done,
        written: "workload 1\naccepted 1\nkeys 1\n",
    },
];

// An archive, a part of it, what stands in its place, and what is reported.
const FORGED: &[(&str, &str, &str, &str)] = &[
    // another version
    (
        PCU_ARCHIVE,
        "net_archive 1",
        "net_archive 3",
        "archive refused 6 Version line=1\n",
    ),
    // carriage returns
    (
        PCU_ARCHIVE,
        "net_archive 1\n",
        "net_archive 1\r\n",
        "archive refused 6 Version line=1\n",
    ),
    // an empty text
    (
        PCU_ARCHIVE,
        PCU_ARCHIVE,
        "",
        "archive refused 6 Version line=1\n",
    ),
    // an edge less than it says
    (
        PCU_ARCHIVE,
        "graph 3 1 3",
        "graph 3 1 4",
        "archive refused 1 BadLine line=7\n",
    ),
    // edges that fall
    (
        PCU_ARCHIVE,
        "edge 1 1 0 0 1\nedge 1 1 0 1 0\n",
        "edge 1 1 0 1 0\nedge 1 1 0 0 1\n",
        "archive refused 1 BadLine line=5\n",
    ),
    // a needless sign
    (
        PCU_ARCHIVE,
        "0 0 1\n",
        "0 0 +1\n",
        "archive refused 1 BadLine line=4\n",
    ),
    // a last line without its end
    (
        PCU_ARCHIVE,
        "end\n",
        "end",
        "archive refused 1 BadLine line=8\n",
    ),
    // an entry that is cut
    (
        PCU_ARCHIVE,
        "key 3 1 1 1 1 0 0 1 1 1 0 1 0 1 1 1 0 0\nend\n",
        "",
        "archive refused 1 BadLine line=7\n",
    ),
    // a number past 32 bits
    (
        PCU_ARCHIVE,
        "graph 3 1 3",
        "graph 4294967299 1 3",
        "archive refused 1 BadLine line=3\n",
    ),
    // a number past 128 bits
    (
        PCU_ARCHIVE,
        "key 3 1 1 1 1 0 0 1 1 1 0 1 0 1 1 1 0 0\n",
        "key 3 1 1 1 1 0 0 1 1 1 0 1 0 1 1 1 0 340282366920938463463374607431768211456\n",
        "archive refused 1 BadLine line=7\n",
    ),
    // a name with a null byte
    (
        PCU_ARCHIVE,
        "\"pcu\"",
        "\"p\0u\"",
        "archive refused 1 BadLine line=2\n",
    ),
    // an entry that stands twice
    (
        PCU_ARCHIVE,
        "end\n",
        "end\nentry \"pcu\"\ngraph 3 1 3\nedge 1 1 0 0 1\nedge 1 1 0 1 0\nedge 1 1 1 0 0\nkey 3 1 1 1 1 0 0 1 1 1 0 1 0 1 1 1 0 0\nend\n",
        "archive refused 2 RepeatedName line=9\n",
    ),
    // a net in two parts
    (
        PCU_ARCHIVE,
        PCU_ARCHIVE,
        "net_archive 1\nentry \"two\"\ngraph 2 1 2\nedge 1 1 0 1\nedge 1 1 2 0\nkey 2\nend\n",
        "archive refused 3 EntryRefused line=2\nrefused 1 Disconnected q=2 c=1 0 h=0\n",
    ),
    // a key that is forged
    (
        PCU_ARCHIVE,
        "1 0 0\nend",
        "1 0 1\nend",
        "archive refused 4 KeyDiffers line=7\nkept 3 1 1 1 1 0 0 1 1 1 0 1 0 1 1 1 0 1\ncomputed 3 1 1 1 1 0 0 1 1 1 0 1 0 1 1 1 0 0\n",
    ),
    // the key of another net
    (
        PCU_ARCHIVE,
        "key 3 1 1 1 1 0 0 1 1 1 0 1 0 1 1 1 0 0\n",
        "key 2 1 1 1 1 0 1 1 1 1 0\n",
        "archive refused 4 KeyDiffers line=7\nkept 2 1 1 1 1 0 1 1 1 1 0\ncomputed 3 1 1 1 1 0 0 1 1 1 0 1 0 1 1 1 0 0\n",
    ),
    // classes that are not there
    (
        PCU_NEWEST,
        "primitive 1\nshells 1 6 18 38 66 102 146 198 258 326 402\n",
        "primitive 2\nshells 1 6 18 38 66 102 146 198 258 326 402\nshells 2 6 18 38 66 102 146 198 258 326 402\n",
        "archive refused 8 CountDiffers line=8 kept=2 computed=1\n",
    ),
    // a coordination sequence that is forged
    (
        PCU_NEWEST,
        "402",
        "403",
        "archive refused 9 ShellsDiffer line=9 class=1\nkept 6 18 38 66 102 146 198 258 326 403\ncomputed 6 18 38 66 102 146 198 258 326 402\n",
    ),
    // a coordination sequence that is left out
    (
        PCU_NEWEST,
        " 402",
        "",
        "archive refused 9 ShellsDiffer line=9 class=1\nkept 6 18 38 66 102 146 198 258 326\ncomputed 6 18 38 66 102 146 198 258 326 402\n",
    ),
    // one without numbers, after which no blank stands
    (
        PCU_NEWEST,
        "shells 1 6 18 38 66 102 146 198 258 326 402",
        "shells 1",
        "archive refused 9 ShellsDiffer line=9 class=1\nkept\ncomputed 6 18 38 66 102 146 198 258 326 402\n",
    ),
    // vertices at one position, reported by their numbers
    (
        PCU_ARCHIVE,
        PCU_ARCHIVE,
        "net_archive 1\nentry \"leaf\"\ngraph 2 2 3\nedge 1 1 0 1\nedge 1 1 1 0\nedge 1 2 0 0\nkey 2\nend\n",
        "archive refused 3 EntryRefused line=2\nrefused 5 Collision u=1 v=2 t=0 0\n",
    ),
];

#[test]
fn texts_that_are_no_archive(rt: HostRuntime) -> Result<(), Fail> {
    for (archive, part, other, written) in FORGED {
        let forged = archive.replacen(rt.alloc(), *part, other, 1)?;
        let words = ["identify", "net", "--archive", "archive"];
        let answer = answer_over(rt.alloc(), &words, PCU.as_bytes(), forged.as_bytes())?;
        assert_eq!(rt; answer.text.as_slice(), written.as_bytes());
        assert_eq!(rt; answer.status, Status::BadArchive);
    }
    Ok(())
}

// The rows of an entry whose graph is the cubic net on a ring of 512 vertices.
fn ring_rows(alloc: Global) -> Result<Vec<u8>, Fail> {
    let mut text = Vec::from_slice(alloc, b"graph 3 512 1536\n")?;
    for k in 1..=512i64 {
        let k = i128::from(k);
        push_row(&mut text, b"edge", &[k, k, 0, 0, 1])?;
        push_row(&mut text, b"edge", &[k, k, 0, 1, 0])?;
        if k < 512 {
            push_row(&mut text, b"edge", &[k, k + 1, 0, 0, 0])?;
        }
        if k == 1 {
            push_row(&mut text, b"edge", &[1, 512, -1, 0, 0])?;
        }
    }
    text.extend_from_slice(b"key 3 1 1 1 1 0 0 1 1 1 0 1 0 1 1 1 0 0\nend\n")?;
    Ok(text)
}

// 586 entries are a text within the limit. The newest format adds 56 bytes to each, and there is
// no room for them.
#[test]
fn no_room_to_migrate(rt: HostRuntime) -> Result<(), Fail> {
    let rows = ring_rows(rt.alloc())?;
    let mut text = Vec::from_slice(rt.alloc(), b"net_archive 1\n")?;
    for name in 0..586u64 {
        push_field(&mut text, b"entry \"", name)?;
        text.extend_from_slice(b"\"\n")?;
        text.extend_from_slice(&rows)?;
    }
    let words = ["migrate", "--archive", "archive"];
    let answer = answer_over(rt.alloc(), &words, b"", &text)?;
    let written = "migrate refused 1 Full length=16798180\n";
    assert_eq!(rt; answer.text.as_slice(), written.as_bytes());
    assert_eq!(rt; answer.status, Status::MigrateRefused);
    Ok(())
}

// An entry whose graph has too much key work is refused for that, whatever key it keeps.
#[test]
fn too_much_work(rt: HostRuntime) -> Result<(), Fail> {
    let head = b"net_archive 1\nentry \"star\"\ngraph 2 1 700\nedge 1 1 0 1\n";
    let mut text = Vec::from_slice(rt.alloc(), head)?;
    for k in -349i64..=349 {
        push_row(&mut text, b"edge", &[1, 1, 1, i128::from(k)])?;
    }
    text.extend_from_slice(b"key 2\nend\n")?;
    let words = ["duplicates", "--archive", "archive"];
    let answer = answer_over(rt.alloc(), &words, b"", &text)?;
    let written =
        "archive refused 3 EntryRefused line=2\nrefused 6 TooMuch starts=0 counted=1000000400\n";
    assert_eq!(rt; answer.text.as_slice(), written.as_bytes());
    assert_eq!(rt; answer.status, Status::BadArchive);
    Ok(())
}
