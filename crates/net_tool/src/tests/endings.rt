// Runs over files that never fail: each status that goes with a text, and the text.
use super::{DIA, DIA_ARCHIVE, DIA_KEY_REPORT, DIA_NEWEST, named_files, words_of};
use crate::memory::{run_in_memory, run_on_files};
use net_report::Status;
use outside::{HonestShelf, MemorySink};
use std::test::Fail;

const LINE: &str = "PERIODIC_GRAPH\nNAME line\nEDGES\n1 1 1 0\n1 1 2 0\nEND\n";

const LINE_REPORT: &str =
    "net 1 line 1 \"line\"\ngraph d=2 vertices=1 edges=2 repeats=0\nrefused 2 Degenerate q=0 c=0 1 h=0\n";

const LINE_UNCOVERED: &str =
    "net 1 line 1 \"line\"\ngraph d=2 vertices=1 edges=2 repeats=0\ncover refused 2 CellRank\n";

// Arguments, and what a run with them writes, if the files `dia`, `line` and `archive` are
// there.
const ROWS: [(&[&str], Status, &str); 9] = [
    (&["key", "dia"], Status::Done, DIA_KEY_REPORT),
    (&["key", "line"], Status::SomeRefused, LINE_REPORT),
    (&["key", "dia", "line"], Status::Usage, crate::tool::USAGE),
    (
        &["duplicates", "--archive=dia"],
        Status::BadArchive,
        "archive refused 6 Version line=1\n",
    ),
    (
        &["add", "dia", "--archive", "archive"],
        Status::AddRefused,
        "add refused 1 1 NameTaken\n",
    ),
    (&["add", "dia"], Status::Done, DIA_NEWEST),
    (&["verify", "dia"], Status::BadMap, "maps refused line=1\n"),
    (
        &["cover", "line", "--cell", "1,1,2,2"],
        Status::SomeRefused,
        LINE_UNCOVERED,
    ),
    (
        &["check", "line", "--cell", "1,0,0,1"],
        Status::Usage,
        crate::tool::USAGE,
    ),
];

#[test]
fn endings(rt: HostRuntime) -> Result<(), Fail> {
    let alloc = rt.alloc();
    let files = [
        ("dia", DIA.as_bytes()),
        ("line", LINE.as_bytes()),
        ("archive", DIA_ARCHIVE.as_bytes()),
    ];
    for (words, status, written) in &ROWS {
        let mut shelf = HonestShelf::new(named_files(alloc, &files)?);
        let mut out = MemorySink::new(alloc, 1 << 18, 7, Vec::new(alloc))?;
        let words = words_of(alloc, words)?;
        let ended = run_in_memory(alloc, &words, &mut shelf, &mut out);
        assert_eq!(rt; ended, *status);
        assert_eq!(rt; out.written(), written.as_bytes());
    }
    Ok(())
}

// Files that never fail, and a sink without room: no read fails, whatever becomes of the text.
#[test]
fn sink_without_room(rt: HostRuntime) -> Result<(), Fail> {
    let alloc = rt.alloc();
    let mut shelf = HonestShelf::new(named_files(alloc, &[("dia", DIA.as_bytes())])?);
    let mut out = MemorySink::new(alloc, 10, 7, Vec::new(alloc))?;
    let words = words_of(alloc, &["key", "dia"])?;
    let ended = run_on_files(alloc, &words, &mut shelf, &mut out);
    assert_eq!(rt; ended, Status::WriteFault);
    assert!(rt; DIA_KEY_REPORT.as_bytes().starts_with(out.written()));
    assert!(rt; out.written().len() <= 10);
    Ok(())
}
