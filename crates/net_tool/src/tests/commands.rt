// Each command once, over files that never fail: what it writes was worked out by hand.
use super::{DIA, DIA_ARCHIVE, PCU_ARCHIVE, SQL, named_files, words_of};
use crate::memory::run_in_memory;
use net_report::Status;
use outside::{HonestShelf, MemorySink};
use std::alloc::Global;
use std::test::Fail;

// two square nets, one between the other
const TWO: &str = "PERIODIC_GRAPH\nNAME two\nEDGES\n1 1 2 0\n1 1 0 1\nEND\n";

// the cubic net on a doubled cell, and on its own
const PAIR: &str =
    "PERIODIC_GRAPH\nNAME pcu2\nEDGES\n1 2 0 0 0\n2 1 1 0 0\n1 1 0 1 0\n1 1 0 0 1\n2 2 0 1 0\n2 2 0 0 1\nEND\nPERIODIC_GRAPH\nNAME pcu\nEDGES\n1 1 1 0 0\n1 1 0 1 0\n1 1 0 0 1\nEND\n";

// a map from the one to the other
const MAPS: &str =
    "net_maps 1\ngraph 3 2 6\nedge 1 1 0 0 1\nedge 1 1 0 1 0\nedge 1 2 -1 0 0\nedge 1 2 0 0 0\nedge 2 2 0 0 1\nedge 2 2 0 1 0\npair 2 map\ngraph 3 1 3\nedge 1 1 0 0 1\nedge 1 1 0 1 0\nedge 1 1 1 0 0\nperiod 1\nimage 1 0 0 0 1 0 0 0\nimage 2 0 0 0 1 1 0 0\nbase 2 0 0\nbase 0 1 0\nbase 0 0 1\nend\n";

// the same, with an image that stands twice
const DOUBLED: &str =
    "net_maps 1\ngraph 3 2 6\nedge 1 1 0 0 1\nedge 1 1 0 1 0\nedge 1 2 -1 0 0\nedge 1 2 0 0 0\nedge 2 2 0 0 1\nedge 2 2 0 1 0\npair 2 map\ngraph 3 1 3\nedge 1 1 0 0 1\nedge 1 1 0 1 0\nedge 1 1 1 0 0\nperiod 1\nimage 1 0 0 0 1 0 0 0\nimage 2 0 0 0 1 2 0 0\nbase 2 0 0\nbase 0 1 0\nbase 0 0 1\nend\n";

const KEYS: &str =
    "key 2 1 1 1 0 1 1 0 1\nversion 1.0\nid square\nend\nkey 3 1 1 1 0 0 1 1 0 1 0 1 1 0 0 1\nid cube\nend\n";

// the archive with the nets of the key lines; equal keys stand together
const UNITED: &str =
    "net_archive 1\nentry \"pcu\"\ngraph 3 1 3\nedge 1 1 0 0 1\nedge 1 1 0 1 0\nedge 1 1 1 0 0\nkey 3 1 1 1 1 0 0 1 1 1 0 1 0 1 1 1 0 0\nend\nentry \"cube\"\ngraph 3 1 3\nedge 1 1 0 0 1\nedge 1 1 0 1 0\nedge 1 1 1 0 0\nkey 3 1 1 1 1 0 0 1 1 1 0 1 0 1 1 1 0 0\nend\nentry \"square\"\ngraph 2 1 2\nedge 1 1 0 1\nedge 1 1 1 0\nkey 2 1 1 1 1 0 1 1 1 1 0\nend\n";

// an entry without its first line
const SQUARE_ROWS: &str =
    "graph 2 1 2\nedge 1 1 0 1\nedge 1 1 1 0\nkey 2 1 1 1 1 0 1 1 1 1 0\nend\n";

const FILES: [(&str, &str); 9] = [
    ("dia", DIA),
    ("sql", SQL),
    ("two", TWO),
    ("pair", PAIR),
    ("maps", MAPS),
    ("doubled", DOUBLED),
    ("keys", KEYS),
    ("archive", DIA_ARCHIVE),
    ("cubic", PCU_ARCHIVE),
];

// Arguments, and what a run with them writes.
const ROWS: [(&[&str], Status, &str); 12] = [
    (
        &["workload", "100"],
        Status::Done,
        "workload 100\naccepted 100\nkeys 8\n",
    ),
    (
        &["duplicates", "--archive=archive"],
        Status::Done,
        "entries 1\n",
    ),
    (
        &["migrate", "--archive=archive"],
        Status::Done,
        super::DIA_NEWEST,
    ),
    (
        &["components", "two"],
        Status::Done,
        "net 1 line 1 \"two\"\ngraph d=2 vertices=1 edges=2 repeats=0\ncomponents 1\npart 1 vertices=1 copies=2\nkey 2 1 1 1 1 0 1 1 1 1 0\n",
    ),
    (
        &["cover", "sql", "--cell", "2,0,0,1"],
        Status::Done,
        "PERIODIC_GRAPH\nNAME \"sql\"\nEDGES\n1 1 0 1\n1 2 -1 0\n1 2 0 0\n2 2 0 1\nEND\n",
    ),
    (
        &["cover", "sql", "--cell", "500,0,0,2"],
        Status::SomeRefused,
        "net 1 line 1 \"sql\"\ngraph d=2 vertices=1 edges=2 repeats=0\ncover refused 3 CoverVertices count=1000\n",
    ),
    (
        &["cover", "dia", "--cell=-1,0,0,0,-1,0,0,0,1"],
        Status::Done,
        "PERIODIC_GRAPH\nNAME \"dia\"\nEDGES\n1 2 -1 0 0\n1 2 0 -1 0\n1 2 0 0 0\n1 2 0 0 1\nEND\n",
    ),
    (&["same", "pair"], Status::Done, MAPS),
    (&["verify", "maps"], Status::Done, "pair 2 verified\n"),
    (
        &["verify", "doubled"],
        Status::SomeRefused,
        "pair 2 refused 3 Doubled u=2 r=0 0 0\n",
    ),
    (&["union", "keys", "--archive=cubic"], Status::Done, UNITED),
    (
        &["union", "archive", "--archive=archive"],
        Status::Done,
        DIA_ARCHIVE,
    ),
];

// How a run over these files ends, and what it writes.
fn run_with(
    alloc: Global,
    words: &[&str],
    files: &[(&str, &[u8])],
) -> Result<(Status, MemorySink), Fail> {
    let mut shelf = HonestShelf::new(named_files(alloc, files)?);
    let mut out = MemorySink::new(alloc, 1 << 20, 1 << 12, Vec::new(alloc))?;
    let words = words_of(alloc, words)?;
    let status = run_in_memory(alloc, &words, &mut shelf, &mut out);
    Ok((status, out))
}

#[test]
fn commands(rt: HostRuntime) -> Result<(), Fail> {
    let mut files = Vec::new(rt.alloc());
    for (name, text) in &FILES {
        files.push((*name, text.as_bytes()))?;
    }
    for (words, status, written) in &ROWS {
        let (ended, out) = run_with(rt.alloc(), words, files.as_slice())?;
        assert_eq!(rt; out.written(), written.as_bytes());
        assert_eq!(rt; ended, *status);
    }
    Ok(())
}

// As many items as a union takes, and one more.
#[test]
fn many_items(rt: HostRuntime) -> Result<(), Fail> {
    let mut text = Vec::new(rt.alloc());
    for _ in 0..4096 {
        text.extend_from_slice(b"id\nend\n")?;
    }
    let words = ["union", "keys", "--archive=archive"];
    let archive = ("archive", DIA_ARCHIVE.as_bytes());
    let (status, _) = run_with(rt.alloc(), &words, &[("keys", text.as_slice()), archive])?;
    assert_eq!(rt; status, Status::SomeRefused);
    text.extend_from_slice(b"id\nend\n")?;
    let (status, out) = run_with(rt.alloc(), &words, &[("keys", text.as_slice()), archive])?;
    assert_eq!(rt; status, Status::TooManyBlocks);
    assert_eq!(rt; out.written().len(), 0);
    Ok(())
}

// Puts an entry of the square net last, under a number as its name.
fn push_entry(alloc: Global, text: &mut Vec<u8>, i: u32) -> Result<(), Fail> {
    let name = format!(in alloc; "entry \"{i}\"\n")?;
    text.extend_from_slice(name.as_bytes())?;
    text.extend_from_slice(SQUARE_ROWS.as_bytes())?;
    Ok(())
}

// As many entries as an archive has at most, a net that is added to them, and an entry more.
#[test]
fn full_archive(rt: HostRuntime) -> Result<(), Fail> {
    let mut text = Vec::from_slice(rt.alloc(), b"net_archive 1\n")?;
    for i in 0..4096 {
        push_entry(rt.alloc(), &mut text, i)?;
    }
    let words = ["add", "dia", "--archive=archive"];
    let dia = ("dia", DIA.as_bytes());
    let (status, out) = run_with(rt.alloc(), &words, &[("archive", text.as_slice()), dia])?;
    assert_eq!(rt; out.written(), b"add refused 1 3 Full\n".as_slice());
    assert_eq!(rt; status, Status::AddRefused);
    push_entry(rt.alloc(), &mut text, 4096)?;
    let (status, out) = run_with(rt.alloc(), &words, &[("archive", text.as_slice()), dia])?;
    assert_eq!(rt;
        out.written(),
        b"archive refused 5 TooManyEntries\n".as_slice()
    );
    assert_eq!(rt; status, Status::BadArchive);
    Ok(())
}
