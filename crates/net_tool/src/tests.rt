// Runs over files in memory: the arguments, the statuses, devices that fail, and files past their
// limits.
mod commands;
mod devices;
mod endings;
mod rows;

use crate::tool::run;
use net_report::Status;
use outside::{MemoryShelf, MemorySink};
use std::alloc::Global;
use std::test::Fail;

const HCB: &str = "PERIODIC_GRAPH\nNAME hcb\nEDGES\n1 2 0 0\n1 2 1 0\n1 2 0 1\nEND\n";

const SQL: &str = "PERIODIC_GRAPH\nNAME sql\nEDGES\n1 1 1 0\n1 1 0 1\nEND\n";

const SQL_KEY_REPORT: &str =
    "net 1 line 1 \"sql\"\ngraph d=2 vertices=1 edges=2 repeats=0\nkey 2 1 1 1 1 0 1 1 1 1 0\n";

const DIA: &str =
    "PERIODIC_GRAPH\nNAME dia\nEDGES\n1 2 0 0 0\n1 2 1 0 0\n1 2 0 1 0\n1 2 0 0 1\nEND\n";

const DIA_KEY_REPORT: &str =
    "net 1 line 1 \"dia\"\ngraph d=3 vertices=2 edges=4 repeats=0\nkey 3 2 1 1 2 -1 -1 -1 1 2 0 0 1 1 2 0 1 0 1 2 1 0 0\n";

const DIA_ARCHIVE: &str =
    "net_archive 1\nentry \"dia\"\ngraph 3 2 4\nedge 1 2 0 0 0\nedge 1 2 0 0 1\nedge 1 2 0 1 0\nedge 1 2 1 0 0\nkey 3 2 1 1 2 -1 -1 -1 1 2 0 0 1 1 2 0 1 0 1 2 1 0 0\nend\n";

const DIA_NEWEST: &str =
    "net_archive 2\nentry \"dia\"\ngraph 3 2 4\nedge 1 2 0 0 0\nedge 1 2 0 0 1\nedge 1 2 0 1 0\nedge 1 2 1 0 0\nkey 3 2 1 1 2 -1 -1 -1 1 2 0 0 1 1 2 0 1 0 1 2 1 0 0\nprimitive 2\nshells 1 4 12 24 42 64 92 124 162 204 252\nshells 2 4 12 24 42 64 92 124 162 204 252\nend\n";

const PCU_ARCHIVE: &str =
    "net_archive 1\nentry \"pcu\"\ngraph 3 1 3\nedge 1 1 0 0 1\nedge 1 1 0 1 0\nedge 1 1 1 0 0\nkey 3 1 1 1 1 0 0 1 1 1 0 1 0 1 1 1 0 0\nend\n";

/// The calls of the devices that fail, and how many bytes a call moves at the most.
#[derive(Clone, Copy, Drop)]
struct Faults<'a> {
    step: usize,
    reads: &'a [u64],
    writes: &'a [u64],
}

fn words_of(alloc: Global, words: &[&str]) -> Result<Vec<String>, Fail> {
    let mut list = Vec::new(alloc);
    for word in words {
        list.push(String::from_str(alloc, word)?)?;
    }
    Ok(list)
}

fn named_files(alloc: Global, files: &[(&str, &[u8])]) -> Result<Vec<(String, Vec<u8>)>, Fail> {
    let mut list = Vec::new(alloc);
    for (name, bytes) in files {
        list.push((
            String::from_str(alloc, name)?,
            Vec::from_slice(alloc, bytes)?,
        ))?;
    }
    Ok(list)
}

// A run over these files.
fn run_over(
    alloc: Global,
    words: &[&str],
    files: &[(&str, &[u8])],
    faults: &Faults<'_>,
) -> Result<(Status, MemorySink), Fail> {
    let step = faults.step.max(1);
    let mut shelf = MemoryShelf::new(
        named_files(alloc, files)?,
        step,
        faults.reads.to_vec(alloc)?,
    );
    let mut out = MemorySink::new(alloc, 1 << 18, step, faults.writes.to_vec(alloc)?)?;
    let words = words_of(alloc, words)?;
    let status = run(alloc, &words, &mut shelf, &mut out);
    Ok((status, out))
}

// A run over three files of the same bytes, `net`, `--` and `-x`.
fn run_on(
    alloc: Global,
    words: &[&str],
    bytes: &[u8],
    faults: &Faults<'_>,
) -> Result<(Status, MemorySink), Fail> {
    let files = [("net", bytes), ("--", bytes), ("-x", bytes)];
    run_over(alloc, words, &files, faults)
}

const NO_FAULTS: Faults<'static> = Faults {
    step: 7,
    reads: &[],
    writes: &[],
};
