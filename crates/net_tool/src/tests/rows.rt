// What is answered to arguments, of the bytes of files: rows that were worked out by hand.
mod archives;
mod components;
mod covers;
mod identified;
mod keys;
mod maps;
mod nets;
mod readings;
mod symmetries;
mod unions;

use crate::tests::words_of;
use answers::{MOST_BYTES, answer_to};
use archives::IN_USE;
use command_words::task_of;
use components::DIVIDED;
use covers::COVERED;
use identified::IDENTIFIED;
use keys::KEYED;
use maps::{MAPPED, VERIFIED};
use net_report::{Answer, Status};
use nets::{CONNECTED, PLACED};
use std::alloc::Global;
use std::process::Abort;
use std::test::Fail;
use symmetries::SYMMETRIC;
use unions::UNITED;

const HCB_REPORT: &str =
    "net 1 line 1 \"hcb\"\ngraph d=2 vertices=2 edges=3 repeats=0\nconnected\n";

const PCU: &str = "PERIODIC_GRAPH\nNAME pcu\nEDGES\n1 1 1 0 0\n1 1 0 1 0\n1 1 0 0 1\nEND\n";

const SODALITE: &str =
    "# T sites of sodalite, body-centred cell\nPeriodic_Graph\nID \"sod, 12 sites\"\nEDGE 1 2 0 0 0\n 1 3 0 -1 0\n 1 4 0 0 0\n 1 5 0 0 0\n 6 2 1 0 0\n 6 3 1 -1 0\n 6 4 0 0 0\n 6 5 0 0 0\n 7 8 0 0 0   # the other half of the cell\n 7 9 0 0 0\n 7 10 0 0 0\n 7 11 0 0 -1\n 12 8 0 0 0\n 12 9 0 0 0\n 12 10 1 0 0\n 12 11 1 0 -1\n 2 10 0 0 0\n 2 11 0 0 0\n 3 10 0 0 0\n 3 11 0 0 0\n 8 4 0 0 0\n 8 5 0 0 -1\n 9 4 0 1 0\n 9 5 0 1 -1\nEnd\n";

// What is due to the arguments, of the bytes of the file and of the archive that they name.
fn answer_over(alloc: Global, words: &[&str], file: &[u8], archive: &[u8]) -> Result<Answer, Fail> {
    if file.len() > MOST_BYTES || archive.len() > MOST_BYTES {
        return Err("too many bytes".into());
    }
    let words = words_of(alloc, words)?;
    let Ok(Some(task)) = task_of(alloc, &words) else {
        return Err("no task".into());
    };
    let archive = match task.archive() {
        Some(_) => Some(Vec::from_slice(alloc, archive)?),
        None => None,
    };
    answer_to(alloc, &task, file, archive).map_err(|_| "no answer".into())
}

// What is due to a command, of the bytes of its file.
fn answer_on(alloc: Global, command: &str, file: &[u8]) -> Result<Answer, Fail> {
    answer_over(alloc, &[command, "net"], file, b"")
}

// What the arguments ask for, over a file and an archive.
#[derive(Clone, Copy, Drop)]
struct Row {
    words: &'static [&'static str],
    net: &'static str,
    archive: &'static str,
    status: Status,
    written: &'static str,
}

fn check_rows(alloc: Global, rt: &impl Abort, rows: &[Row]) -> Result<(), Fail> {
    for row in rows {
        let answer = answer_over(alloc, row.words, row.net.as_bytes(), row.archive.as_bytes())?;
        assert_eq!(rt;
            answer.text.as_slice(),
            row.written.as_bytes(),
            "of {}",
            row.net
        );
        assert_eq!(rt; answer.status, row.status, "of {}", row.net);
    }
    Ok(())
}

#[test]
fn rows(rt: HostRuntime) -> Result<(), Fail> {
    check_rows(rt.alloc(), &rt, CONNECTED)?;
    check_rows(rt.alloc(), &rt, PLACED)?;
    check_rows(rt.alloc(), &rt, KEYED)?;
    check_rows(rt.alloc(), &rt, IDENTIFIED)?;
    check_rows(rt.alloc(), &rt, DIVIDED)?;
    check_rows(rt.alloc(), &rt, IN_USE)?;
    check_rows(rt.alloc(), &rt, SYMMETRIC)?;
    check_rows(rt.alloc(), &rt, COVERED)?;
    check_rows(rt.alloc(), &rt, UNITED)?;
    check_rows(rt.alloc(), &rt, MAPPED)?;
    check_rows(rt.alloc(), &rt, VERIFIED)
}
