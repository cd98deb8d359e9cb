// The arguments, devices that fail, and files past their limits.
use super::{
    DIA, DIA_ARCHIVE, DIA_KEY_REPORT, Faults, HCB, NO_FAULTS, SQL, SQL_KEY_REPORT, run_on, run_over,
};
use net_report::Status;
use std::test::Fail;

// Arguments, and how a run with them ends, if the files `net`, `--` and `-x` are there.
const ROWS: [(&[&str], Status); 48] = [
    (&["check", "net"], Status::Done),
    (&["place", "net"], Status::Done),
    (&["key", "net"], Status::Done),
    (&["identify", "net"], Status::Done),
    (&["--", "check", "net"], Status::Done),
    (&["check", "--", "net"], Status::Done),
    (&["check", "net", "--"], Status::Done),
    (&["check", "--", "--"], Status::Done),
    (&["check"], Status::ReadFault),
    (&["check", "-"], Status::ReadFault),
    (&["key", "--", "-x"], Status::Done),
    (&["key", "--", "-y"], Status::ReadFault),
    (&["identify", "net", "--archive", "none"], Status::ReadFault),
    (&["identify", "none", "--archive=net"], Status::ReadFault),
    (&["duplicates", "--archive", "-"], Status::ReadFault),
    (&["identify", "net", "--archive", "net"], Status::BadArchive),
    (&[], Status::Usage),
    (&["key", "a", "b"], Status::Usage),
    (&["--archive=x"], Status::Usage),
    (&["key", "--archive", "x"], Status::Usage),
    (&["duplicates"], Status::Usage),
    (&["identify", "-", "--archive", "-"], Status::Usage),
    (&["identify", "--archive="], Status::Usage),
    (&["identify", "--name", "x"], Status::Usage),
    (
        &["identify", "--archive", "net", "--archive", "net"],
        Status::Usage,
    ),
    (&["add", "--archive", "-"], Status::Usage),
    (&["migrate"], Status::Usage),
    (&["migrate", "net", "--archive", "x"], Status::Usage),
    (
        &["duplicates", "--archive", "x", "--name", "x"],
        Status::Usage,
    ),
    (&["workload"], Status::Usage),
    (&["workload", "0"], Status::Usage),
    (&["workload", "4097"], Status::Usage),
    (&["workload", "01"], Status::Usage),
    (&["workload", "+1"], Status::Usage),
    (&["check", ""], Status::Usage),
    (&["check", "-x"], Status::Usage),
    (&["check", "--name=x"], Status::Usage),
    (&["check", "--name"], Status::Usage),
    (&["-h"], Status::Usage),
    (&["--version"], Status::Usage),
    (&["check", "--help"], Status::Usage),
    (&["cover", "net", "--cell", "513,0,0,1"], Status::Usage),
    (&["cover", "net", "--cell=-0,1,1,0"], Status::Usage),
    (&["cover", "net", "--cell", "01,0,0,1"], Status::Usage),
    (&["cover", "net", "--cell", "+1,0,0,1"], Status::Usage),
    (&["cover", "net", "--cell", "1,0,0,1,0"], Status::Usage),
    (
        &["cover", "net", "--cell", "1,0,0,0,1,0,0,0"],
        Status::Usage,
    ),
    (&["cover", "net"], Status::Usage),
];

#[test]
fn words(rt: HostRuntime) -> Result<(), Fail> {
    for (words, due) in &ROWS {
        let (status, out) = run_on(rt.alloc(), words, HCB.as_bytes(), &NO_FAULTS)?;
        assert_eq!(rt; status, *due);
        if *due == Status::Usage {
            assert_eq!(rt; out.written(), crate::tool::USAGE.as_bytes());
        }
    }
    Ok(())
}

// Each read that fails in turn leaves nothing written.
#[test]
fn failing_reads(rt: HostRuntime) -> Result<(), Fail> {
    for call in 1..40u64 {
        let faults = Faults {
            step: 10,
            reads: &[call],
            writes: &[],
        };
        let (status, out) = run_on(rt.alloc(), &["key", "net"], DIA.as_bytes(), &faults)?;
        if status == Status::Done {
            assert_eq!(rt; out.written(), DIA_KEY_REPORT.as_bytes());
            assert!(rt; call > 8);
            return Ok(());
        }
        assert_eq!(rt; status, Status::ReadFault);
        assert_eq!(rt; out.written().len(), 0);
    }
    assert!(rt; false, "each run has failed");
    Ok(())
}

// Each write that fails in turn leaves the beginning of the report.
#[test]
fn failing_writes(rt: HostRuntime) -> Result<(), Fail> {
    let report = DIA_KEY_REPORT.as_bytes();
    let calls = report.len().div_ceil(7);
    for call in 0..calls {
        let faults = Faults {
            step: 7,
            reads: &[],
            writes: &[call as u64 + 1],
        };
        let (status, out) = run_on(rt.alloc(), &["key", "net"], DIA.as_bytes(), &faults)?;
        assert_eq!(rt; status, Status::WriteFault);
        assert_eq!(rt; out.written().len(), 7 * call);
        assert!(rt; report.starts_with(out.written()));
    }
    let (status, out) = run_on(rt.alloc(), &["key", "net"], DIA.as_bytes(), &NO_FAULTS)?;
    assert_eq!(rt; status, Status::Done);
    assert_eq!(rt; out.written(), report);
    Ok(())
}

// The second write of seven bytes fails: the first seven are written.
#[test]
fn failing_second_write(rt: HostRuntime) -> Result<(), Fail> {
    let faults = Faults {
        step: 7,
        reads: &[],
        writes: &[2],
    };
    let (status, out) = run_on(rt.alloc(), &["key", "net"], SQL.as_bytes(), &faults)?;
    assert_eq!(rt; status, Status::WriteFault);
    assert_eq!(rt; out.written(), "net 1 l".as_bytes());
    Ok(())
}

// A file is read, and its archive is not.
#[test]
fn failing_archive(rt: HostRuntime) -> Result<(), Fail> {
    let files = [("net", DIA.as_bytes()), ("archive", DIA_ARCHIVE.as_bytes())];
    let faults = Faults {
        step: 100,
        reads: &[4],
        writes: &[],
    };
    let words = ["identify", "net", "--archive", "archive"];
    let (status, out) = run_over(rt.alloc(), &words, &files, &faults)?;
    assert_eq!(rt; status, Status::ReadFault);
    assert_eq!(rt; out.written().len(), 0);
    Ok(())
}

// The first read gives a whole net, and the second, of the comments after it, fails.
#[test]
fn failing_second_read(rt: HostRuntime) -> Result<(), Fail> {
    let mut text = Vec::from_slice(rt.alloc(), SQL.as_bytes())?;
    for _ in 0..10 {
        text.extend_from_slice(b"# a comment\n")?;
    }
    let faults = Faults {
        step: 100,
        reads: &[2],
        writes: &[],
    };
    let (status, out) = run_on(rt.alloc(), &["key", "net"], &text, &faults)?;
    assert_eq!(rt; status, Status::ReadFault);
    assert_eq!(rt; out.written().len(), 0);
    let (status, out) = run_on(rt.alloc(), &["key", "net"], &text, &NO_FAULTS)?;
    assert_eq!(rt; status, Status::Done);
    assert_eq!(rt; out.written(), SQL_KEY_REPORT.as_bytes());
    Ok(())
}

#[test]
fn too_large(rt: HostRuntime) -> Result<(), Fail> {
    let faults = Faults {
        step: 1 << 20,
        reads: &[],
        writes: &[],
    };
    let text = vec![in rt.alloc(); b'X'; 16_777_217]?;
    let (status, out) = run_on(rt.alloc(), &["check", "net"], &text, &faults)?;
    assert_eq!(rt; status, Status::TooLarge);
    assert_eq!(rt; out.written().len(), 0);
    Ok(())
}

// As many blocks as are checked, and one more.
#[test]
fn many_blocks(rt: HostRuntime) -> Result<(), Fail> {
    let faults = Faults {
        step: 1 << 20,
        reads: &[],
        writes: &[],
    };
    let mut text = Vec::new(rt.alloc());
    for _ in 0..4096 {
        text.extend_from_slice(b"X\nEND\n")?;
    }
    let (status, _) = run_on(rt.alloc(), &["check", "net"], &text, &faults)?;
    assert_eq!(rt; status, Status::SomeRefused);
    text.extend_from_slice(b"X\nEND\n")?;
    let (status, out) = run_on(rt.alloc(), &["check", "net"], &text, &faults)?;
    assert_eq!(rt; status, Status::TooManyBlocks);
    assert_eq!(rt; out.written().len(), 0);
    Ok(())
}
