// The device adapters once each, and the fakes with failures at each of their calls.
use outside::{
    HostShelf, InFault, MemoryShelf, MemorySink, StdoutSink, WriteFault, read_whole, write_all,
};
use std::alloc::Global;
use std::test::Fail;
use std::{env, fs, process};

#[test]
fn host_shelf_reads_a_file(rt: HostRuntime) -> Result<(), Fail> {
    let alloc = rt.alloc();
    let mut path = env::temp_dir(&rt)?;
    path.push(format!(in alloc; "outside_{}.txt", process::id(rt.process()))?.as_str())?;
    fs::write(&rt, path.as_str(), "abcde")?;
    let mut shelf = HostShelf::new(alloc, rt);
    for (limit, want) in [
        (5, Ok("abcde")),
        (9, Ok("abcde")),
        (2, Err(InFault::TooLarge { taken: 3 })),
    ] {
        let got = read_whole(alloc, &mut shelf, path.as_str(), limit);
        match (got, want) {
            (Ok(bytes), Ok(text)) => assert_eq!(rt; bytes.as_slice(), text.as_bytes()),
            (Err(fault), Err(wanted)) => assert_eq!(rt; fault, wanted),
            _ => assert!(rt; false, "at {limit}"),
        }
    }
    fs::remove_file(&rt, path.as_str())?;
    let missing = read_whole(alloc, &mut shelf, path.as_str(), 5);
    assert!(rt; matches!(missing, Err(InFault::ReadFault)));
    Ok(())
}

#[test]
fn stdout_sink_writes_a_line(rt: HostRuntime) {
    let mut out = StdoutSink::new(rt);
    assert_eq!(rt; write_all(&mut out, b"a line\n"), Ok(()));
}

// A file of five bytes under its name, and another later under the same name.
fn shelf_with(alloc: Global, step: usize, fail: u64) -> Result<MemoryShelf, Fail> {
    let first = (
        String::from_str(alloc, "net")?,
        Vec::from_slice(alloc, b"abcde")?,
    );
    let second = (
        String::from_str(alloc, "net")?,
        Vec::from_slice(alloc, b"other")?,
    );
    let files = vec![in alloc; first, second]?;
    Ok(MemoryShelf::new(files, step.max(1), vec![in alloc; fail]?))
}

#[test]
fn fakes_fail_at_listed_calls(rt: HostRuntime) -> Result<(), Fail> {
    let alloc = rt.alloc();

    // The most bytes of a call, how many reads there are of the whole file, and how many writes of
    // it.
    for (step, reads, writes) in [(1, 6, 5), (2, 4, 3), (5, 2, 1), (9, 2, 1)] {
        for fail in 1u64..8 {
            let mut shelf = shelf_with(alloc, step, fail)?;
            match read_whole(alloc, &mut shelf, "net", 5) {
                Ok(bytes) => assert!(rt; reads < fail && bytes.as_slice() == b"abcde".as_slice()),
                Err(fault) => assert!(rt; fail <= reads && fault == InFault::ReadFault),
            }
            let mut sink = MemorySink::new(alloc, 5, step, vec![in alloc; fail]?)?;
            match write_all(&mut sink, b"abcde") {
                Ok(()) => assert!(rt; writes < fail && sink.written() == b"abcde".as_slice()),
                Err(fault) => assert!(rt;
                    fail <= writes && fault.taken == (fail - 1) * step as u64
                ),
            }
        }
    }
    Ok(())
}

#[test]
fn fakes_fail_for_absent_names_and_small_rooms(rt: HostRuntime) -> Result<(), Fail> {
    let alloc = rt.alloc();
    let mut shelf = shelf_with(alloc, 2, 0)?;
    let absent = read_whole(alloc, &mut shelf, "absent", 5);
    assert!(rt; matches!(absent, Err(InFault::ReadFault)));
    for (step, room, taken) in [(1, 4, 4), (2, 4, 4), (2, 3, 2), (5, 4, 0)] {
        let mut sink = MemorySink::new(alloc, room, step, Vec::new(alloc))?;
        assert_eq!(rt; write_all(&mut sink, b"abcde"), Err(WriteFault { taken }));
    }
    Ok(())
}
