// Files and streams.
ghost use Rattle.std.specs.Prelude.{◌≤◌, ◌<◌, ◌^◌, length};
ghost use Rattle.outside.specs.Last.{MayRead};

use outside::{
    HonestShelf, HostShelf, InFault, MemoryShelf, MemorySink, NoMemory, Shelf, ShelfFault, Sink,
    SinkFault, StdoutSink, WriteFault, read_whole, write_all,
};
use std::alloc::Global;
use std::rt::Files;

pub fn read<H: Shelf>(
    shelf: &mut H,
    name: &str,
    at: u64,
    into: &mut [u8],
) -> Result<usize, ShelfFault>
    requires room { 0 < length into.old }
    requires small { at < 2 ^ 62 }
    requires place { MayRead (H.last shelf.old) name.now at }
{
    shelf.read(name, at, into)
}

pub fn write<W: Sink>(sink: &mut W, piece: &[u8]) -> Result<usize, SinkFault>
    requires { 0 < length piece.now }
{
    sink.write(piece)
}

pub fn whole<H: Shelf>(
    alloc: Global,
    shelf: &mut H,
    name: &str,
    limit: u64,
) -> Result<Vec<u8>, InFault>
    requires { limit < 2 ^ 32 }
{
    read_whole(alloc, shelf, name, limit)
}

pub fn all<W: Sink>(sink: &mut W, bytes: &[u8]) -> Result<(), WriteFault> {
    write_all(sink, bytes)
}

pub fn memory_shelf(files: Vec<(String, Vec<u8>)>, step: usize, fails: Vec<u64>) -> MemoryShelf
    requires { 1 ≤ step }
{
    MemoryShelf::new(files, step, fails)
}

pub fn honest_shelf(files: Vec<(String, Vec<u8>)>) -> HonestShelf {
    HonestShelf::new(files)
}

pub fn host_shelf<R: Files + Input + Drop>(alloc: Global, rt: R) -> HostShelf<R> {
    HostShelf::new(alloc, rt)
}

pub fn memory_sink(
    alloc: Global,
    room: usize,
    step: usize,
    fails: Vec<u64>,
) -> Result<MemorySink, NoMemory>
    requires { 1 ≤ step }
{
    MemorySink::new(alloc, room, step, fails)
}

pub fn stdout_sink<R: Print + Drop>(rt: R) -> StdoutSink<R> {
    StdoutSink::new(rt)
}

pub fn written(sink: &MemorySink) -> &[u8] {
    sink.written()
}

pub fn is_shelf_failure(fault: ShelfFault) -> bool {
    match fault {
        ShelfFault::Failed => true,
        ShelfFault::NoMemory => false,
    }
}

pub fn taken_of(fault: InFault) -> Option<u64> {
    match fault {
        InFault::ReadFault => None,
        InFault::TooLarge { taken } => Some(taken),
        InFault::NoMemory => None,
    }
}

pub fn is_sink_failure(fault: SinkFault) -> bool {
    match fault {
        SinkFault::Failed => true,
    }
}

pub fn written_before(fault: WriteFault) -> u64 {
    fault.taken
}
