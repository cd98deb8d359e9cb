//! If bytes come from and where they go: a shelf of named files and a sink, each with a count of
//! its faults. One of each in memory, with failures at listed calls, and one of each by the host;
//! and a shelf in memory that never fails.
#![tactic(auto)]

mod files;
mod honest_shelf;
mod host_shelf;
mod memory_shelf;
mod memory_sink;
mod shelf;
mod sink;
mod stdout_sink;

pub use honest_shelf::HonestShelf;
pub use host_shelf::HostShelf;
pub use memory_shelf::MemoryShelf;
pub use memory_sink::MemorySink;
pub use shelf::{InFault, Shelf, ShelfFault, read_whole};
pub use sink::{Sink, SinkFault, WriteFault, write_all};
pub use std::alloc::AllocError as NoMemory;
pub use stdout_sink::StdoutSink;
