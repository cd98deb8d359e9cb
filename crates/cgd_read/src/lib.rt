//! Reads the blocks of a text of nets: quotient graphs, and the first fault of each block that is
//! none.
#![tactic(auto)]

mod block;
mod cursor;
mod edge;
mod line;
mod partial;
mod read;
mod sentences;
mod state;
mod values;

pub use block::{Block, BlockFault, BlockFaultKind, Body, Names, RawEdges, RawGraph, ReadRefusal};
pub use edge::{RawEdge, normal_edge};
pub use read::blocks;
pub use std::alloc::AllocError as NoMemory;
