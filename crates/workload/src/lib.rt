//! A text of nets for measurements: eight base nets, in larger and larger cells and other bases.
#![tactic(auto)]

mod base;
mod cells;
mod edge;
mod lines;
mod text;

pub use std::alloc::AllocError as NoMemory;
pub use text::{MOST_NETS, workload_text};
