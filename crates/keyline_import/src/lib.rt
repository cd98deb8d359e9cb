//! Reads nets from key lines: items of a name and a key, and the first fault of each item that is
//! none.
#![tactic(auto)]

mod cursor;
mod item;
mod keyed;
mod laws;
mod line;
mod read;
mod state;
mod values;

pub use item::{Item, ItemBody, ItemFault, ItemFaultKind, ItemRefusal};
pub use laws::{key_lines_are_taken, nets_are_named};
pub use read::items;
pub use std::alloc::AllocError as NoMemory;
