//! What is due to the command `symmetry`.
#![tactic(auto)]

mod answers;
mod blocks;
mod group_lines;
mod laws;
mod lines;
mod nets;

pub use answers::symmetry_of;
pub use laws::{one_symmetry, orbits_carry, sizes_times_orders, symmetries_carry};
pub use std::alloc::AllocError as NoMemory;
