//! Whether a net is connected, or a colouring that shows that it is not.
#![tactic(auto)]

mod closed_walks;
mod connectedness;
mod duals;
mod early;
mod flat;
mod lattices;
mod parts;
mod ranks;
mod reduction;
mod search;
mod sparse;
mod verdicts;

pub use closed_walks::{edge_walk, generators, shift_of};
pub use connectedness::{Connected, Unconnected, connect};
pub use lattices::lattice;
pub use ranks::{Rank, rank_of};
pub use search::walks;
pub use std::alloc::AllocError as NoMemory;
