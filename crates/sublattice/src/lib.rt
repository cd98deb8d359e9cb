//! The lattice that given rows generate: its determinant, its staircase basis, and the remainders
//! modulo it by their numbers.
#![tactic(auto)]

mod generating;
mod laws;
mod numbering;

pub use generating::{determinant_of, lattice_of};
pub use laws::{pivots_multiply, remainders_are_numbered, remainders_tell_classes};
pub use numbering::{remainder_at, remainder_number};
