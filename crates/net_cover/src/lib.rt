//! A net on a larger cell.
#![tactic(auto)]

mod cell;
mod cells;
mod covering;
mod faults;
mod laws;
mod lifting;
mod numbers;

ghost use Rattle.net_cover.specs.CoverLaws.{CoversAreIsomorphic};
ghost use Rattle.net_cover.specs.WordLaws.{CellsAreRead};

pub use cell::Cell;
pub use cells::cell_of;
pub use covering::cover;
pub use faults::CoverFault;
pub use laws::{cover_is_not_refused, one_cover, one_cover_fault};
pub use std::alloc::AllocError as NoMemory;

/// The net of a cover is the net.
#[tactic(auto, using(crate::proofs::CoverNet::covers_are_isomorphic))]
pub fn covers_are_isomorphic()
    ensures theorem { CoversAreIsomorphic }
{}

/// The cell that is read from a word is the one that the word spells.
pub fn cells_are_read()
    ensures theorem { CellsAreRead }
{}
