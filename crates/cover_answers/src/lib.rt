//! What is due to the command `cover`, of a cell and of the blocks of a file.
#![tactic(auto)]

mod answers;
mod blocks;
mod bodies;
mod laws;
mod lines;

ghost use Rattle.cover_answers.specs.TextLaws.{BlocksAreReadBack, CoversMayBePrinted};
ghost use Rattle.cover_answers.specs.RoundLaws.{CoversAreReadBack};

pub use answers::cover_blocks;
pub use blocks::push_graph;
pub use laws::one_covering;
pub use lines::{push_covered, push_refused};
pub use std::alloc::AllocError as NoMemory;

/// The blocks of printed graphs, one after another, are read as these graphs, up to isomorphism.
#[tactic(auto, using(crate::proofs::ReadBack::blocks_are_read_back))]
pub fn blocks_are_read_back()
    ensures theorem { BlocksAreReadBack }
{}

/// A cover within the limits of the net of a block may be printed under the name of the block.
pub fn covers_may_be_printed()
    ensures theorem { CoversMayBePrinted }
{}

/// If all blocks of a text are covered, the text of the covers is read as the nets that were
/// given, each on the cell.
#[tactic(auto, using(crate::proofs::Rounds::covers_are_read_back))]
pub fn covers_are_read_back()
    ensures theorem { CoversAreReadBack }
{}
