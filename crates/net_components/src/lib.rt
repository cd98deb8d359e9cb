//! The components of a net that is not connected: for each its graph, and how many copies of it
//! there are.
#![tactic(auto)]

mod component;
mod covering;
mod fault;
mod parts;
mod shifts;
mod vertices;
mod written;

ghost use Rattle.net_components.specs.PartLaws.{CopiesAreClasses, PartsAreNets, CopiesAreCounted, RanksAreOne};
ghost use Rattle.net_components.specs.Laws.{AnswerIsOne};

pub use fault::PartFault;
pub use parts::{Part, components};
pub use std::alloc::AllocError as NoMemory;

/// The copies of the components are exactly the classes of vertices that walks join.
#[tactic(auto, using(crate::proofs::PartNet::copies_are_classes))]
pub fn copies_are_classes()
    ensures theorem { CopiesAreClasses }
{}

/// The net of a part is connected, and each of the copies of its component as a net of its own.
#[tactic(auto, using(crate::proofs::PartNet::parts_are_nets))]
pub fn parts_are_nets()
    ensures theorem { PartsAreNets }
{}

/// A component of full rank has as many copies as the product of the pivots.
#[tactic(auto, using(crate::proofs::PartNet::copies_are_counted))]
pub fn copies_are_counted()
    ensures theorem { CopiesAreCounted }
{}

/// The closed walks of a component have one staircase or one normal, and never both.
#[tactic(auto, using(crate::proofs::PartNet::ranks_are_one))]
pub fn ranks_are_one()
    ensures theorem { RanksAreOne }
{}

/// A graph has one list of parts, or one fault, and never both; running out of memory aside.
#[tactic(auto, using(crate::proofs::OneAnswer::answer_is_one))]
pub fn answer_is_one()
    ensures theorem { AnswerIsOne }
{}
