//! Coordination sequences: the sizes of the shells around the vertices of each class.
#![tactic(auto)]

mod all_classes;
mod box_count;
mod box_search;
mod count;
mod earlier;
mod extent;
mod far;
mod laws;
mod marks;
mod net_box;
mod point;
mod reach;
mod search;
mod spot;

pub use all_classes::{Sequences, sequences};
pub use count::{MOST_IN_SHELLS, MOST_SHELLS, shells};
pub use laws::{
    bare_keeps_shells, definitions_have_instances, each_shell_has_a_size, one_sequence,
    other_shells_refute, sequences_are_kept, sequences_are_one, two_shells_suffice,
};
pub use std::alloc::AllocError as NoMemory;
