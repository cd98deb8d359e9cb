//! The text of an archive, in two versions: the rows of its entries, read and written.
#![tactic(auto)]

mod all;
mod entry;
mod groups_of;
mod in_groups;
mod index;
mod laws;
mod limits;
mod matches_of;
mod prints;
mod regroup;
mod rest;
mod shell_lists;
mod shells;
mod steps;
mod version;
mod write;

pub use all::Entries;
pub use entry::Entry;
pub use in_groups::lent_in_groups;
pub use index::PlaceIndex;
pub use laws::{entries_are_regrouped, one_regrouping};
pub use limits::MOST_BYTES;
pub use matches_of::Matches;
pub use rest::{Form, KeyedGraph, read_rest};
pub use std::alloc::AllocError as NoMemory;
pub use steps::next_name;
pub use version::Version;
pub use write::{push_entry, push_first};
