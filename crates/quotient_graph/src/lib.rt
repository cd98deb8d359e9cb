//! Labelled quotient graphs of periodic nets, and the types that the layers above share.
#![tactic(auto)]

mod any_graph;
mod arc;
mod build;
mod class_arc;
mod class_graph;
mod classes;
mod frame;
mod graph;
mod key;
mod placed;
mod raw;
mod split;
mod stable;

pub use any_graph::{AnyGraph, from_edges, from_unsorted};
pub use arc::{Arc, is_normal_spelling};
pub use cgd_read::RawEdge;
pub use class_arc::ClassArc;
pub use class_graph::ClassGraph;
pub use classes::Classes;
pub use frame::Frame;
pub use graph::Graph;
pub use key::Key;
pub use placed::Placed;
pub use raw::from_raw;
pub use split::{Entries, Split};
pub use stable::Stable;
pub use std::alloc::AllocError as NoMemory;
