//! The rows of a graph in a text, its size and its edges: read one by one, and written.
#![tactic(auto)]

mod edge;
mod edge_list;
mod form;
mod graph;
mod size;
mod steps;
mod write;

pub use edge_list::read_edges;
pub use form::between;
pub use graph::read_graph;
pub use size::GraphSize;
pub use steps::next_size;
pub use write::{push_graph, push_parts};
