// An entry of an archive: a named net with its key and coordination sequences.
use coordination::Sequences;
use quotient_graph::{AnyGraph, Key};

/// A name, a graph, the key of the graph, and the coordination sequence of each of its classes.
#[derive(Debug, Drop)]
pub struct Entry {
    pub name: Vec<u8>,
    pub graph: AnyGraph,
    pub key: Key,
    pub shells: Sequences,
}
