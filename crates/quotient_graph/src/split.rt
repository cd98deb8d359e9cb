// Colourings that show a net to be in several parts.
use lists::Items;
use vecdim::Triple;

/// A colouring of the vertices of a net of dimension `dim`: the vertex over `u` in the cell `t` has
/// the colour `h(u) + c·t`, taken modulo `q` if `q` is not 0. `h` has an entry for each vertex
/// of the quotient graph.
#[derive(Debug, Drop)]
pub struct Split {
    pub dim: u8,
    pub q: u64,
    pub c: Triple,
    pub h: Entries,
}

/// The entries of a colouring, in the order of the vertices of the quotient graph.
pub type Entries = Items<i64>;
