// Points: the vertices of a net as they are seen from one of them.

/// A class, and a place relative to the start, in the units of the class graph.
#[derive(Clone, Copy, PartialEq, Eq, Hash)]
pub struct Point {
    pub class: u32,
    pub x: i64,
    pub y: i64,
    pub z: i64,
}
