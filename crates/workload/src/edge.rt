// Edges of the nets that a workload is made of.

/// An edge from vertex `u` to vertex `v`, which are counted from 1, with its shift.
#[derive(Clone, Copy)]
pub struct Edge {
    pub u: u32,
    pub v: u32,
    pub x: i32,
    pub y: i32,
    pub z: i32,
}
