// Edges of a larger cell.
ghost use Rattle.std.specs.Prelude.{◌≡◌, ◌<◌, ◌≤◌, IsTrue, pos, ◌+ℤ◌, ◌*ℤ◌, unsigned_abs};
ghost use Rattle.workload.specs.BaseNets.{is_base_edge, is_unit};
ghost use Rattle.workload.specs.Workload.{cells_passed, edge_at, place_after, vertex_at};

use crate::edge::Edge;

// The place to which a part of a shift leads from place r of m.
fn place_after(m: u32, r: u32, part: i32) -> u32
    requires cells { m ≤ 4 }
    requires place { r < m }
    requires part { IsTrue (is_unit part) }
    ensures value { result ≡ place_after m r part }
    ensures within { result < m }
{
    (r as i32 + part).rem_euclid(m as i32) as u32
}

// How often it leaves the m places on the way.
fn cells_passed(m: u32, r: u32, part: i32) -> i32
    requires cells { m ≤ 4 }
    requires place { r < m }
    requires part { IsTrue (is_unit part) }
    ensures value { result ≡ cells_passed m r part }
    ensures few { unsigned_abs result ≤ 4 }
{
    (r as i32 + part).div_euclid(m as i32)
}

// Vertex u at place r of m.
fn vertex_at(m: u32, u: u32, r: u32) -> u32
    requires cells { m ≤ 4 }
    requires place { r < m }
    requires first { 1 ≤ u }
    requires few { u ≤ 4 }
    ensures { result ≡ vertex_at m u r }
{
    (u - 1) * m + r + 1
}

// A part of a shift, further by k times another.
fn sheared(x: i32, k: u32, y: i32) -> i32
    requires few { unsigned_abs x ≤ 4 }
    requires shear { k < 5 }
    requires part { IsTrue (is_unit y) }
    ensures { result ≡ x +ℤ pos k *ℤ y }
{
    x + k as i32 * y
}

/// The edge of a base edge from place `r`, in a cell of `m` base cells, with shear `k`.
pub fn edge_at(m: u32, k: u32, e: &Edge, r: u32) -> Edge
    requires cells { m ≤ 4 }
    requires place { r < m }
    requires shear { k < 5 }
    requires base { IsTrue (is_base_edge e.now) }
    ensures { result ≡ edge_at m k e.now r }
{
    Edge {
        u: vertex_at(m, e.u, r),
        v: vertex_at(m, e.v, place_after(m, r, e.x)),
        x: sheared(cells_passed(m, r, e.x), k, e.y),
        y: e.y,
        z: e.z,
    }
}
