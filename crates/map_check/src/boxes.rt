// The box of cells with parts from 0 to m - 1, and the places of the vertices in it.
ghost use Rattle.std.specs.Prelude.{◌≡◌, ◌⊎◌, ℕ, ◌≤◌, ◌<◌, ◌+◌, ◌-◌, ◌*◌, ◌^◌};
ghost use Rattle.periodic_net.specs.Graph.{vertex};
ghost use Rattle.periodic_net.specs.Limits.{most_vertices};
ghost use Rattle.periodic_net.specs.Maps.{IsInBox};
ghost use Rattle.map_check.specs.Layouts.{last_side, box_size, cell_place, place_of, cell_at, vertex_at};
ghost use Rattle.map_check.specs.Conditions.{most_images, most_period};

use crate::naturals::natural;
use std::marker::Model;
use vecdim::{SmallVector, Triple};

/// A vertex of the first net: the one over a vertex of the graph in a cell.
#[derive(Clone, Copy)]
pub struct NetVertex {
    pub over: u32,
    pub cell: Triple,
}

impl Model for NetVertex {
    ghost use Rattle.periodic_net.specs.Graph.{Vertex, vertex};

    ghost Value = { Vertex };

    ghost view = { λ w. vertex w.over w.cell };

    ghost inverse = { λ w. record { over = w.over; cell = w.cell } };
}

// How many numbers the third part of a cell may be.
fn last_side(dim: u8, m: u32) -> u32
    ensures { result ≡ last_side dim m }
{
    if dim == 2 { 1 } else { m }
}

/// The number of cells in the box.
pub fn box_size(dim: u8, m: u32) -> u32
    requires { m ≤ most_period }
    ensures value { result ≡ box_size dim m }
    ensures small { result ≤ 2 ^ 27 }
{
    m * (m * last_side(dim, m))
}

// The cell at a place.
fn cell_at(dim: u8, m: u32, i: u32) -> Triple
    requires from { 1 ≤ m }
    requires to { m ≤ most_period }
    ensures { result ≡ cell_at dim m i }
{
    let last = last_side(dim, m);
    let rest = i % (m * last);
    Triple {
        x: i128::from(i / (m * last)),
        y: i128::from(rest / last),
        z: i128::from(rest % last),
    }
}

/// The cell at the next place.
pub(crate) fn next_cell<const D: usize>(m: u32, cell: &SmallVector) -> SmallVector
    requires dimension { (D ≡ 2) ⊎ (D ≡ 3) }
    requires from { 1 ≤ m }
    requires to { m ≤ most_period }
    requires inside { IsInBox D m cell.now }
    ensures { (i : ℕ) → cell.now ≡ cell_at D m i → result ≡ cell_at D m (i + 1) }
{
    let last = i64::from(last_side(D as u8, m));
    let side = i64::from(m);
    if cell.z + 1 < last {
        return SmallVector {
            x: cell.x,
            y: cell.y,
            z: cell.z + 1,
        };
    }
    if cell.y + 1 < side {
        return SmallVector {
            x: cell.x,
            y: cell.y + 1,
            z: 0,
        };
    }
    SmallVector {
        x: cell.x + 1,
        y: 0,
        z: 0,
    }
}

/// The vertex in the box at a place, counted from 0: they stand in rising order of vertex and cell.
pub fn vertex_at(dim: u8, m: u32, i: u32) -> NetVertex
    requires from { 1 ≤ m }
    requires to { m ≤ most_period }
    requires few { i ≤ most_images }
    ensures { result ≡ vertex_at dim m i }
{
    let size = box_size(dim, m);
    NetVertex {
        over: i / size + 1,
        cell: cell_at(dim, m, i % size),
    }
}

/// The vertex at a place of the list of images.
pub(crate) fn vertex_of<const D: usize>(m: u32, i: usize) -> NetVertex
    requires dimension { (D ≡ 2) ⊎ (D ≡ 3) }
    requires from { 1 ≤ m }
    requires to { m ≤ most_period }
    requires place { i < most_images }
    ensures { result ≡ vertex_at D m i }
{
    vertex_at(D as u8, m, i as u32)
}

// The number p·(e·i) + q·i + s.
fn mixed(p: usize, q: usize, s: usize, e: usize, i: usize) -> usize
    requires p { p ≤ 2 ^ 9 }
    requires q { q ≤ 2 ^ 9 }
    requires s { s ≤ 2 ^ 9 }
    requires e { e ≤ 2 ^ 9 }
    requires i { i ≤ 2 ^ 9 }
    ensures value { result ≡ p * (e * i) + (q * i + s) }
    ensures small { result ≤ 2 ^ 28 }
{
    p * (e * i) + (q * i + s)
}

/// The place of the first vertex over u.
pub(crate) fn first_place<const D: usize>(m: u32, u: u32) -> usize
    requires dimension { (D ≡ 2) ⊎ (D ≡ 3) }
    requires to { m ≤ most_period }
    requires over_from { 1 ≤ u }
    requires over_to { u ≤ most_vertices }
    ensures value { result ≡ (u - 1) * box_size D m }
    ensures small { result ≤ 2 ^ 36 }
{
    (u as usize - 1) * box_size(D as u8, m) as usize
}

/// The place of a vertex in the box.
pub(crate) fn place_of<const D: usize>(m: u32, u: u32, r: &Triple) -> usize
    requires dimension { (D ≡ 2) ⊎ (D ≡ 3) }
    requires from { 1 ≤ m }
    requires to { m ≤ most_period }
    requires over_from { 1 ≤ u }
    requires over_to { u ≤ most_vertices }
    requires inside { IsInBox D m r.now }
    ensures { result ≡ place_of D m (vertex u r.now) }
{
    let size = box_size(D as u8, m) as usize;
    let last = last_side(D as u8, m) as usize;
    let place = mixed(natural(r.x), natural(r.y), natural(r.z), m as usize, last);
    (u as usize - 1) * size + place
}
