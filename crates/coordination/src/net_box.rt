// Boxes of a net: the vertices around a start, each with a number.
ghost use Rattle.std.specs.Prelude.{◌≡◌, ◌+◌, ◌*◌, ◌^◌, ◌<◌, ◌≤◌, [], pos, ◌+ℤ◌, ◌-ℤ◌, ◌*ℤ◌, unsigned_abs, length, map, replicate, slice_get, Some, OnOk, IfOk, IfSome};
ghost use Rattle.periodic_net.specs.Graph.{IsGraph};
ghost use Rattle.periodic_net.specs.Limits.{most_vertices};
ghost use Rattle.coordination.specs.Boxes.{AreStepsFromVertices, IsBoxOf, cells_of, growth_of, origin_of, side, size_of, with_edge, with_step};
ghost use Rattle.coordination.specs.Extents.{AreShiftsWithin, IsCellWithin, IsNarrow};

use crate::NoMemory;
use crate::extent::{Extent, WIDEST};
use crate::far::extent_of;
use crate::spot::Step;
use primitive_cell::{PrimEdge, Primitive};
use std::alloc::Global;
use std::marker::Model;
use vecdim::Triple;

/// So many vertices a box has at most.
pub const MOST_MARKS: u64 = 4_194_304;

/// The steps from the vertices of a box, by the vertex that they lie over. Contracts see a list of
/// lists.
#[derive(Drop)]
pub struct Stars {
    items: Vec<Vec<Step>>,
}

impl Model for Stars {
    ghost use Rattle.std.specs.Prelude.{List, map};
    ghost use Rattle.coordination.specs.declared.spot.Step.{Step as NetStep};

    ghost Value = { List (List NetStep) };

    ghost view = { λ s. map (λ star. star.items) s.items.items };
}

impl Stars {
    /// The list at a place, counted from 0.
    pub fn at(&self, i: usize) -> &[Step]
        requires { i < length self.now }
        ensures { slice_get self.now i ≡ Some result.now }
    {
        &self.items[i]
    }
}

/// A box of the net of a primitive graph: the vertices whose cells are within the extent. The
/// vertices of a cell are numbered one after the other, and so are the cells along each axis;
/// `origin` is the number of the first vertex in cell 0.
#[derive(Drop)]
pub struct NetBox {
    pub extent: Extent,
    pub origin: u32,
    pub size: usize,
    pub stars: Stars,
}

// part + width * inner.
fn weighed(part: i64, width: u32, inner: i64) -> i64
    requires part { unsigned_abs part ≤ 2 ^ 52 }
    requires width { width ≤ 2 * WIDEST + 1 }
    requires inner { unsigned_abs inner ≤ 2 ^ 46 }
    ensures value { result ≡ part +ℤ pos width *ℤ inner }
    ensures bound { unsigned_abs result ≤ unsigned_abs part + width * unsigned_abs inner }
{
    part + i64::from(width) * inner
}

// The number of cells from -n to n.
fn side_of(n: u32) -> u32
    requires { n ≤ WIDEST }
    ensures { result ≡ side n }
{
    2 * n + 1
}

// A part of a shift within an extent.
fn small_part(part: i128) -> i64
    requires { unsigned_abs part ≤ WIDEST }
    ensures value { result ≡ part }
    ensures bound { unsigned_abs result ≤ WIDEST }
{
    part as i64
}

// to - from.
fn difference(to: u32, from: u32) -> i64
    requires to { to ≤ most_vertices }
    requires from { from ≤ most_vertices }
    ensures value { result ≡ pos to -ℤ pos from }
    ensures bound { unsigned_abs result ≤ most_vertices }
{
    i64::from(to) - i64::from(from)
}

// By how much the number grows along a shift, in cells.
fn cells_along(extent: Extent, shift: Triple) -> i64
    requires narrow { IsNarrow WIDEST extent }
    requires within { IsCellWithin extent shift }
    ensures value { result ≡ cells_of extent shift }
    ensures bound { unsigned_abs result ≤ 2 ^ 42 }
{
    let z = small_part(shift.z);
    let rows = weighed(small_part(shift.y), side_of(extent.y), z);
    weighed(small_part(shift.x), side_of(extent.x), rows)
}

// By how much the number grows along an edge.
fn growth<const D: usize>(count: u32, extent: Extent, edge: &PrimEdge<D>) -> i64
    requires count { count ≤ most_vertices }
    requires narrow { IsNarrow WIDEST extent }
    requires from { (edge.now).from ≤ most_vertices }
    requires to { (edge.now).to ≤ most_vertices }
    requires shift { IsCellWithin extent (edge.now).shift }
    ensures value { result ≡ growth_of count extent edge.now }
    ensures bound { unsigned_abs result ≤ 2 ^ 52 }
{
    let cells = cells_along(extent, edge.shift.to_triple());
    weighed(difference(edge.v, edge.u), count, cells)
}

// Puts a step last in the list of the vertex that it starts from.
fn push_step(stars: &mut [Vec<Step>], from: u32, step: Step) -> Result<(), NoMemory>
    requires low { 1 ≤ from }
    requires high { from ≤ length stars.old }
    ensures { OnOk result (map (λ star. star.items) stars.new
        ≡ with_step (map (λ star. star.items) stars.old) from step) }
{
    stars[from as usize - 1].push(step)?;
    Ok(())
}

// Puts the steps along an edge, both ways, last in the lists of its ends.
fn push_edge<const D: usize>(
    stars: &mut [Vec<Step>],
    count: u32,
    extent: Extent,
    edge: &PrimEdge<D>,
) -> Result<(), NoMemory>
    requires count { count ≤ most_vertices }
    requires narrow { IsNarrow WIDEST extent }
    requires lists { length stars.old ≡ count }
    requires from { (1 ≤ (edge.now).from) × ((edge.now).from ≤ count) }
    requires to { (1 ≤ (edge.now).to) × ((edge.now).to ≤ count) }
    requires shift { IsCellWithin extent (edge.now).shift }
    ensures { OnOk result (map (λ star. star.items) stars.new
        ≡ with_edge (map (λ star. star.items) stars.old) count extent edge.now) }
{
    let by = growth(count, extent, edge);
    push_step(stars, edge.u, Step { to: edge.v, by })?;
    push_step(
        stars,
        edge.v,
        Step {
            to: edge.u,
            by: -by,
        },
    )
}

// A list for each of n vertices, without steps.
fn empty_stars(alloc: Global, n: u32) -> Result<Vec<Vec<Step>>, NoMemory>
    ensures { IfOk result (λ stars. map (λ star. star.items) stars.items ≡ replicate n []) }
{
    let mut stars = Vec::with_capacity(alloc, n as usize)?;
    for _ in 0..n {
        stars.push(Vec::new(alloc))?;
    }
    Ok(stars)
}

// Puts the steps along each edge, both ways, into lists without steps.
fn push_edges<const D: usize>(
    stars: &mut [Vec<Step>],
    cell: &Primitive<D>,
    extent: Extent,
) -> Result<(), NoMemory>
    requires graph { IsGraph cell.now.graph }
    requires few { cell.now.graph.vertices ≤ most_vertices }
    requires narrow { IsNarrow WIDEST extent }
    requires shifts { AreShiftsWithin cell.now.graph.edges extent }
    requires empty { map (λ star. star.items) stars.old ≡ replicate cell.now.graph.vertices [] }
    ensures { OnOk result (AreStepsFromVertices cell.now.graph extent
        (map (λ star. star.items) stars.new)) }
{
    for edge in &cell.edges {
        push_edge(stars, cell.vertices, extent, edge)?;
    }
    Ok(())
}

// The steps from each vertex of the primitive graph.
fn stars_of<const D: usize>(
    alloc: Global,
    cell: &Primitive<D>,
    extent: Extent,
) -> Result<Stars, NoMemory>
    requires graph { IsGraph cell.now.graph }
    requires few { cell.now.graph.vertices ≤ most_vertices }
    requires narrow { IsNarrow WIDEST extent }
    requires shifts { AreShiftsWithin cell.now.graph.edges extent }
    ensures { IfOk result (AreStepsFromVertices cell.now.graph extent) }
{
    let mut items = empty_stars(alloc, cell.vertices)?;
    push_edges(&mut items, cell, extent)?;
    Ok(Stars { items })
}

// The number of vertices in the box, if it is not too large.
fn size(count: u32, extent: Extent) -> Option<u64>
    requires count { count ≤ most_vertices }
    requires narrow { IsNarrow WIDEST extent }
    ensures size { IfSome result (λ s. s ≡ size_of count extent) }
    ensures small { IfSome result (λ s. s ≤ MOST_MARKS) }
{
    let layer = u64::from(side_of(extent.y)) * u64::from(side_of(extent.z));
    let size = u64::from(count) * (u64::from(side_of(extent.x)) * layer);
    (size <= MOST_MARKS).then_some(size)
}

// The number of the first vertex of cell 0.
fn origin(count: u32, extent: Extent) -> u64
    requires count { count ≤ most_vertices }
    requires narrow { IsNarrow WIDEST extent }
    ensures { result ≡ origin_of count extent }
{
    let rows = u64::from(extent.y) + u64::from(side_of(extent.y)) * u64::from(extent.z);
    u64::from(count) * (u64::from(extent.x) + u64::from(side_of(extent.x)) * rows)
}

/// The box of the shells of the vertices in cell 0, if it is not too large.
pub fn box_of<const D: usize>(
    alloc: Global,
    cell: &Primitive<D>,
) -> Result<Option<NetBox>, NoMemory>
    requires graph { IsGraph cell.now.graph }
    requires few { cell.now.graph.vertices ≤ most_vertices }
    ensures { IfOk result (λ found. IfSome found (IsBoxOf cell.now.graph)) }
{
    let Some(extent) = extent_of(alloc, cell)? else {
        return Ok(None);
    };
    let Some(size) = size(cell.vertices, extent) else {
        return Ok(None);
    };
    Ok(Some(NetBox {
        extent,
        origin: origin(cell.vertices, extent) as u32,
        size: size as usize,
        stars: stars_of(alloc, cell, extent)?,
    }))
}
