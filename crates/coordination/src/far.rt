// How far walks lead along an axis.
ghost use Rattle.std.specs.Prelude.{◌≡◌, ◌≤◌, ◌≤ℤ◌, pos, unsigned_abs, length, IfOk, IfSome};
ghost use Rattle.periodic_net.specs.Graph.{IsGraph};
ghost use Rattle.coordination.specs.Extents.{AreShiftsWithin, IsCellWithin, IsExtent, IsNarrow};
ghost use Rattle.coordination.specs.Far.{AreAtMost, AreBetween, AreFarAfter, AreFarther, IsFarthest, IsRaised, part_of};
ghost use Rattle.primitive_cell.specs.Places.{IsPlace};

use crate::NoMemory;
use crate::count::MOST_SHELLS;
use crate::extent::{Extent, LONGEST, WIDEST, greatest_shift};
use primitive_cell::{PrimEdge, Primitive};
use std::alloc::Global;
use vecdim::Triple;

/// An axis of the cells.
#[derive(Clone, Copy, PartialEq, Eq)]
pub enum Axis {
    X,
    Y,
    Z,
}

impl Axis {
    // The part of a shift along the axis.
    fn part(self, shift: Triple, longest: Extent) -> i64
        requires within { IsCellWithin longest shift }
        requires narrow { IsNarrow LONGEST longest }
        ensures value { result ≡ part_of self shift }
        ensures bound { unsigned_abs result ≤ LONGEST }
    {
        match self {
            Axis::X => shift.x as i64,
            Axis::Y => shift.y as i64,
            Axis::Z => shift.z as i64,
        }
    }
}

// Makes the number of a vertex at least this.
fn raise(far: &mut [u32], u: u32, least: i64)
    requires place { IsPlace far.old u }
    requires least { least ≤ℤ pos WIDEST }
    ensures { IsRaised far.old u least far.new }
{
    let at = u as usize - 1;
    if least > i64::from(far[at]) {
        far[at] = least as u32;
    }
}

// From each vertex as far as along an edge and on from its end, if that is farther.
fn raise_all<const D: usize>(
    edges: &[PrimEdge<D>],
    longest: Extent,
    axis: Axis,
    far: &[u32],
    next: &mut [u32],
)
    requires places { AreBetween (length far.now) edges.now }
    requires count { length next.old ≡ length far.now }
    requires shifts { AreShiftsWithin edges.now longest }
    requires narrow { IsNarrow LONGEST longest }
    requires far { AreAtMost 9000 far.now }
    ensures { AreFarther axis (length edges.now) edges.now far.now next.old next.new }
{
    for edge in edges {
        let part = axis.part(edge.shift.to_triple(), longest);
        raise(next, edge.u, i64::from(far[edge.v as usize - 1]) + part);
        raise(next, edge.v, i64::from(far[edge.u as usize - 1]) - part);
    }
}

// From each vertex as far as ten steps lead.
fn raise_ten_times<const D: usize>(
    cell: &Primitive<D>,
    longest: Extent,
    axis: Axis,
    far: &mut [u32],
    next: &mut [u32],
)
    requires graph { IsGraph cell.now.graph }
    requires shifts { AreShiftsWithin cell.now.graph.edges longest }
    requires narrow { IsNarrow LONGEST longest }
    requires far { AreFarAfter cell.now.graph axis 0 far.old }
    requires next { next.old ≡ far.old }
    ensures { AreFarAfter cell.now.graph axis 10 far.new }
{
    for _k in 0..MOST_SHELLS {
        raise_all(&cell.edges, longest, axis, far, next);
        far.copy_from_slice(next);
    }
}

// The greatest of some numbers.
fn greatest(far: &[u32]) -> u32
    requires { AreAtMost WIDEST far.now }
    ensures all { AreAtMost result far.now }
    ensures bound { result ≤ WIDEST }
{
    let mut greatest = 0;
    for part in far {
        greatest = greatest.max(*part);
    }
    greatest
}

// The greatest of these.
fn farthest_in<const D: usize>(
    cell: &Primitive<D>,
    longest: Extent,
    axis: Axis,
    far: &mut [u32],
    next: &mut [u32],
) -> u32
    requires graph { IsGraph cell.now.graph }
    requires shifts { AreShiftsWithin cell.now.graph.edges longest }
    requires narrow { IsNarrow LONGEST longest }
    requires far { AreFarAfter cell.now.graph axis 0 far.old }
    requires next { next.old ≡ far.old }
    ensures walks { IsFarthest cell.now.graph axis result }
    ensures bound { result ≤ WIDEST }
{
    raise_ten_times(cell, longest, axis, far, next);
    greatest(far)
}

// How far at most ten steps lead along an axis, from whichever vertex.
fn farthest<const D: usize>(
    alloc: Global,
    cell: &Primitive<D>,
    longest: Extent,
    axis: Axis,
) -> Result<u32, NoMemory>
    requires graph { IsGraph cell.now.graph }
    requires shifts { AreShiftsWithin cell.now.graph.edges longest }
    requires narrow { IsNarrow LONGEST longest }
    ensures walks { IfOk result (IsFarthest cell.now.graph axis) }
    ensures bound { IfOk result (λ m. m ≤ WIDEST) }
{
    let mut far = vec![in alloc; 0u32; cell.vertices as usize]?;
    let mut next = vec![in alloc; 0u32; cell.vertices as usize]?;
    Ok(farthest_in(cell, longest, axis, &mut far, &mut next))
}

/// An extent of the shells of all vertices in cell 0, unless a step is too long.
pub fn extent_of<const D: usize>(
    alloc: Global,
    cell: &Primitive<D>,
) -> Result<Option<Extent>, NoMemory>
    requires { IsGraph cell.now.graph }
    ensures extent { IfOk result (λ found. IfSome found (IsExtent cell.now.graph)) }
    ensures narrow { IfOk result (λ found. IfSome found (IsNarrow WIDEST)) }
{
    let Some(longest) = greatest_shift(&cell.edges) else {
        return Ok(None);
    };
    Ok(Some(Extent {
        x: farthest(alloc, cell, longest, Axis::X)?,
        y: farthest(alloc, cell, longest, Axis::Y)?,
        z: farthest(alloc, cell, longest, Axis::Z)?,
    }))
}
