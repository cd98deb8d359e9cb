// Arcs that are carried along the cells of the box: their shifts are divided once.
ghost use Rattle.std.specs.Prelude.{◌≡◌, ◌≤◌, ◌^◌, ◌≤ℤ◌, ◌<ℤ◌, ◌+ℤ◌, ◌*ℤ◌, pos, unsigned_abs};
ghost use Rattle.integers.specs.Vectors.{vector, plus, IsWithin};
ghost use Rattle.periodic_net.specs.Limits.{most_shift};
ghost use Rattle.periodic_net.specs.Maps.{IsInBox};
ghost use Rattle.map_check.specs.Conditions.{most_period};
ghost use Rattle.map_check.specs.Images.{IsCarried, IsSplit};

use crate::naturals::split_small;
use quotient_graph::Arc;
use vecdim::{SmallVector, Triple};

/// A cell of the box, and how often m cells further.
#[derive(Clone, Copy)]
pub struct Parts {
    pub rest: SmallVector,
    pub steps: SmallVector,
}

/// An arc, with its shift as a cell of the box, and how often m cells further.
#[derive(Clone, Copy)]
pub struct CarriedArc<const D: usize> {
    pub arc: Arc<D>,
    pub parts: Parts,
}

// A part of a cell of the box, and how often m further.
#[derive(Clone, Copy)]
struct Part {
    rest: i64,
    steps: i64,
}

// A number as one from 0 to below m, and how often m further.
fn part_of(z: i128, m: u32) -> Part
    requires from { 1 ≤ m }
    requires to { m ≤ most_period }
    requires z { unsigned_abs z ≤ most_shift }
    ensures from { pos 0 ≤ℤ result.rest }
    ensures to { result.rest <ℤ pos m }
    ensures same { z ≡ result.rest +ℤ pos m *ℤ result.steps }
    ensures small { unsigned_abs result.steps ≤ 2 ^ 19 }
{
    let division = split_small(z, m);
    Part {
        rest: division.rest as i64,
        steps: division.quotient as i64,
    }
}

// Three parts as those of vectors.
fn together(x: Part, y: Part, z: Part) -> Parts
    ensures rest { result.rest ≡ vector x.rest y.rest z.rest }
    ensures steps { result.steps ≡ vector x.steps y.steps z.steps }
{
    Parts {
        rest: SmallVector {
            x: x.rest,
            y: y.rest,
            z: z.rest,
        },
        steps: SmallVector {
            x: x.steps,
            y: y.steps,
            z: z.steps,
        },
    }
}

// A cell as one of the box, m cells further in each direction as often as is said.
fn parts_of(m: u32, t: &Triple) -> Parts
    requires from { 1 ≤ m }
    requires to { m ≤ most_period }
    requires small { IsWithin most_shift t.now }
    ensures { IsCarried m t.now result.rest result.steps }
{
    let x = part_of(t.x, m);
    let y = part_of(t.y, m);
    let z = part_of(t.z, m);
    together(x, y, z)
}

/// The arc, with the parts of its shift.
pub fn carry<const D: usize>(m: u32, arc: &Arc<D>) -> CarriedArc<D>
    requires from { 1 ≤ m }
    requires to { m ≤ most_period }
    requires small { IsWithin most_shift (arc.now).shift }
    ensures arc { result.arc ≡ arc.now }
    ensures carried { IsCarried m (arc.now).shift result.parts.rest result.parts.steps }
{
    CarriedArc {
        arc: *arc,
        parts: parts_of(m, &arc.shift.to_triple()),
    }
}

// A part of a cell of the box, moved by that of an arc. Both are below m, so that it is m further
// once more at most.
fn moved_part(part: i64, rest: i64, steps: i64, m: u32) -> Part
    requires m { m ≤ most_period }
    requires part_from { pos 0 ≤ℤ part }
    requires part_to { part <ℤ pos m }
    requires rest_from { pos 0 ≤ℤ rest }
    requires rest_to { rest <ℤ pos m }
    requires steps { unsigned_abs steps ≤ 2 ^ 19 }
    ensures from { pos 0 ≤ℤ result.rest }
    ensures to { result.rest <ℤ pos m }
    ensures same { part +ℤ (rest +ℤ pos m *ℤ steps) ≡ result.rest +ℤ pos m *ℤ result.steps }
    ensures small { unsigned_abs result.steps ≤ 2 ^ 20 }
{
    let side = i64::from(m);
    let sum = part + rest;
    if sum < side {
        Part { rest: sum, steps }
    } else {
        Part {
            rest: sum - side,
            steps: steps + 1,
        }
    }
}

/// The cell of the box that an arc leads to from a cell of the box, and how often m cells further.
pub fn parts_of_end<const D: usize>(m: u32, cell: &SmallVector, arc: &CarriedArc<D>) -> Parts
    requires to { m ≤ most_period }
    requires cell { IsInBox D m cell.now }
    requires arc { IsCarried m arc.now.arc.shift arc.now.parts.rest arc.now.parts.steps }
    ensures split { IsSplit m (plus cell.now arc.now.arc.shift) result.rest result.steps }
    ensures small { IsWithin (2 ^ 20) result.steps }
{
    let rest = arc.parts.rest;
    let steps = arc.parts.steps;
    let x = moved_part(cell.x, rest.x, steps.x, m);
    let y = moved_part(cell.y, rest.y, steps.y, m);
    let z = moved_part(cell.z, rest.z, steps.z, m);
    together(x, y, z)
}
