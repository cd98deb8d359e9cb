// The edges of a cover: each edge of the graph, lifted at each remainder.
ghost use Rattle.std.specs.Prelude.{◌≡◌, ◌≢◌, [], ◌∷◌, ◌++◌, ◌+◌, ◌*◌, ◌<◌, ◌≤◌, length, unsigned_abs, IfOk, IfErr, OnOk};
ghost use Rattle.integers.specs.Vectors.{zero_vector, HasDimension, IsWithin};
ghost use Rattle.periodic_net.specs.Limits.{most_vertices, most_shift};
ghost use Rattle.sublattice.specs.Sublattices.{index_of};
ghost use Rattle.net_cover.specs.Covers.{number_in_cover, IsLift, Spells, AreGiven};
ghost use Rattle.net_cover.specs.Cells.{IsLatticeOfCell};
ghost use Rattle.net_cover.specs.Lifting.{IsWideNumber, TellsPart, TellsLift, TellsEdge, TellsFirst, CanLift, CanLiftAll};

use crate::{Cell, CoverFault, NoMemory};
use periodic_net::MOST_SHIFT;
use quotient_graph::Arc;
use std::alloc::Global;
use sublattice::{remainder_at, remainder_number};
use vecdim::{Shift, Staircase, Triple};

// A part of a new shift, if it is within the limit.
fn small_part(x: i128) -> Result<i32, CoverFault>
    ensures part { IfOk result (λ p. p ≡ x) }
    ensures small { IfOk result (λ p. unsigned_abs p ≤ most_shift) }
    ensures wide { IfErr result (IsWideNumber x) }
{
    if x.unsigned_abs() > MOST_SHIFT as u128 {
        return Err(CoverFault::CoverShift { value: x });
    }
    Ok(x as i32)
}

// A new shift, if it is within the limit.
fn small_shift<const D: usize>(k: &Triple) -> Result<Shift<D>, CoverFault>
    requires { HasDimension D k.now }
    ensures shift { IfOk result (λ s. s ≡ k.now) }
    ensures small { IfOk result (λ s. IsWithin most_shift s) }
    ensures wide { IfErr result (TellsPart k.now) }
{
    Ok(Shift {
        x: small_part(k.x)?,
        y: small_part(k.y)?,
        z: small_part(k.z)?,
    })
}

// The edge in its normal spelling.
fn normal<const D: usize>(edge: &Arc<D>) -> Arc<D>
    requires small { IsWithin most_shift edge.now.shift }
    requires no_point { edge.now.from ≡ edge.now.to → edge.now.shift ≢ zero_vector }
    ensures spelled { Spells edge.now result }
    ensures small { IsWithin most_shift result.shift }
{
    if edge.is_normal() {
        *edge
    } else {
        edge.reversed()
    }
}

// The number of a vertex at a remainder.
fn number(index: u32, u: u32, remainder: u32) -> u32
    requires index { index ≤ most_vertices }
    requires first { 1 ≤ u }
    requires last { u ≤ most_vertices }
    requires remainder { remainder < index }
    ensures { result ≡ number_in_cover index u remainder }
{
    (u - 1) * index + remainder + 1
}

// The lift of an edge at a remainder, in its own direction.
fn lift<const D: usize>(
    cell: &Cell,
    lattice: &Staircase<D>,
    index: u32,
    edge: &Arc<D>,
    start: u32,
) -> Result<Arc<D>, CoverFault>
    requires dimension { cell.now.dimension ≡ D }
    requires lattice { IsLatticeOfCell D cell.now.rows lattice.now }
    requires index { index ≡ index_of D cell.now.rows }
    requires start { start < index }
    requires edge { CanLift D edge.now }
    ensures lift { IfOk result (λ e. IsLift D cell.now.rows lattice.now edge.now start e) }
    ensures small { IfOk result (λ e. IsWithin most_shift e.shift) }
    ensures wide { IfErr result (TellsLift D cell.now.rows lattice.now edge.now start) }
{
    let target = remainder_at(lattice, u64::from(start)).plus(&edge.shift.to_vector());
    let end = remainder_number(lattice, &target);
    let steps = target.minus(&remainder_at(lattice, end));
    let k = cell.coefficients(&steps.to_triple());
    match small_shift(&k) {
        Ok(shift) => Ok(Arc {
            from: number(index, edge.from, start),
            to: number(index, edge.to, end as u32),
            shift,
        }),
        Err(fault) => Err(fault),
    }
}

// Puts an edge last.
fn put_last<const D: usize>(given: &mut Vec<Arc<D>>, edge: Arc<D>) -> Result<(), NoMemory>
    ensures { OnOk result (given.new.items ≡ given.old.items ++ edge.entry ∷ []) }
{
    given.push(edge)?;
    Ok(())
}

// Puts the edges that the edge at place `m` gives last.
fn push_lifts<const D: usize>(
    given: &mut Vec<Arc<D>>,
    cell: &Cell,
    lattice: &Staircase<D>,
    index: u32,
    edges: &[Arc<D>],
    m: usize,
) -> Result<(), CoverFault>
    requires dimension { cell.now.dimension ≡ D }
    requires lattice { IsLatticeOfCell D cell.now.rows lattice.now }
    requires index { index ≡ index_of D cell.now.rows }
    requires edges { CanLiftAll D edges.now }
    requires m { m < length edges.now }
    requires given { AreGiven D cell.now.rows lattice.now edges.now (m * index)
        given.old.items }
    ensures given { OnOk result (AreGiven D cell.now.rows lattice.now edges.now
        ((m + 1) * index) given.new.items) }
    ensures wide { IfErr result
        (TellsEdge D cell.now.rows lattice.now edges.now m) }
{
    for start in 0..index {
        match lift(cell, lattice, index, &edges[m], start) {
            Ok(edge) => put_last(given, normal(&edge))?,
            Err(fault) => return Err(fault),
        }
    }
    Ok(())
}

/// The edges that the edges of a graph give, by edge and then by remainder.
pub fn given_edges<const D: usize>(
    alloc: Global,
    cell: &Cell,
    lattice: &Staircase<D>,
    index: u32,
    edges: &[Arc<D>],
) -> Result<Vec<Arc<D>>, CoverFault>
    requires dimension { cell.now.dimension ≡ D }
    requires lattice { IsLatticeOfCell D cell.now.rows lattice.now }
    requires index { index ≡ index_of D cell.now.rows }
    requires edges { CanLiftAll D edges.now }
    ensures given { IfOk result (λ given. AreGiven D cell.now.rows lattice.now edges.now
        (length edges.now * index) given.items) }
    ensures wide { IfErr result
        (TellsFirst D cell.now.rows lattice.now edges.now) }
{
    let mut given = Vec::new(alloc);
    for m in 0..edges.len() {
        match push_lifts(&mut given, cell, lattice, index, edges, m) {
            Ok(()) => {}
            Err(fault) => return Err(fault),
        }
    }
    Ok(given)
}
