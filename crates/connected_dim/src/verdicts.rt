// Whether the net of a graph is connected, from a walk to each vertex.
ghost use Rattle.std.specs.Prelude.{◌≡◌, IfOk, All, IsSome};
ghost use Rattle.connected_dim.specs.Search.{AreWalks};
ghost use Rattle.connected_dim.specs.Full.{IsVolume};
ghost use Rattle.connected_dim.specs.Generators.{generators};
ghost use Rattle.connected_dim.specs.Lattices.{AreClosedWalks};
ghost use Rattle.connected_dim.specs.Verdicts.{IsVerdict};

use crate::duals::first_dual_of;
use crate::early::shows_early;
use crate::flat::flat_split;
use crate::sparse::sparse_split;
use crate::{NoMemory, Rank, generators, lattice, rank_of};
use quotient_graph::{Graph, Split};
use std::alloc::Global;
use vecdim::{Shift, Staircase, Vect};

/// What is found of a net: that it is connected, or a colouring, if the closed walks have full
/// rank or not.
#[derive(Drop)]
pub enum Verdict {
    Whole,
    Parted(Split),
    Flat(Split),
}

// The lattice of closed walks of full rank.
fn closed_lattice<const D: usize>(
    g: &Graph<D>,
    found: &[Option<Shift<D>>],
    gs: &[Vect<D>],
    m: i128,
) -> Staircase<D>
    requires walks { AreWalks g.now 1 found.now }
    requires generators { gs.now ≡ generators g.now found.now }
    requires volume { IsVolume D gs.now m }
    ensures { AreClosedWalks g.now 1 result }
{
    g.recall();
    lattice(gs, m)
}

// By that lattice.
fn full_verdict<const D: usize>(
    alloc: Global,
    g: &Graph<D>,
    found: &[Option<Shift<D>>],
    gs: &[Vect<D>],
    m: i128,
) -> Result<Verdict, NoMemory>
    requires walks { AreWalks g.now 1 found.now }
    requires all { All IsSome found.now }
    requires generators { gs.now ≡ generators g.now found.now }
    requires volume { IsVolume D gs.now m }
    ensures { IfOk result (IsVerdict g.now) }
{
    let dim = g.dimension();
    let s = closed_lattice(g, found, gs, m);
    match first_dual_of(&s) {
        None => Ok(Verdict::Whole),
        Some(d) => Ok(Verdict::Parted(sparse_split(alloc, dim, d, found)?)),
    }
}

/// Whether the net is connected, from a walk to each vertex.
pub fn verdict_by_walks<const D: usize>(
    alloc: Global,
    g: &Graph<D>,
    found: &[Option<Shift<D>>],
) -> Result<Verdict, NoMemory>
    requires walks { AreWalks g.now 1 found.now }
    requires all { All IsSome found.now }
    ensures { IfOk result (IsVerdict g.now) }
{
    if shows_early(alloc, g, found)? {
        return Ok(Verdict::Whole);
    }
    let dim = g.dimension();
    let gs = generators(alloc, g, found)?;
    match rank_of(&gs) {
        Rank::Full(m) => full_verdict(alloc, g, found, &gs, m),
        Rank::Below(c) => Ok(Verdict::Flat(flat_split(alloc, dim, c, found)?)),
    }
}
