// Whether few of the closed walks show that a net is connected, as they mostly do.
ghost use Rattle.std.specs.Prelude.{◌≡◌, All, IsSome, IfOk, true};
ghost use Rattle.integers.specs.Vectors.{IsWithin};
ghost use Rattle.periodic_net.specs.Graph.{IsConnected};
ghost use Rattle.periodic_net.specs.Limits.{most_closed};
ghost use Rattle.periodic_net.specs.Split.{ClosedShift};
ghost use Rattle.connected_dim.specs.Search.{AreWalks};
ghost use Rattle.connected_dim.specs.Full.{IsVolume};

use crate::duals::first_dual_of;
use crate::{NoMemory, Rank, edge_walk, lattice, rank_of};
use quotient_graph::Graph;
use std::alloc::Global;
use vecdim::{Shift, Vect};

/// So many closed walks are looked at, and then all.
const MOST_WALKS: usize = 8;

// Whether closed walks that span this volume generate every vector. Then the net is connected.
fn generate_all<const D: usize>(
    g: &Graph<D>,
    found: &[Option<Shift<D>>],
    gs: &[Vect<D>],
    m: i128,
) -> bool
    requires walks { AreWalks g.now 1 found.now }
    requires all { All IsSome found.now }
    requires closed { All (ClosedShift g.now 1) gs.now }
    requires volume { IsVolume D gs.now m }
    ensures { result ≡ true → IsConnected g.now }
{
    g.recall();
    let s = lattice(gs, m);
    match first_dual_of(&s) {
        None => true,
        Some(_) => false,
    }
}

// Whether these closed walks show that the net is connected.
fn are_enough<const D: usize>(g: &Graph<D>, found: &[Option<Shift<D>>], gs: &[Vect<D>]) -> bool
    requires walks { AreWalks g.now 1 found.now }
    requires all { All IsSome found.now }
    requires closed { All (ClosedShift g.now 1) gs.now }
    requires small { All (IsWithin most_closed) gs.now }
    ensures { result ≡ true → IsConnected g.now }
{
    if gs.len() < D {
        return false;
    }
    match rank_of(gs) {
        Rank::Below(_) => false,
        Rank::Full(m) => generate_all(g, found, gs, m),
    }
}

// Whether a closed walk may tell more than these. What it answers is a matter of time alone.
fn may_tell_more<const D: usize>(gs: &[Vect<D>], walk: &Vect<D>) -> bool {
    !walk.is_zero() && !gs.contains(walk)
}

/// Whether few of the closed walks show that the net is connected. That they do not says nothing.
pub fn shows_early<const D: usize>(
    alloc: Global,
    g: &Graph<D>,
    found: &[Option<Shift<D>>],
) -> Result<bool, NoMemory>
    requires walks { AreWalks g.now 1 found.now }
    requires all { All IsSome found.now }
    ensures { IfOk result (λ shown. shown ≡ true → IsConnected g.now) }
{
    g.recall();
    let edges = g.edges();
    let mut walks = Vec::with_capacity(alloc, MOST_WALKS)?;
    for e in edges {
        let walk = edge_walk(e, found);
        if may_tell_more(&walks, &walk) {
            walks.push(walk)?;
            if are_enough(g, found, &walks) {
                return Ok(true);
            }
            if walks.len() == MOST_WALKS {
                return Ok(false);
            }
        }
    }
    Ok(false)
}
