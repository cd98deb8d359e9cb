// Graphs with the positions of their vertices.
ghost use Rattle.std.specs.Prelude.{◌≡◌, ◌≤◌, ◌^◌, ◌+ℤ◌, ◌-ℤ◌, ◌*ℤ◌, ◌≤ℤ◌, pos, unsigned_abs};
ghost use Rattle.integers.specs.Vectors.{minus, plus, times, IsWithin};
ghost use Rattle.periodic_net.specs.Graph.{IsArc, IsConnected, IsGraph, IsQuotientVertex};
ghost use Rattle.periodic_net.specs.Limits.{most_shift, most_units, IsSmall};
ghost use Rattle.periodic_net.specs.Placement.{arc_vector, base, IsNormalPlacement, IsWithinLimits};
ghost use Rattle.quotient_graph.specs.PlacedNets.{most_position, placed_net, placement_of};

use crate::{Arc, Graph};
use std::marker::Model;
use vecdim::{Shift, Vect};

/// A graph whose net is connected, with its normal barycentric placement, which is within the
/// limits. Contracts see the graph and the placement.
#[derive(Debug, Drop)]
pub struct Placed<const D: usize> {
    graph: Graph<D>,
    d0: i128,
    at: Vec<Vect<D>>,
}

impl<const D: usize> Model for Placed<D> {
    ghost use Rattle.quotient_graph.specs.PlacedNets.{PlacedNet, placed_net, IsPlaced};

    ghost Value = { PlacedNet };

    ghost view = { λ p. placed_net p.graph p.d0 p.at.items };

    ghost invariant = { λ p. IsPlaced p.graph p.d0 p.at.items };
}

// to + d0·steps - from.
fn part_between(from: i128, to: i128, d0: i128, steps: i32) -> i128
    requires from { unsigned_abs from ≤ 2 ^ 61 }
    requires to { unsigned_abs to ≤ 2 ^ 61 }
    requires d0 { unsigned_abs d0 ≤ most_units }
    requires steps { unsigned_abs steps ≤ most_shift }
    ensures { result ≡ (to +ℤ d0 *ℤ steps) -ℤ from }
{
    to + d0 * steps as i128 - from
}

// to + d0·shift - from, part by part.
fn vector_between<const D: usize>(
    from: &Vect<D>,
    to: &Vect<D>,
    d0: i128,
    shift: &Shift<D>,
) -> Vect<D>
    requires d0 { unsigned_abs d0 ≤ most_units }
    requires shift { IsWithin most_shift shift.now }
    requires small { IsWithin (2 ^ 61) (minus (plus to.now (times d0 shift.now)) from.now) }
    ensures { result ≡ minus (plus to.now (times d0 shift.now)) from.now }
{
    Vect {
        x: part_between(from.x, to.x, d0, shift.x),
        y: part_between(from.y, to.y, d0, shift.y),
        z: part_between(from.z, to.z, d0, shift.z),
    }
}

impl<const D: usize> Placed<D> {
    /// The graph with vertex `u` at `at[u - 1]`, in units of 1/`d0`.
    pub fn from_parts(graph: Graph<D>, d0: i128, at: Vec<Vect<D>>) -> Placed<D>
        requires positive { pos 1 ≤ℤ d0 }
        requires connected { IsConnected graph }
        requires normal { IsNormalPlacement graph (placement_of d0 at.items) }
        requires limits { IsWithinLimits graph (placement_of d0 at.items) }
        ensures { result ≡ placed_net graph.entry d0 at.entry.items }
    {
        Placed { graph, d0, at }
    }

    pub fn graph(&self) -> &Graph<D>
        ensures graph { result.now ≡ self.now.graph }
        ensures is_graph { IsGraph self.now.graph }
        ensures small { IsSmall self.now.graph }
        ensures connected { IsConnected self.now.graph }
        ensures normal { IsNormalPlacement self.now.graph self.now.placement }
        ensures limits { IsWithinLimits self.now.graph self.now.placement }
    {
        self.graph.recall();
        &self.graph
    }

    /// What holds of each placed graph in memory. A proof knows it only after a call whose contract
    /// says so: this one, which does nothing.
    pub fn recall(&self)
        ensures is_graph { IsGraph self.now.graph }
        ensures small { IsSmall self.now.graph }
        ensures connected { IsConnected self.now.graph }
        ensures normal { IsNormalPlacement self.now.graph self.now.placement }
        ensures limits { IsWithinLimits self.now.graph self.now.placement }
    {
        self.graph();
    }

    /// The common denominator of the positions.
    pub fn d0(&self) -> i128
        ensures value { result ≡ pos self.now.placement.denominator }
        ensures positive { pos 1 ≤ℤ result }
        ensures small { result ≤ℤ pos most_units }
    {
        self.d0
    }

    fn position(&self, u: u32) -> Vect<D>
        requires { IsQuotientVertex self.now.graph u }
        ensures { result ≡ base self.now.placement u }
    {
        self.at[u as usize - 1]
    }

    /// The position of a vertex, in units of 1/D0.
    pub fn at(&self, u: u32) -> Vect<D>
        requires { IsQuotientVertex self.now.graph u }
        ensures value { result ≡ base self.now.placement u }
        ensures small { IsWithin most_position result }
    {
        self.recall();
        self.position(u)
    }

    /// The vector of an arc, from its tail to its end, in units of 1/D0.
    pub fn vector(&self, arc: &Arc<D>) -> Vect<D>
        requires { IsArc self.now.graph arc.now }
        ensures value { result ≡ arc_vector self.now.placement arc.now }
        ensures small { IsWithin most_units result }
    {
        self.recall();
        let from = self.at(arc.from);
        let to = self.at(arc.to);
        vector_between(&from, &to, self.d0(), &arc.shift)
    }
}
