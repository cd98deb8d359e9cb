// Placed graphs without collisions: the graphs of stable nets.
ghost use Rattle.std.specs.Prelude.{◌≡◌};
ghost use Rattle.periodic_net.specs.Graph.{IsGraph};
ghost use Rattle.periodic_net.specs.Limits.{IsSmall};
ghost use Rattle.periodic_net.specs.Placement.{HasNoCollision, IsStablePlacement, IsWithinLimits};

use crate::{Graph, Placed};
use std::marker::Model;

/// A placed graph in whose net different vertices have different positions. Contracts see the
/// graph and the placement.
#[derive(Debug, Drop)]
pub struct Stable<const D: usize> {
    placed: Placed<D>,
}

impl<const D: usize> Model for Stable<D> {
    ghost use Rattle.periodic_net.specs.Placement.{HasNoCollision};
    ghost use Rattle.quotient_graph.specs.PlacedNets.{PlacedNet};

    ghost Value = { PlacedNet };

    ghost view = { λ s. s.placed };

    ghost invariant = { λ s. HasNoCollision s.placed.graph s.placed.placement };
}

impl<const D: usize> Stable<D> {
    pub fn from_parts(placed: Placed<D>) -> Stable<D>
        requires { HasNoCollision placed.graph placed.placement }
        ensures { result ≡ placed.entry }
    {
        Stable { placed }
    }

    pub fn placed(&self) -> &Placed<D>
        ensures placed { result.now ≡ self.now }
        ensures no_collision { HasNoCollision self.now.graph self.now.placement }
    {
        &self.placed
    }

    /// What holds of each stable graph in memory. A proof knows it only after a call whose contract
    /// says so: this one, which does nothing.
    pub fn recall(&self)
        ensures is_graph { IsGraph self.now.graph }
        ensures small { IsSmall self.now.graph }
        ensures stable { IsStablePlacement self.now.graph self.now.placement }
        ensures limits { IsWithinLimits self.now.graph self.now.placement }
    {
        self.graph();
    }

    pub fn graph(&self) -> &Graph<D>
        ensures graph { result.now ≡ self.now.graph }
        ensures is_graph { IsGraph self.now.graph }
        ensures small { IsSmall self.now.graph }
        ensures stable { IsStablePlacement self.now.graph self.now.placement }
        ensures limits { IsWithinLimits self.now.graph self.now.placement }
    {
        self.placed().graph()
    }
}
