// A component of a quotient graph, with the lattice of its closed walks.
ghost use Rattle.std.specs.Prelude.{◌≡◌, ◌↔◌, ◌≤◌, length, IsTrue, IsSome, IfOk, IfErr};
ghost use Rattle.net_components.specs.ComponentSets.{IsLeast};
ghost use Rattle.connected_dim.specs.Search.{walk_to, AreWalks};
ghost use Rattle.connected_dim.specs.Generators.{generators};
ghost use Rattle.connected_dim.specs.Full.{IsVolume};
ghost use Rattle.connected_dim.specs.Paths.{AreChosenWalks};
ghost use Rattle.net_components.specs.Components.{IsComponent};
ghost use Rattle.net_components.specs.Faults.{IsFlatFault};

use crate::{NoMemory, PartFault};
use connected_dim::{Rank, generators, lattice, rank_of, walks};
use quotient_graph::Graph;
use std::alloc::Global;
use std::marker::Model;
use vecdim::{Shift, Staircase, Vect};

/// The component of a vertex, the root: the chosen walks from the root, and the lattice of the
/// closed ones.
#[derive(Drop)]
pub struct Component<const D: usize> {
    pub root: u32,
    pub found: Vec<Option<Shift<D>>>,
    pub lattice: Staircase<D>,
}

impl<const D: usize> Model for Component<D> {
    ghost use Rattle.net_components.specs.Components.{Component as NetComponent};

    ghost Value = { NetComponent };

    ghost view = { λ c. record { root = c.root; found = c.found.items; stairs = c.lattice } };
}

impl<const D: usize> Component<D> {
    /// Whether a vertex is in the component.
    pub fn has(&self, u: u32) -> bool
        requires low { 1 ≤ u }
        requires high { u ≤ length self.now.found }
        ensures { IsTrue result ↔ IsSome (walk_to self.now.found u) }
    {
        self.found[u as usize - 1].is_some()
    }
}

// The component of full rank of a least vertex.
fn full_component<const D: usize>(
    g: &Graph<D>,
    root: u32,
    found: Vec<Option<Shift<D>>>,
    gs: &[Vect<D>],
    m: i128,
) -> Component<D>
    requires root { IsLeast g.now root }
    requires walks { AreWalks g.now root found.items }
    requires chosen { AreChosenWalks g.now root found.items }
    requires generators { gs.now ≡ generators g.now found.items }
    requires volume { IsVolume D gs.now m }
    ensures root { result.root ≡ root }
    ensures component { IsComponent g.now result }
{
    g.recall();
    let lattice = lattice(gs, m);
    lattice.recall();
    Component {
        root,
        found,
        lattice,
    }
}

/// The component of a least vertex, if its closed walks have full rank.
pub fn component_of<const D: usize>(
    alloc: Global,
    g: &Graph<D>,
    root: u32,
) -> Result<Component<D>, PartFault>
    requires { IsLeast g.now root }
    ensures root { IfOk result (λ c. c.root ≡ root) }
    ensures component { IfOk result (IsComponent g.now) }
    ensures flat { IfErr result (IsFlatFault g.now root) }
{
    g.recall();
    let found = walks(alloc, g, root)?;
    let gs = generators(alloc, g, &found)?;
    match rank_of(&gs) {
        Rank::Full(m) => Ok(full_component(g, root, found, &gs, m)),
        Rank::Below(c) => Err(PartFault::LowRank { u: root, c }),
    }
}
