// The shifts of the closed walks that the edges make with the walks that were found.
ghost use Rattle.std.specs.Prelude.{◌≡◌, ℕ, ◌≤◌, All, IfOk, length};
ghost use Rattle.integers.specs.Vectors.{plus, minus, IsWithin};
ghost use Rattle.periodic_net.specs.Graph.{IsGraph};
ghost use Rattle.periodic_net.specs.Limits.{IsSmall, most_walk, most_closed, most_shift};
ghost use Rattle.connected_dim.specs.Search.{shift_of, AreWalks};
ghost use Rattle.connected_dim.specs.Generators.{generator_of, generators};

use crate::NoMemory;
use quotient_graph::{Arc, Graph};
use std::alloc::Global;
use vecdim::{Shift, Vect};

/// The shift of a walk, and 0 if none was found.
pub fn shift_of<const D: usize>(walk: &Option<Shift<D>>) -> Shift<D>
    ensures { result ≡ shift_of walk.now }
{
    match walk {
        Some(shift) => *shift,
        None => Shift { x: 0, y: 0, z: 0 },
    }
}

// The shift of the closed walk to the tail, along an edge, and back from the head.
fn closed_walk<const D: usize>(tail: &Shift<D>, step: &Shift<D>, head: &Shift<D>) -> Vect<D>
    requires tail { IsWithin most_walk tail.now }
    requires step { IsWithin most_shift step.now }
    requires head { IsWithin most_walk head.now }
    ensures value { result ≡ minus (plus tail.now step.now) head.now }
    ensures within { IsWithin most_closed result }
{
    let there = tail.to_vector().plus(&step.to_vector());
    there.minus(&head.to_vector())
}

/// The closed walk of an edge: to its tail, along it, and back from its head.
pub fn edge_walk<const D: usize>(e: &Arc<D>, found: &[Option<Shift<D>>]) -> Vect<D>
    requires found { All (λ walk. IsWithin most_walk (shift_of walk)) found.now }
    requires from { (1 ≤ e.now.from) × (e.now.from ≤ length found.now) }
    requires to { (1 ≤ e.now.to) × (e.now.to ≤ length found.now) }
    requires shift { IsWithin most_shift e.now.shift }
    ensures value { result ≡ generator_of found.now e.now }
    ensures within { IsWithin most_closed result }
{
    let tail = shift_of(&found[e.from as usize - 1]);
    let head = shift_of(&found[e.to as usize - 1]);
    closed_walk(&tail, &e.shift, &head)
}

/// The closed walks of the edges from the vertices that were found; they generate all closed walks.
pub fn generators<const D: usize>(
    alloc: Global,
    g: &Graph<D>,
    found: &[Option<Shift<D>>],
) -> Result<Vec<Vect<D>>, NoMemory>
    requires is_graph { IsGraph g.now }
    requires small { IsSmall g.now }
    requires walks { (a : ℕ) × AreWalks g.now a found.now }
    ensures generators { IfOk result (λ gs. gs.items ≡ generators g.now found.now) }
    ensures within { IfOk result (λ gs. All (IsWithin most_closed) gs.items) }
{
    let edges = g.edges();
    let mut walks = Vec::with_capacity(alloc, edges.len())?;
    for e in edges {
        if found[e.from as usize - 1].is_some() {
            walks.push(edge_walk(e, found))?;
        }
    }
    Ok(walks)
}
