// The primitive graph of a net, placed.
ghost use Rattle.std.specs.Prelude.{◌≡◌, IfOk, IfErr};
ghost use Rattle.quotient_graph.specs.NetClasses.{AreClassesBy};
ghost use Rattle.periodic_net.specs.Limits.{IsSmall};
ghost use Rattle.least_key.specs.KeyedNets.{IsKeyed};
ghost use Rattle.least_key.specs.Placings.{IsPlacedAs};
ghost use Rattle.primitive_net.specs.Faults.{AreNarrow, IsFaultOf, IsNearlySmall};
ghost use Rattle.primitive_net.specs.PrimitiveNets.{IsPrimitiveNet};

use crate::edges::arcs_of;
use crate::{NoMemory, PrimitiveFault};
use least_key::{NetOf, place_graph};
use net_translations::classes;
use primitive_cell::Primitive;
use quotient_graph::{Classes, Graph, Placed, Stable};
use std::alloc::Global;

/// A primitive graph with its placement and its classes.
#[derive(Debug, Drop)]
pub struct PrimitiveNet<const D: usize> {
    pub stable: Stable<D>,
    pub classes: Classes<D>,
}

// The graph that these edges make, if their shifts are within the limit.
fn graph_in<const D: usize>(
    alloc: Global,
    primitive: &Primitive<D>,
) -> Result<Graph<D>, PrimitiveFault>
    requires { IsNearlySmall (primitive.now).graph }
    ensures graph { IfOk result (λ g. g ≡ (primitive.now).graph) }
    ensures narrow { IfOk result (λ g. AreNarrow (primitive.now).graph.edges) }
    ensures fault { IfErr result (IsFaultOf (primitive.now).graph) }
{
    let edges = arcs_of(alloc, &primitive.edges)?;
    let graph = Graph::with_edges(alloc, primitive.vertices, edges)?;
    Ok(graph)
}

// The primitive graph of a net, if its shifts are within the limit.
fn graph_of<const D: usize>(alloc: Global, net: &NetOf<D>) -> Result<Graph<D>, PrimitiveFault>
    requires { IsKeyed net.now }
    ensures graph { IfOk result (λ g. g ≡ (net.now).cell.graph) }
    ensures narrow { IfOk result (λ g. AreNarrow (net.now).cell.graph.edges) }
    ensures fault { IfErr result (IsFaultOf (net.now).cell.graph) }
{
    net.stable.recall();
    graph_in(alloc, &net.primitive)
}

// The graph of this placement, with its classes.
fn with_classes<const D: usize>(
    alloc: Global,
    stable: Stable<D>,
) -> Result<PrimitiveNet<D>, NoMemory>
    ensures stable { IfOk result (λ p. p.stable ≡ stable.entry) }
    ensures graph { IfOk result (λ p. p.classes.graph ≡ stable.entry.graph) }
    ensures classes { IfOk result (λ p. AreClassesBy stable.entry.placement p.classes) }
    ensures small { IsSmall stable.entry.graph }
{
    stable.recall();
    match classes(alloc, &stable) {
        Ok(classes) => Ok(PrimitiveNet { stable, classes }),
        Err(fault) => {
            drop(stable);
            Err(fault)
        }
    }
}

// The primitive graph of a net, which is placed so. Its net is stable, as that of the net is.
fn settled<const D: usize>(
    alloc: Global,
    net: &NetOf<D>,
    placed: Placed<D>,
) -> Result<PrimitiveNet<D>, NoMemory>
    requires keyed { IsKeyed net.now }
    requires placed { IsPlacedAs (net.now).cell.graph placed }
    ensures { IfOk result (λ p. IsPrimitiveNet net.now p.stable p.classes) }
{
    let stable = Stable::from_parts(placed);
    let made = with_classes(alloc, stable)?;
    Ok(made)
}

/// The primitive graph of a net with its placement and its classes, or the first fault.
pub fn divided_net<const D: usize>(
    alloc: Global,
    net: &NetOf<D>,
) -> Result<PrimitiveNet<D>, PrimitiveFault>
    requires { IsKeyed net.now }
    ensures made { IfOk result (λ p. IsPrimitiveNet net.now p.stable p.classes) }
    ensures fault { IfErr result (IsFaultOf (net.now).cell.graph) }
{
    let graph = graph_of(alloc, net)?;
    match place_graph(alloc, graph) {
        Ok(placed) => Ok(settled(alloc, net, placed)?),
        Err(refusal) => Err(PrimitiveFault::Refused(refusal)),
    }
}
