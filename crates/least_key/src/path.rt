// The steps from a graph to its placement, in either dimension.
ghost use Rattle.std.specs.Prelude.{◌≡◌, IfOk, IfErr, OnOk};
ghost use Rattle.periodic_net.specs.Graph.{IsConnected};
ghost use Rattle.quotient_graph.specs.AnyGraphs.{graph_view};
ghost use Rattle.least_key.specs.AnyPlacements.{placed_view};
ghost use Rattle.least_key.specs.Placings.{IsPlacedAs};
ghost use Rattle.least_key.specs.Truths.{IsTrueOf, IsOfConnecting, IsOfPlacing};

use crate::Refusal;
use barycentre::place;
use connected_dim::{Connected, connect};
use quotient_graph::{AnyGraph, Graph, Placed};
use std::alloc::Global;

/// A graph of dimension 2 or 3 with its normal placement.
#[derive(Debug, Drop)]
pub enum AnyPlaced {
    Flat(Placed<2>),
    Space(Placed<3>),
}

/// The graph if its net is connected, and else why it is refused.
pub fn connect_graph<const D: usize>(
    alloc: Global,
    graph: Graph<D>,
) -> Result<Connected<D>, Refusal>
    ensures same { IfOk result (λ net. net ≡ graph.entry) }
    ensures connected { OnOk result (IsConnected graph.entry) }
    // What the refusal reports is true of this graph,
    ensures refused { IfErr result (IsTrueOf graph.entry) }
    // and is a cause that this step can meet.
    ensures early { IfErr result IsOfConnecting }
{
    let net = connect(alloc, graph)?;
    Ok(net)
}

/// The graph with its normal placement, or why it is refused.
pub fn place_graph<const D: usize>(alloc: Global, graph: Graph<D>) -> Result<Placed<D>, Refusal>
    // The normal placement of this graph, within the limits.
    ensures placed { IfOk result (IsPlacedAs graph.entry) }
    // What the refusal reports is true of this graph,
    ensures refused { IfErr result (IsTrueOf graph.entry) }
    // and is a cause that a step up to this one can meet.
    ensures early { IfErr result IsOfPlacing }
{
    let net = connect_graph(alloc, graph)?;
    let placed = place(alloc, net)?;
    Ok(placed)
}

fn check_graph<const D: usize>(alloc: Global, graph: Graph<D>) -> Result<(), Refusal>
    ensures connected { OnOk result (IsConnected graph.entry) }
    ensures refused { IfErr result (IsTrueOf graph.entry) }
    ensures early { IfErr result IsOfConnecting }
{
    connect_graph(alloc, graph)?;
    Ok(())
}

/// Nothing if the net is connected, and else why it is refused.
pub fn check_any(alloc: Global, graph: AnyGraph) -> Result<(), Refusal>
    ensures connected { OnOk result (IsConnected (graph_view graph)) }
    // What the refusal reports is true of this graph,
    ensures refused { IfErr result (IsTrueOf (graph_view graph)) }
    // and is a cause that this step can meet.
    ensures early { IfErr result IsOfConnecting }
{
    match graph {
        AnyGraph::Flat(graph) => check_graph(alloc, graph),
        AnyGraph::Space(graph) => check_graph(alloc, graph),
    }
}

/// The placement of the net, or why it is refused.
pub fn place_any(alloc: Global, graph: AnyGraph) -> Result<AnyPlaced, Refusal>
    // The normal placement of this graph, within the limits.
    ensures placed { IfOk result (λ p. IsPlacedAs (graph_view graph) (placed_view p)) }
    // What the refusal reports is true of this graph,
    ensures refused { IfErr result (IsTrueOf (graph_view graph)) }
    // and is a cause that a step up to this one can meet.
    ensures early { IfErr result IsOfPlacing }
{
    match graph {
        AnyGraph::Flat(graph) => place_graph(alloc, graph).map(AnyPlaced::Flat),
        AnyGraph::Space(graph) => place_graph(alloc, graph).map(AnyPlaced::Space),
    }
}
