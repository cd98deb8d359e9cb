// Graphs of dimension 2 or 3, made from a list of edges.
ghost use Rattle.std.specs.Prelude.{◌≡◌, All, map, IfOk};
ghost use Rattle.integers.specs.Vectors.{vector, HasDimension};
ghost use Rattle.periodic_net.specs.Graph.{IsGraph};
ghost use Rattle.periodic_net.specs.Limits.{IsSmall};
ghost use Rattle.cgd_read.specs.Spelling.{edge_of};
ghost use Rattle.quotient_graph.specs.Order.{AreRising};
ghost use Rattle.quotient_graph.specs.Stars.{IsInOrder, graph_with};
ghost use Rattle.quotient_graph.specs.EdgeLists.{AreEdgesOfGraph};
ghost use Rattle.quotient_graph.specs.AnyGraphs.{graph_view};

use crate::{Arc, Graph, NoMemory, RawEdge};
use std::alloc::Global;
use vecdim::Shift;

/// A graph of dimension 2 or 3.
#[derive(Debug, Drop)]
pub enum AnyGraph {
    Flat(Graph<2>),
    Space(Graph<3>),
}

impl AnyGraph {
    /// An equal graph. A graph in memory is within the limits, and its edges rise.
    pub fn copy(&self) -> Result<AnyGraph, NoMemory>
        ensures graph { IfOk result (λ g. graph_view g ≡ graph_view self.now) }
        ensures small { IsSmall (graph_view self.now) }
        ensures rising { AreRising (graph_view self.now).edges }
    {
        match self {
            AnyGraph::Flat(graph) => graph.copy().map(AnyGraph::Flat),
            AnyGraph::Space(graph) => graph.copy().map(AnyGraph::Space),
        }
    }
}

fn arc_of<const D: usize>(edge: &RawEdge) -> Arc<D>
    requires { HasDimension D (vector edge.now.x edge.now.y edge.now.z) }
    ensures { result ≡ edge_of edge.now }
{
    Arc {
        from: edge.u,
        to: edge.v,
        shift: Shift {
            x: edge.x,
            y: edge.y,
            z: edge.z,
        },
    }
}

fn edges_of<const D: usize>(alloc: Global, edges: &[RawEdge]) -> Result<Vec<Arc<D>>, NoMemory>
    requires { All (λ e. HasDimension D (vector e.x e.y e.z)) edges.now }
    ensures { IfOk result (λ arcs. arcs.items ≡ map edge_of edges.now) }
{
    let mut arcs = Vec::with_capacity(alloc, edges.len())?;
    for edge in edges {
        arcs.push(arc_of(edge))?;
    }
    Ok(arcs)
}

fn graph_from<const D: usize>(
    alloc: Global,
    n: u32,
    edges: &[RawEdge],
) -> Result<Graph<D>, NoMemory>
    requires is_graph { IsGraph (graph_with D n (map edge_of edges.now)) }
    requires small { IsSmall (graph_with D n (map edge_of edges.now)) }
    ensures { IfOk result (IsInOrder (graph_with D n (map edge_of edges.now))) }
{
    let edges = edges_of(alloc, edges)?;
    Graph::from_unsorted(alloc, n, edges)
}

/// The graph with n vertices and these edges, which stand in any order.
pub fn from_unsorted(
    alloc: Global,
    dim: u8,
    n: u32,
    edges: &[RawEdge],
) -> Result<AnyGraph, NoMemory>
    requires is_graph { IsGraph (graph_with dim n (map edge_of edges.now)) }
    requires small { IsSmall (graph_with dim n (map edge_of edges.now)) }
    ensures { IfOk result (λ g. IsInOrder (graph_with dim n (map edge_of edges.now)) (graph_view g)) }
{
    if dim == 2 {
        Ok(AnyGraph::Flat(graph_from(alloc, n, edges)?))
    } else {
        Ok(AnyGraph::Space(graph_from(alloc, n, edges)?))
    }
}

fn graph_from_edges<const D: usize>(
    alloc: Global,
    n: u32,
    edges: &[RawEdge],
) -> Result<Graph<D>, NoMemory>
    requires { AreEdgesOfGraph D n edges.now }
    ensures { IfOk result (λ g. g ≡ graph_with D n (map edge_of edges.now)) }
{
    let edges = edges_of(alloc, edges)?;
    Graph::with_edges(alloc, n, edges)
}

/// The graph with exactly n vertices and these edges, which stand in the order of a graph already.
pub fn from_edges(alloc: Global, dim: u8, n: u32, edges: &[RawEdge]) -> Result<AnyGraph, NoMemory>
    requires { AreEdgesOfGraph dim n edges.now }
    ensures { IfOk result (λ g. graph_view g ≡ graph_with dim n (map edge_of edges.now)) }
{
    if dim == 2 {
        Ok(AnyGraph::Flat(graph_from_edges(alloc, n, edges)?))
    } else {
        Ok(AnyGraph::Space(graph_from_edges(alloc, n, edges)?))
    }
}
