// The labelled quotient graph of a net, with the arcs from each vertex.
ghost use Rattle.std.specs.Prelude.{◌≡◌, ◌⊎◌, All, Contains, length, IfOk};
ghost use Rattle.periodic_net.specs.Graph.{Arc as NetArc, IsArc, IsGraph, IsQuotientVertex};
ghost use Rattle.periodic_net.specs.Limits.{IsSmall};
ghost use Rattle.quotient_graph.specs.Order.{AreRising};
ghost use Rattle.quotient_graph.specs.Stars.{IsArcFrom, IsInOrder, IsStar, graph_with};

use crate::build::{Star, edges_in, stars_of};
use crate::{Arc, NoMemory};
use std::alloc::Global;
use std::marker::Model;

/// A labelled quotient graph: its vertices are numbered from 1, and its different edges stand in
/// normal spelling, rising by tail, head and shift. Contracts see the graph that it stands for.
#[derive(Debug, Drop)]
pub struct Graph<const D: usize> {
    vertices: u32,
    edges: Vec<Arc<D>>,
    stars: Vec<Star<D>>,
}

impl<const D: usize> Model for Graph<D> {
    ghost use Rattle.std.specs.Prelude.{map};
    ghost use Rattle.periodic_net.specs.Graph.{Graph as NetGraph};
    ghost use Rattle.quotient_graph.specs.Stars.{IsGraphInMemory, graph_with};

    ghost Value = { NetGraph };

    ghost view = { λ g. graph_with D g.vertices g.edges.items };

    ghost invariant = { λ g. IsGraphInMemory (graph_with D g.vertices g.edges.items)
        (map (λ s. s.items) g.stars.items) };
}

impl<const D: usize> Graph<D> {
    /// The graph with n vertices and these edges, which stand in rising order.
    #[tactic(auto, using(crate::proofs::Edges::is_in_memory, crate::proofs::Edges::edges_fit))]
    pub fn with_edges(alloc: Global, n: u32, edges: Vec<Arc<D>>) -> Result<Graph<D>, NoMemory>
        requires is_graph { IsGraph (graph_with D n edges.items) }
        requires small { IsSmall (graph_with D n edges.items) }
        requires rising { AreRising edges.items }
        ensures { IfOk result (λ g. g ≡ graph_with D n edges.entry.items) }
    {
        let stars = stars_of(alloc, n as usize, &edges)?;
        Ok(Graph {
            vertices: n,
            edges,
            stars,
        })
    }

    /// The graph with n vertices and these edges, which stand in any order.
    pub fn from_unsorted(alloc: Global, n: u32, edges: Vec<Arc<D>>) -> Result<Graph<D>, NoMemory>
        requires is_graph { IsGraph (graph_with D n edges.items) }
        requires small { IsSmall (graph_with D n edges.items) }
        ensures { IfOk result (IsInOrder (graph_with D n edges.entry.items)) }
    {
        let stars = stars_of(alloc, n as usize, &edges)?;
        let edges = edges_in(&stars, edges)?;
        Ok(Graph {
            vertices: n,
            edges,
            stars,
        })
    }

    pub fn dimension(&self) -> u8
        ensures value { result ≡ self.now.dimension }
        ensures parameter { self.now.dimension ≡ D }
        ensures two_or_three { (D ≡ 2) ⊎ (D ≡ 3) }
        ensures is_graph { IsGraph self.now }
        ensures small { IsSmall self.now }
    {
        let _ = &self.vertices;
        D as u8
    }

    /// What holds of each graph in memory. A proof knows it only after a call whose contract says
    /// so: this one, which does nothing.
    pub fn recall(&self)
        ensures parameter { self.now.dimension ≡ D }
        ensures two_or_three { (D ≡ 2) ⊎ (D ≡ 3) }
        ensures is_graph { IsGraph self.now }
        ensures small { IsSmall self.now }
    {
        let _ = &self.vertices;
    }

    pub fn vertices(&self) -> u32
        ensures count { result ≡ self.now.vertices }
        ensures parameter { self.now.dimension ≡ D }
        ensures is_graph { IsGraph self.now }
        ensures small { IsSmall self.now }
    {
        self.vertices
    }

    pub fn edge_count(&self) -> u32
        ensures { result ≡ length self.now.edges }
    {
        self.edges.len() as u32
    }

    /// The different edges, in rising order.
    pub fn edges(&self) -> &[Arc<D>]
        ensures edges { result.now ≡ self.now.edges }
        ensures rising { AreRising result.now }
    {
        &self.edges
    }

    // What is kept of a vertex.
    fn star(&self, u: u32) -> &[Arc<D>]
        requires { IsQuotientVertex self.now u }
        ensures star { IsStar self.now u result.now }
        ensures is_graph { IsGraph self.now }
        ensures small { IsSmall self.now }
    {
        self.stars[u as usize - 1].as_slice()
    }

    /// The arcs from a vertex, sorted by head and shift; a loop gives two.
    pub fn arcs(&self, u: u32) -> &[Arc<D>]
        requires { IsQuotientVertex self.now u }
        ensures star { IsStar self.now u result.now }
        ensures each { All (IsArcFrom self.now u) result.now }
        ensures every { (a : NetArc) → IsArc self.now a → a.from ≡ u → Contains result.now a }
    {
        self.star(u)
    }

    /// An equal graph. A graph in memory is within the limits, and its edges rise.
    pub fn copy(&self) -> Result<Graph<D>, NoMemory>
        ensures graph { IfOk result (λ g. g ≡ self.now) }
        ensures small { IsSmall self.now }
        ensures rising { AreRising self.now.edges }
    {
        let alloc = *self.edges.allocator();
        Graph::with_edges(alloc, self.vertices, Vec::from_slice(alloc, &self.edges)?)
    }
}
