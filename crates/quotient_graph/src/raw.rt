// From what was read to a graph in memory.
ghost use Rattle.std.specs.Prelude.{IfOk};
ghost use Rattle.quotient_graph.specs.AnyGraphs.{graph_view};
ghost use Rattle.quotient_graph.specs.Stars.{IsInOrder};
ghost use Rattle.cgd_read.specs.Graphs.{graph_of, IsReadGraph};
ghost use Rattle.cgd_read.specs.Views.{raw_view};

use crate::{AnyGraph, NoMemory, from_unsorted};
use cgd_read::RawGraph;
use std::alloc::Global;

/// The graph with the vertices and edges that were read.
pub fn from_raw(alloc: Global, raw: &RawGraph<'_>) -> Result<AnyGraph, NoMemory>
    requires { IsReadGraph (raw_view raw.now) }
    // The same graph, with its edges in order.
    ensures { IfOk result (λ g. IsInOrder (graph_of (raw_view raw.now)) (graph_view g)) }
{
    from_unsorted(alloc, raw.dim, raw.names.len() as u32, raw.edges.as_slice())
}
