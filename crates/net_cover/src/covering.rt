// Makes the cover of a graph on a larger cell, or says why there is none.
ghost use Rattle.std.specs.Prelude.{◌≡◌, ◌*◌, ◌≤◌, IfOk, IfErr, OnOk};
ghost use Rattle.periodic_net.specs.Limits.{most_vertices};
ghost use Rattle.periodic_net.specs.Maps.{Iso};
ghost use Rattle.quotient_graph.specs.AnyGraphs.{graph_view};
ghost use Rattle.net_cover.specs.Covers.{IsCover, HasCoverSize};
ghost use Rattle.net_cover.specs.Cells.{index_in};
ghost use Rattle.net_cover.specs.Faults.{IsCoverFault, IsCoverable, FitsEdges};

use crate::cell::lattice_in;
use crate::lifting::given_edges;
use crate::{Cell, CoverFault};
use periodic_net::{MOST_EDGES, MOST_VERTICES};
use quotient_graph::{AnyGraph, Graph};
use std::alloc::Global;

// The index of a cell, if the cover is not too large.
fn index_of<const D: usize>(g: &Graph<D>, cell: &Cell) -> Result<u32, CoverFault>
    ensures index { IfOk result (λ n. n ≡ index_in cell.now) }
    ensures fits { OnOk result (FitsEdges g.now cell.now) }
    ensures fault { IfErr result (IsCoverFault g.now cell.now) }
{
    if cell.dimension() != g.dimension() {
        return Err(CoverFault::CellDimension);
    }
    let determinant = cell.determinant();
    if determinant == 0 {
        return Err(CoverFault::CellRank);
    }
    let index = determinant.unsigned_abs() as u64;
    let vertices = u64::from(g.vertices()) * index;
    if vertices > MOST_VERTICES as u64 {
        return Err(CoverFault::CoverVertices { count: vertices });
    }
    let edges = u64::from(g.edge_count()) * index;
    if edges > MOST_EDGES as u64 {
        return Err(CoverFault::CoverEdges { count: edges });
    }
    Ok(index as u32)
}

// The number of vertices of a cover.
fn vertex_count(n: u32, index: u32) -> u32
    requires { n * index ≤ most_vertices }
    ensures { result ≡ n * index }
{
    n * index
}

fn cover_graph<const D: usize>(
    alloc: Global,
    g: &Graph<D>,
    cell: &Cell,
) -> Result<Graph<D>, CoverFault>
    ensures cover { IfOk result (IsCover g.now cell.now.rows) }
    ensures iso { IfOk result (Iso g.now) }
    ensures size { IfOk result (HasCoverSize g.now cell.now.rows) }
    ensures coverable { OnOk result (IsCoverable g.now cell.now) }
    ensures fault { IfErr result (IsCoverFault g.now cell.now) }
{
    g.recall();
    cell.recall();
    let index = match index_of(g, cell) {
        Ok(index) => index,
        Err(fault) => return Err(fault),
    };
    let lattice = lattice_in(cell, index);
    let edges = match given_edges(alloc, cell, &lattice, index, g.edges()) {
        Ok(edges) => edges,
        Err(fault) => return Err(fault),
    };
    let n = vertex_count(g.vertices(), index);
    match Graph::from_unsorted(alloc, n, edges) {
        Ok(cover) => Ok(cover),
        Err(_) => Err(CoverFault::NoMemory),
    }
}

/// The graph on a cell of whole rows: its net is the net, up to isomorphism.
pub fn cover(alloc: Global, g: &AnyGraph, cell: &Cell) -> Result<AnyGraph, CoverFault>
    // The cover of the definition: vertices over remainders, edges with their new shifts.
    ensures cover { IfOk result (λ c. IsCover (graph_view g.now) cell.now.rows (graph_view c)) }
    // Its net is the net, up to isomorphism.
    ensures iso { IfOk result (λ c. Iso (graph_view g.now) (graph_view c)) }
    // It has the index times as many vertices and edges.
    ensures size { IfOk result (λ c. HasCoverSize (graph_view g.now) cell.now.rows (graph_view c)) }
    // It comes only if a cover within the limits is there.
    ensures coverable { OnOk result (IsCoverable (graph_view g.now) cell.now) }
    // Else memory ran out, or it is the first fault that applies, with its value.
    ensures fault { IfErr result (IsCoverFault (graph_view g.now) cell.now) }
{
    match g {
        AnyGraph::Flat(g) => cover_graph(alloc, g, cell).map(AnyGraph::Flat),
        AnyGraph::Space(g) => cover_graph(alloc, g, cell).map(AnyGraph::Space),
    }
}
