// The parts of a net.
ghost use Rattle.std.specs.Prelude.{◌≡◌, ◌+◌, ◌++◌, ◌∷◌, [], OnOk, IfOk, IfErr};
ghost use Rattle.integers.specs.Lists.{AreMatched};
ghost use Rattle.vecdim.specs.Stairs.{rows_of};
ghost use Rattle.quotient_graph.specs.AnyGraphs.{graph_view};
ghost use Rattle.net_components.specs.Components.{IsComponent, AreComponentsTo};
ghost use Rattle.net_components.specs.Faults.{IsPartFault};
ghost use Rattle.net_components.specs.Parts.{AreParts};
ghost use Rattle.net_components.specs.Vertices.{vertices_of};
ghost use Rattle.net_components.specs.Written.{IsGraphOf, IsMadeOf, IsWideFault};

use crate::component::Component;
use crate::covering::components_of;
use crate::vertices::vertices_of;
use crate::written::written_edges;
use crate::{NoMemory, PartFault};
use lists::Items;
use quotient_graph::{AnyGraph, Graph, from_edges};
use std::alloc::Global;
use vecdim::{Staircase, Triple};

/// The graph of one copy of a component: its vertices, in rising order, have these numbers in it,
/// and its shifts are written in the basis, the staircase basis of the component's closed walks.
#[derive(Debug, Drop)]
pub struct Part {
    pub vertices: Items<u32>,
    pub basis: Items<Triple>,
    pub copies: u64,
    pub graph: AnyGraph,
}

// The graph of a component.
fn graph_of<const D: usize>(
    alloc: Global,
    g: &Graph<D>,
    c: &Component<D>,
    vertices: &[u32],
) -> Result<AnyGraph, PartFault>
    requires component { IsComponent g.now c.now }
    requires vertices { vertices.now ≡ vertices_of 1 c.now.found }
    ensures graph { IfOk result (λ h. IsGraphOf g.now c.now (graph_view h)) }
    ensures wide { IfErr result (IsWideFault g.now c.now) }
{
    let dim = g.dimension();
    let edges = written_edges(alloc, g, c, vertices)?;
    g.edges(); // which rise
    let graph = from_edges(alloc, dim, vertices.len() as u32, &edges)?;
    Ok(graph)
}

// The rows of a staircase basis.
fn basis_of<const D: usize>(alloc: Global, lattice: &Staircase<D>) -> Result<Vec<Triple>, NoMemory>
    ensures { IfOk result (λ rows. rows.items ≡ rows_of D lattice.now) }
{
    let mut rows = Vec::new(alloc);
    for row in lattice.rows() {
        rows.push(row.to_triple())?;
    }
    Ok(rows)
}

// The part that is made of a component.
fn part_of<const D: usize>(alloc: Global, g: &Graph<D>, c: &Component<D>) -> Result<Part, PartFault>
    requires { IsComponent g.now c.now }
    ensures made { IfOk result (IsMadeOf g.now c.now) }
    ensures wide { IfErr result (IsWideFault g.now c.now) }
{
    g.recall();
    let vertices = vertices_of(alloc, &c.found)?;
    let graph = graph_of(alloc, g, c, &vertices)?;
    let basis = basis_of(alloc, &c.lattice)?;
    Ok(Part {
        vertices: Items::from_vec(vertices),
        basis: Items::from_vec(basis),
        copies: c.lattice.size() as u64,
        graph,
    })
}

// Puts a part last.
fn push(parts: &mut Vec<Part>, part: Part) -> Result<(), NoMemory>
    ensures { OnOk result (parts.new.items ≡ parts.old.items ++ part ∷ []) }
{
    parts.push(part)?;
    Ok(())
}

// The parts that are made of all components.
fn parts_of<const D: usize>(
    alloc: Global,
    g: &Graph<D>,
    components: &[Component<D>],
) -> Result<Vec<Part>, PartFault>
    requires { AreComponentsTo g.now components.now (g.now.vertices + 1) }
    ensures made { IfOk result (λ ps. AreMatched (IsMadeOf g.now) components.now ps.items) }
    ensures fault { IfErr result (IsPartFault g.now) }
{
    g.recall();
    let mut parts = Vec::new(alloc);
    for component in components {
        let part = part_of(alloc, g, component)?;
        push(&mut parts, part)?;
    }
    Ok(parts)
}

// The parts of a net of dimension D.
fn parts_in<const D: usize>(alloc: Global, g: &Graph<D>) -> Result<Vec<Part>, PartFault>
    ensures parts { IfOk result (λ ps. AreParts g.now ps.items) }
    ensures fault { IfErr result (IsPartFault g.now) }
{
    g.recall();
    let components = components_of(alloc, g)?;
    parts_of(alloc, g, &components)
}

/// The parts of a net, one for each component of its quotient graph, in the order of their least
/// vertices; or the first fault.
pub fn components(alloc: Global, g: &AnyGraph) -> Result<Vec<Part>, PartFault>
    // The net of each part is connected, and carried one to one onto each of its copies: the laws
    // `parts_are_nets` and `copies_are_counted` say so of any such list.
    ensures parts { IfOk result (λ ps. AreParts (graph_view g.now) ps.items) }
    // The first component of low rank; if there is none, the first shift that is too wide.
    ensures fault { IfErr result (IsPartFault (graph_view g.now)) }
{
    match g {
        AnyGraph::Flat(g) => parts_in(alloc, g),
        AnyGraph::Space(g) => parts_in(alloc, g),
    }
}
