// The edges of a component, written for its graph.
ghost use Rattle.std.specs.Prelude.{◌≡◌, ◌++◌, ◌∷◌, [], map, Contains, OnOk, IfOk, IfErr, IsSome};
ghost use Rattle.integers.specs.Vectors.{IsWithin};
ghost use Rattle.periodic_net.specs.Graph.{arc};
ghost use Rattle.periodic_net.specs.Limits.{most_shift};
ghost use Rattle.cgd_read.specs.Spelling.{edge_of};
ghost use Rattle.connected_dim.specs.Search.{walk_to};
ghost use Rattle.net_components.specs.Components.{IsComponent};
ghost use Rattle.net_components.specs.Vertices.{vertices_of};
ghost use Rattle.net_components.specs.Written.{IsEdgeOf, AreEdgesOf, IsWideEdge, IsWideFault};

use crate::component::Component;
use crate::shifts::{first_wide, shift_in};
use crate::vertices::number_of;
use crate::{NoMemory, PartFault};
use quotient_graph::{Arc, Graph, RawEdge};
use std::alloc::Global;
use vecdim::Triple;

// The edge between two vertices by a shift.
fn raw_edge(u: u32, v: u32, k: &Triple) -> RawEdge
    requires { IsWithin most_shift k.now }
    ensures { edge_of result ≡ arc u v k.now }
{
    RawEdge {
        u,
        v,
        x: k.x as i32,
        y: k.y as i32,
        z: k.z as i32,
    }
}

// An edge of a component, written for its graph.
fn written_edge<const D: usize>(
    g: &Graph<D>,
    c: &Component<D>,
    vertices: &[u32],
    e: &Arc<D>,
) -> Result<RawEdge, PartFault>
    requires component { IsComponent g.now c.now }
    requires vertices { vertices.now ≡ vertices_of 1 c.now.found }
    requires edge { Contains g.now.edges e.now }
    requires tail { IsSome (walk_to c.now.found e.now.from) }
    ensures written { IfOk result (λ f. IsEdgeOf g.now c.now e.now (edge_of f)) }
    ensures wide { IfErr result (IsWideEdge g.now c.now e.now) }
{
    g.recall();
    let k = shift_in(c, e);
    if let Some(w) = first_wide(&k) {
        return Err(PartFault::WideShift {
            u: e.from,
            v: e.to,
            s: e.shift.to_triple(),
            c: w.c,
            value: w.value,
        });
    }
    let u = number_of(vertices, e.from);
    let v = number_of(vertices, e.to);
    Ok(raw_edge(u, v, &k))
}

// Puts an edge last.
fn push(edges: &mut Vec<RawEdge>, edge: RawEdge) -> Result<(), NoMemory>
    ensures { OnOk result (edges.new.items ≡ edges.old.items ++ edge ∷ []) }
{
    edges.push(edge)?;
    Ok(())
}

/// The edges of a component, written for its graph.
pub fn written_edges<const D: usize>(
    alloc: Global,
    g: &Graph<D>,
    c: &Component<D>,
    vertices: &[u32],
) -> Result<Vec<RawEdge>, PartFault>
    requires component { IsComponent g.now c.now }
    requires vertices { vertices.now ≡ vertices_of 1 c.now.found }
    ensures written { IfOk result (λ es.
        AreEdgesOf g.now c.now g.now.edges (map edge_of es.items)) }
    ensures wide { IfErr result (IsWideFault g.now c.now) }
{
    g.recall();
    let mut edges = Vec::new(alloc);
    for e in g.edges() {
        if c.has(e.from) {
            let edge = written_edge(g, c, vertices, e)?;
            push(&mut edges, edge)?;
        }
    }
    Ok(edges)
}
