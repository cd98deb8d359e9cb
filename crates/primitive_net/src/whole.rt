// Whether a graph is its own primitive graph.
ghost use Rattle.std.specs.Prelude.{◌≡◌, ◌≢◌, ◌↔◌, IsTrue, true, false};
ghost use Rattle.least_key.specs.KeyedNets.{IsKeyed};
ghost use Rattle.primitive_net.specs.PrimitiveNets.{IsPrimitiveNet};

use least_key::NetOf;
use primitive_cell::{PrimEdge, Primitive};
use quotient_graph::{Arc, Graph};

// Whether two edges are the same.
fn is_same_edge<const D: usize>(edge: &PrimEdge<D>, arc: &Arc<D>) -> bool
    ensures { IsTrue result ↔ (edge.now ≡ arc.now) }
{
    edge.u == arc.from && edge.v == arc.to && edge.shift.to_triple() == arc.shift.to_triple()
}

// Whether two lists of edges are the same.
fn are_same_edges<const D: usize>(edges: &[PrimEdge<D>], arcs: &[Arc<D>]) -> bool
    ensures yes { result ≡ true → edges.now ≡ arcs.now }
    ensures no { result ≡ false → edges.now ≢ arcs.now }
{
    if edges.len() != arcs.len() {
        return false;
    }
    for i in 0..edges.len() {
        if !is_same_edge(&edges[i], &arcs[i]) {
            return false;
        }
    }
    true
}

// Whether a primitive graph is this graph.
fn is_same_graph<const D: usize>(primitive: &Primitive<D>, graph: &Graph<D>) -> bool
    ensures yes { result ≡ true → (primitive.now).graph ≡ graph.now }
    ensures no { result ≡ false → (primitive.now).graph ≢ graph.now }
{
    primitive.vertices == graph.vertices() && are_same_edges(&primitive.edges, graph.edges())
}

/// Whether the graph of a net is its own primitive graph. Then its placement and its classes are
/// those of the primitive graph.
pub fn is_primitive<const D: usize>(net: &NetOf<D>) -> bool
    requires { IsKeyed net.now }
    ensures yes { result ≡ true → IsPrimitiveNet net.now net.now.placed net.now.classes }
    ensures no { result ≡ false → (net.now).cell.graph ≢ net.now.placed.graph }
{
    is_same_graph(&net.primitive, net.stable.graph())
}
