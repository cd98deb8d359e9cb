// The edges of a primitive graph, from the arcs of the class graph.
ghost use Rattle.std.specs.Prelude.{◌≡◌, ◌+◌, OnOk, Contains, IfOk};
ghost use Rattle.integers.specs.Vectors.{plus, minus, parts, combination, HasDimension, IsWithin};
ghost use Rattle.periodic_net.specs.Correspondence.{IsClass};
ghost use Rattle.periodic_net.specs.Graph.{IsQuotientVertex};
ghost use Rattle.periodic_net.specs.Limits.{most_coordinate};
ghost use Rattle.periodic_net.specs.Placement.{base};
ghost use Rattle.quotient_graph.specs.PlacedNets.{most_position};
ghost use Rattle.vecdim.specs.Lattices.{Members};
ghost use Rattle.vecdim.specs.Stairs.{rows_of};
ghost use Rattle.primitive_cell.specs.Given.{IsGivenBy};
ghost use Rattle.primitive_cell.specs.PrimitiveCells.{IsPrimitiveCell, AreEdgesBelow, most_move};
ghost use Rattle.primitive_cell.specs.Places.{number_at, IsPlace};

use crate::{NoMemory, PrimEdge};
use quotient_graph::{ClassArc, Classes, Stable};
use std::alloc::Global;
use vecdim::{Staircase, Vect};

// vector + from - to.
fn move_between<const D: usize>(vector: &Vect<D>, from: &Vect<D>, to: &Vect<D>) -> Vect<D>
    requires vector { IsWithin most_coordinate vector.now }
    requires from { IsWithin most_position from.now }
    requires to { IsWithin most_position to.now }
    ensures value { result ≡ minus (plus vector.now from.now) to.now }
    ensures within { IsWithin most_move result }
{
    vector.plus(from).minus(to)
}

// The coordinates of a member.
fn coordinates<const D: usize>(stairs: &Staircase<D>, v: &Vect<D>) -> Vect<D>
    requires member { Members D stairs.now v.now }
    requires small { IsWithin most_move v.now }
    ensures value { combination (parts 3 result) (rows_of D stairs.now) ≡ v.now }
    ensures dimension { HasDimension D result }
{
    stairs.coordinates(v).to_vector()
}

// The position of the representative of a class.
fn position_of<const D: usize>(net: &Stable<D>, firsts: &[u32], class: u32) -> Vect<D>
    requires place { IsPlace firsts.now class }
    requires vertex { IsQuotientVertex net.now.graph (number_at firsts.now class) }
    ensures value { result ≡ base net.now.placement (number_at firsts.now class) }
    ensures small { IsWithin most_position result }
{
    net.placed().at(firsts[class as usize - 1])
}

// The edge that an arc of the class graph gives.
fn edge_of<const D: usize>(
    net: &Stable<D>,
    classes: &Classes<D>,
    firsts: &[u32],
    stairs: &Staircase<D>,
    arc: &ClassArc<D>,
) -> PrimEdge<D>
    requires cell { IsPrimitiveCell D net.now classes.now firsts.now stairs.now }
    requires arc { Contains classes.now.classes.arcs arc.now }
    ensures { IsGivenBy D net.now.placement (number_at firsts.now) (rows_of D stairs.now) arc.now
        result }
{
    classes.net().recall();
    let from = position_of(net, firsts, arc.from);
    let to = position_of(net, firsts, arc.to);
    let v = move_between(&arc.vector, &from, &to);
    PrimEdge {
        u: arc.from,
        v: arc.to,
        shift: coordinates(stairs, &v),
    }
}

// Adds the edges that the arcs from a class give.
fn push_edges<const D: usize>(
    edges: &mut Vec<PrimEdge<D>>,
    net: &Stable<D>,
    classes: &Classes<D>,
    firsts: &[u32],
    stairs: &Staircase<D>,
    class: u32,
) -> Result<(), NoMemory>
    requires cell { IsPrimitiveCell D net.now classes.now firsts.now stairs.now }
    requires class { IsClass classes.now.classes class }
    requires below { AreEdgesBelow D net.now classes.now firsts.now stairs.now class
        edges.old.items }
    ensures { OnOk result
        (AreEdgesBelow D net.now classes.now firsts.now stairs.now (class + 1) edges.new.items) }
{
    for arc in classes.arcs(class) {
        let edge = edge_of(net, classes, firsts, stairs, arc);
        if edge.is_normal() {
            edges.push(edge)?;
        }
    }
    Ok(())
}

/// The edges that the arcs of the class graph give.
pub fn edges_of<const D: usize>(
    alloc: Global,
    net: &Stable<D>,
    classes: &Classes<D>,
    firsts: &[u32],
    stairs: &Staircase<D>,
) -> Result<Vec<PrimEdge<D>>, NoMemory>
    requires { IsPrimitiveCell D net.now classes.now firsts.now stairs.now }
    ensures { IfOk result (λ es. AreEdgesBelow D net.now classes.now firsts.now stairs.now
        (classes.now.classes.count + 1) es.items) }
{
    let mut edges = Vec::new(alloc);
    for class in 1..classes.count() + 1 {
        push_edges(&mut edges, net, classes, firsts, stairs, class)?;
    }
    Ok(edges)
}
