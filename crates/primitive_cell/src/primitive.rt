// Primitive graphs in memory: one vertex for each class, with the basis of the translations.
use crate::PrimEdge;
use std::marker::Model;
use vecdim::Vect;

/// The primitive graph of a net: it has a vertex for each class, and its edges stand in normal
/// spelling, rising by `u`, `v` and shift. `basis` is the staircase basis of the translations, in
/// units of 1/D0, in whose coordinates the shifts are written; vertex `u` of the graph that was
/// divided is in class `class_of[u - 1]`. Contracts see the basis, the graph and the classes.
#[derive(Debug, Drop)]
pub struct Primitive<const D: usize> {
    pub basis: Vec<Vect<D>>,
    pub vertices: u32,
    pub edges: Vec<PrimEdge<D>>,
    pub class_of: Vec<u32>,
}

impl<const D: usize> Model for Primitive<D> {
    ghost use Rattle.primitive_cell.specs.DividedNets.{DividedNet, divided_net};

    ghost Value = { DividedNet };

    ghost view = { λ r. divided_net D r.basis.items r.vertices r.edges.items r.class_of.items };
}
