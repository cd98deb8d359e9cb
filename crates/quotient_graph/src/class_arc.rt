// Arcs of a class graph, as they are seen from a class.
use std::marker::Model;
use vecdim::Vect;

/// An arc from one class to another, or to the same one. Classes are numbered from 1; the vector is
/// the difference of the positions of its ends, in units of 1/D0 or in the coordinates of another
/// basis.
#[derive(Clone, Copy, Debug, Default, PartialEq, Eq, PartialOrd, Ord)]
pub struct ClassArc<const D: usize> {
    pub from: u32,
    pub to: u32,
    pub vector: Vect<D>,
}

impl<const D: usize> Model for ClassArc<D> {
    ghost use Rattle.periodic_net.specs.Classes.{ClassArc as NetArc};
    ghost use Rattle.quotient_graph.specs.ClassNets.{class_arc};

    ghost Value = { NetArc };

    ghost view = { λ a. class_arc a.from a.to a.vector };

    ghost inverse = { λ a. record { from = a.from; to = a.to; vector = a.vector } };
}
