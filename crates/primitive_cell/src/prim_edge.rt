// Edges of a primitive graph.
use quotient_graph::is_normal_spelling;
use std::marker::Model;
use vecdim::Vect;

/// An edge of a primitive graph, from one class to another or to the same one, with a shift in the
/// coordinates of the basis.
#[derive(Clone, Copy, Debug, PartialEq, Eq)]
pub struct PrimEdge<const D: usize> {
    pub u: u32,
    pub v: u32,
    pub shift: Vect<D>,
}

impl<const D: usize> Model for PrimEdge<D> {
    ghost use Rattle.periodic_net.specs.Graph.{Arc as NetArc, arc};

    ghost Value = { NetArc };

    ghost view = { λ e. arc e.u e.v e.shift };

    ghost inverse = { λ a. record { u = a.from; v = a.to; shift = a.shift } };
}

impl<const D: usize> PrimEdge<D> {
    ghost use Rattle.std.specs.Prelude.{◌↔◌, IsTrue};
    ghost use Rattle.periodic_net.specs.Graph.{IsNormalSpelling};

    /// Whether the edge is written from the lesser class, and a loop with a shift that starts
    /// positive.
    pub fn is_normal(&self) -> bool
        ensures { IsTrue result ↔ IsNormalSpelling self.now }
    {
        is_normal_spelling(self.u, self.v, &self.shift.to_triple())
    }
}
