// Arcs of a quotient graph, and the normal spelling of an edge.
ghost use Rattle.std.specs.Prelude.{◌↔◌, IsTrue};
ghost use Rattle.periodic_net.specs.Graph.{arc, IsNormalSpelling};

use std::marker::Model;
use vecdim::{Shift, Triple};

/// An arc from one vertex to another, or to the same one. Vertices are numbered from 1.
#[derive(Clone, Copy, Debug, Default, PartialEq, Eq, PartialOrd, Ord)]
pub struct Arc<const D: usize> {
    pub from: u32,
    pub to: u32,
    pub shift: Shift<D>,
}

impl<const D: usize> Model for Arc<D> {
    ghost use Rattle.periodic_net.specs.Graph.{Arc as NetArc, arc};

    ghost Value = { NetArc };

    ghost view = { λ a. arc a.from a.to a.shift };

    ghost inverse = { λ a. record { from = a.from; to = a.to; shift = a.shift } };
}

/// Whether an edge is spelled from the lesser vertex, and a loop with a shift that starts positive.
pub fn is_normal_spelling(from: u32, to: u32, shift: &Triple) -> bool
    ensures { IsTrue result ↔ IsNormalSpelling (arc from to shift.now) }
{
    if from == to {
        shift.starts_positive()
    } else {
        from < to
    }
}

impl<const D: usize> Arc<D> {
    ghost use Rattle.std.specs.Prelude.{◌≡◌, ◌↔◌, IsTrue};
    ghost use Rattle.integers.specs.Vectors.{IsWithin};
    ghost use Rattle.periodic_net.specs.Graph.{reverse_of, IsNormalSpelling};
    ghost use Rattle.periodic_net.specs.Limits.{most_shift};

    /// Whether it is the arc of its two by which the edge is spelled.
    pub fn is_normal(&self) -> bool
        ensures { IsTrue result ↔ IsNormalSpelling self.now }
    {
        is_normal_spelling(self.from, self.to, &self.shift.to_triple())
    }

    /// The other arc of the edge.
    pub fn reversed(&self) -> Arc<D>
        requires { IsWithin most_shift self.now.shift }
        ensures { result ≡ reverse_of self.now }
    {
        Arc {
            from: self.to,
            to: self.from,
            shift: Shift {
                x: -self.shift.x,
                y: -self.shift.y,
                z: -self.shift.z,
            },
        }
    }
}
