// The end of a walk from an origin, and the image of that end.
ghost use Rattle.std.specs.Prelude.{◌≡◌, false, IsTrue};
ghost use Rattle.standard_map.specs.Search.{HasEnd, HasNoEnd};

use std::marker::Model;
use vecdim::{Shift, Vect};

/// A vertex of a quotient graph, the shift of a walk to it from the origin, the vertex over which
/// the image of the walk's end stands, and how far from the other origin it stands.
#[derive(Clone, Copy, Debug)]
pub struct End<const D: usize> {
    pub over: u32,
    pub shift: Shift<D>,
    pub image: u32,
    pub at: Vect<D>,
}

impl<const D: usize> Model for End<D> {
    ghost use Rattle.standard_map.specs.Ends.{End as NetEnd};

    ghost Value = { NetEnd };

    ghost view = { λ e. record { over = e.over; shift = e.shift; image = e.image; at = e.at } };

    ghost inverse = { λ e. record { over = e.over; shift = e.shift; image = e.image; at = e.at } };
}

/// Whether one of these ends is over a vertex.
pub fn is_found<const D: usize>(ends: &[End<D>], u: u32) -> bool
    ensures yes { IsTrue result → HasEnd ends.now u }
    ensures no { result ≡ false → HasNoEnd ends.now u }
{
    for end in ends {
        if end.over == u {
            return true;
        }
    }
    false
}
