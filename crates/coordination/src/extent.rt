// How far vertices lie from a start, in lattice steps.
ghost use Rattle.std.specs.Prelude.{◌≤◌, IfSome};
ghost use Rattle.coordination.specs.Extents.{AreShiftsWithin, IsCellWithin, IsNarrow, IsWiderBy, IsWithinExtent};

use primitive_cell::PrimEdge;
use vecdim::Vect;

/// How far vertices of the net lie from a start, in cells along each axis.
#[derive(Clone, Copy, PartialEq, Eq)]
pub struct Extent {
    pub x: u32,
    pub y: u32,
    pub z: u32,
}

/// The greatest part of a step in a box, in cells.
pub const LONGEST: u32 = 1_000;

/// The greatest part of all steps of a search together.
pub const WIDEST: u32 = 10_000;

// The greater of a number and a part of a shift, unless this is too great.
fn with_part(greatest: u32, part: i128) -> Option<u32>
    requires { greatest ≤ LONGEST }
    ensures { IfSome result (λ m. IsWiderBy greatest part m) }
{
    let length = part.unsigned_abs();
    if length > 1_000 {
        return None;
    }
    Some(greatest.max(length as u32))
}

impl Extent {
    // The least extent that has this one and a shift within.
    fn with_shift<const D: usize>(self, shift: &Vect<D>) -> Option<Extent>
        requires { IsNarrow LONGEST self }
        ensures shift { IfSome result (λ r. IsCellWithin r shift.now) }
        ensures wider { IfSome result (λ r. IsWithinExtent self r) }
        ensures narrow { IfSome result (λ r. IsNarrow LONGEST r) }
    {
        let triple = shift.to_triple();
        Some(Extent {
            x: with_part(self.x, triple.x)?,
            y: with_part(self.y, triple.y)?,
            z: with_part(self.z, triple.z)?,
        })
    }
}

/// An extent that the shifts of these edges are within, unless one is too long.
pub fn greatest_shift<const D: usize>(edges: &[PrimEdge<D>]) -> Option<Extent>
    ensures shifts { IfSome result (AreShiftsWithin edges.now) }
    ensures narrow { IfSome result (IsNarrow LONGEST) }
{
    let mut greatest = Extent { x: 0, y: 0, z: 0 };
    for edge in edges {
        greatest = greatest.with_shift(&edge.shift)?;
    }
    Some(greatest)
}
