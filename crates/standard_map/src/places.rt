// The vertex that stands at a place.
ghost use Rattle.std.specs.Prelude.{◌≡◌, ◌≢◌, ◌^◌, ◌<ℤ◌, pos, None, IfSome};
ghost use Rattle.integers.specs.Vectors.{Vector, times, IsWithin};
ghost use Rattle.periodic_net.specs.Graph.{IsQuotientVertex, vertex};
ghost use Rattle.periodic_net.specs.Placement.{position};
ghost use Rattle.standard_map.specs.Standing.{StandsSomewhere};

use quotient_graph::Placed;
use vecdim::Triple;

// The multiple of m that a vector is, if it is one.
fn multiple_of(v: &Triple, m: i128) -> Option<Triple>
    requires positive { pos 0 <ℤ m }
    requires vector { IsWithin (2 ^ 126) v.now }
    ensures some { IfSome result (λ w. v.now ≡ times m w) }
    ensures none { result ≡ None → (w : Vector) → v.now ≢ times m w }
{
    if v.modulo(m).is_zero() {
        return Some(v.over(m));
    }
    None
}

// The cell in which a vertex over u stands at a place, if one does.
fn cell_at<const D: usize>(placed: &Placed<D>, u: u32, place: &Triple) -> Option<Triple>
    requires vertex { IsQuotientVertex placed.now.graph u }
    requires place { IsWithin (2 ^ 112) place.now }
    ensures some { IfSome result (λ t. position placed.now.placement (vertex u t) ≡ place.now) }
    ensures none { result ≡ None → (t : Vector)
        → position placed.now.placement (vertex u t) ≢ place.now }
{
    let steps = place.minus(&placed.at(u).to_triple());
    multiple_of(&steps, placed.d0())
}

/// The vertex that stands at a place: its vertex of the quotient graph, and its cell.
pub fn vertex_standing<const D: usize>(placed: &Placed<D>, place: &Triple) -> (u32, Triple)
    requires place { IsWithin (2 ^ 112) place.now }
    requires stands { StandsSomewhere placed.now place.now }
    ensures vertex { IsQuotientVertex placed.now.graph result.0 }
    ensures place { position placed.now.placement (vertex result.0 result.1) ≡ place.now }
{
    for done in 0..placed.graph().vertices() {
        if let Some(t) = cell_at(placed, done + 1, place) {
            return (done + 1, t);
        }
    }
    unreachable!()
}
