// Positions with parts up to 2^60: the vectors of their arcs are added in 64 bits.
ghost use Rattle.std.specs.Prelude.{ℕ, ◌≡◌, ◌^◌, ◌≤ℤ◌, pos, map, length, All, IsTrue};
ghost use Rattle.integers.specs.Vectors.{vector_sum, zero_vector, IsWithin};
ghost use Rattle.periodic_net.specs.Graph.{IsQuotientVertex, arcs_from};
ghost use Rattle.periodic_net.specs.Placement.{arc_vector, IsWithinLimits};
ghost use Rattle.quotient_graph.specs.PlacedNets.{placement_of};
ghost use Rattle.barycentre.specs.Limits.{AreInReach, AreWithinFrom};
ghost use Rattle.barycentre.specs.Tested.{AreBalanced};

use crate::limits::vector_of;
use periodic_net::MOST_UNITS;
use quotient_graph::Graph;
use vecdim::{SmallVector, Triple};

fn are_short(at: &[Triple]) -> bool
    ensures { IsTrue result → All (IsWithin (2 ^ 60)) at.now }
{
    at.iter().all(|t| t.is_within(1 << 60))
}

// Whether the vectors of the arcs from u are within the limit and add up to 0.
fn is_balanced<const D: usize>(g: &Graph<D>, at: &[Triple], d0: i128, u: u32) -> bool
    requires vertex { IsQuotientVertex g.now u }
    requires count { length at.now ≡ g.now.vertices }
    requires positive { pos 1 ≤ℤ d0 }
    requires reach { AreInReach d0 at.now }
    requires short { All (IsWithin (2 ^ 60)) at.now }
    ensures within { IsTrue result → AreWithinFrom g.now (placement_of d0 at.now) u }
    ensures balanced { IsTrue result →
        vector_sum (map (arc_vector (placement_of d0 at.now)) (arcs_from g.now u)) ≡ zero_vector }
{
    g.recall(); // the graph is small
    let mut sum = SmallVector { x: 0, y: 0, z: 0 };
    for arc in g.arcs(u) {
        let step = SmallVector::of_triple(&vector_of(at, d0, arc));
        if !step.is_within(MOST_UNITS as u64) {
            return false;
        }
        sum = sum.plus(&step);
    }
    sum.to_triple().is_zero()
}

// Whether the vectors of all arcs are within the limit, and those from each vertex add up to 0.
fn are_stars_balanced<const D: usize>(g: &Graph<D>, at: &[Triple], d0: i128) -> bool
    requires count { length at.now ≡ g.now.vertices }
    requires positive { pos 1 ≤ℤ d0 }
    requires reach { AreInReach d0 at.now }
    requires short { All (IsWithin (2 ^ 60)) at.now }
    ensures within { IsTrue result → IsWithinLimits g.now (placement_of d0 at.now) }
    ensures balanced { IsTrue result → (u : ℕ) → IsQuotientVertex g.now u →
        vector_sum (map (arc_vector (placement_of d0 at.now)) (arcs_from g.now u)) ≡ zero_vector }
{
    for u in 0..g.vertices() {
        if !is_balanced(g, at, d0, u + 1) {
            return false;
        }
    }
    true
}

/// Whether vertex 1 stands at 0, each vertex at the mean of its neighbours, and all is within the
/// limits.
pub(crate) fn are_balanced_within<const D: usize>(g: &Graph<D>, at: &[Triple], d0: i128) -> bool
    requires count { length at.now ≡ g.now.vertices }
    requires positive { pos 1 ≤ℤ d0 }
    requires reach { AreInReach d0 at.now }
    ensures balanced { IsTrue result → AreBalanced g.now (placement_of d0 at.now) }
    ensures within { IsTrue result → IsWithinLimits g.now (placement_of d0 at.now) }
{
    g.recall(); // there is a vertex
    at[0].is_zero() && are_short(at) && are_stars_balanced(g, at, d0)
}
