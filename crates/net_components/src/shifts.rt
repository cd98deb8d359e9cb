// The shifts of a component's edges in the staircase basis of its closed walks.
ghost use Rattle.std.specs.Prelude.{◌≡◌, ◌↔◌, ◌≤◌, ◌<◌, length, All, IsTrue, IfSome, None, unsigned_abs, FitsSigned};
ghost use Rattle.std.specs.Int.{w128};
ghost use Rattle.integers.specs.Vectors.{IsWithin, HasDimension};
ghost use Rattle.integers.specs.Bases.{base_sum};
ghost use Rattle.periodic_net.specs.Limits.{most_walk, most_shift};
ghost use Rattle.vecdim.specs.Lattices.{Members};
ghost use Rattle.net_components.specs.PartGraphs.{stair_base};
ghost use Rattle.connected_dim.specs.Search.{shift_of};
ghost use Rattle.connected_dim.specs.Generators.{generator_of};
ghost use Rattle.net_components.specs.Shifts.{IsFirstWide};

use crate::component::Component;
use connected_dim::edge_walk;
use periodic_net::MOST_SHIFT;
use quotient_graph::Arc;
use vecdim::{Staircase, Triple, Vect};

/// The first part past the limit, counted from 1.
#[derive(Clone, Copy, PartialEq, Eq)]
pub struct WidePart {
    pub c: u8,
    pub value: i128,
}

// The coordinates of a closed walk in the staircase basis.
fn coordinates<const D: usize>(lattice: &Staircase<D>, v: &Vect<D>) -> Triple
    requires { Members D lattice.now v.now }
    ensures sum { base_sum (stair_base lattice.now) result ≡ v.now }
    ensures dimension { HasDimension D result }
{
    lattice.coordinates(v)
}

/// The shift of an edge in the graph of its component.
pub fn shift_in<const D: usize>(c: &Component<D>, e: &Arc<D>) -> Triple
    requires found { All (λ walk. IsWithin most_walk (shift_of walk)) c.now.found }
    requires from { (1 ≤ e.now.from) × (e.now.from ≤ length c.now.found) }
    requires to { (1 ≤ e.now.to) × (e.now.to ≤ length c.now.found) }
    requires shift { IsWithin most_shift e.now.shift }
    requires member { Members D c.now.stairs (generator_of c.now.found e.now) }
    ensures sum { base_sum (stair_base c.now.stairs) result ≡ generator_of c.now.found e.now }
    ensures dimension { HasDimension D result }
{
    let v = edge_walk(e, &c.found);
    coordinates(&c.lattice, &v)
}

// Whether a part is past the limit.
fn is_wide(value: i128) -> bool
    ensures { IsTrue result ↔ (most_shift < unsigned_abs value) }
{
    value.unsigned_abs() > MOST_SHIFT as u128
}

/// The first part of a shift that is past the limit.
pub fn first_wide(k: &Triple) -> Option<WidePart>
    ensures some { IfSome result (λ w. IsFirstWide k.now w.c w.value) }
    ensures fits { IfSome result (λ w. FitsSigned w128 w.value) }
    ensures none { result ≡ None → IsWithin most_shift k.now }
{
    if is_wide(k.x) {
        return Some(WidePart { c: 1, value: k.x });
    }
    if is_wide(k.y) {
        return Some(WidePart { c: 2, value: k.y });
    }
    if is_wide(k.z) {
        return Some(WidePart { c: 3, value: k.z });
    }
    None
}
