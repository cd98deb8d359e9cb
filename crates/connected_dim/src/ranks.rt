// How many of the closed walks of a net are independent.
ghost use Rattle.std.specs.Prelude.{◌≡◌, ◌≢◌, ◌↔◌, ◌≤◌, ◌^◌, ◌≤ℤ◌, ◌<ℤ◌, unsigned_abs, neg_ℤ, pos, None, All, Contains, IfSome, IsTrue, not};
ghost use Rattle.integers.specs.Vectors.{vector, zero_vector, cross, dot, IsWithin};
ghost use Rattle.connected_dim.specs.Orthogonal.{IsFlatNormal};
ghost use Rattle.connected_dim.specs.Full.{IsVolume};
ghost use Rattle.connected_dim.specs.Ranks.{IsRank};
ghost use Rattle.periodic_net.specs.Limits.{most_closed};
ghost use Rattle.connected_dim.specs.Bounds.{most_normal, most_volume};

use crate::reduction::reduction;
use vecdim::{Triple, Vect};

/// Below the dimension, with a vector orthogonal to all; or full, with the volume that independent
/// vectors span.
#[derive(Drop)]
pub enum Rank {
    Below(Triple),
    Full(i128),
}

// The first vector that is not 0.
fn first_some<const D: usize>(gs: &[Vect<D>]) -> Option<Vect<D>>
    ensures found { IfSome result (Contains gs.now) }
    ensures some { IfSome result (λ g. g ≢ zero_vector) }
    ensures none { result ≡ None → All (λ g. g ≡ zero_vector) gs.now }
{
    gs.iter().copied().find(
        |g| -> bool
            ensures { IsTrue (not result) ↔ (g.now ≡ zero_vector) }
        { !g.is_zero() },
    )
}

// The first vector that is not on the line of v.
fn first_apart<const D: usize>(gs: &[Vect<D>], v: &Vect<D>) -> Option<Vect<D>>
    ensures found { IfSome result (Contains gs.now) }
    ensures some { IfSome result (λ g. cross v.now g ≢ zero_vector) }
    ensures none { result ≡ None → All (λ g. cross v.now g ≡ zero_vector) gs.now }
{
    gs.iter().copied().find(
        |g| -> bool
            ensures { IsTrue (not result) ↔ (cross v.entry.now g.now ≡ zero_vector) }
        { !v.is_parallel(g) },
    )
}

// The first vector that is not orthogonal to c.
fn first_off<const D: usize>(gs: &[Vect<D>], c: &Triple) -> Option<Vect<D>>
    requires small { All (IsWithin most_closed) gs.now }
    requires c { IsWithin most_normal c.now }
    ensures found { IfSome result (Contains gs.now) }
    ensures some { IfSome result (λ g. dot c.now g ≢ pos 0) }
    ensures none { result ≡ None → All (λ g. dot c.now g ≡ pos 0) gs.now }
{
    gs.iter().copied().find(
        |g| -> bool
            requires small { IsWithin most_closed g.now }
            requires c { IsWithin most_normal c.now }
            ensures { IsTrue (not result) ↔ (dot c.entry.now g.now ≡ pos 0) }
        { !g.is_orthogonal(c) },
    )
}

// The normal if all vectors are 0, or on a line that has no first part.
fn axis() -> Triple
    ensures value { result ≡ vector (pos 1) (pos 0) (pos 0) }
    ensures within { IsWithin most_normal result }
{
    Triple { x: 1, y: 0, z: 0 }
}

// (a.y, -a.x, 0).
fn across<const D: usize>(a: &Vect<D>) -> Triple
    requires { IsWithin most_closed a.now }
    ensures value { result ≡ vector a.now.y (neg_ℤ a.now.x) (pos 0) }
    ensures within { IsWithin most_normal result }
{
    Triple {
        x: a.y,
        y: -a.x,
        z: 0,
    }
}

// The absolute value of a product that is not 0.
fn volume(product: i128) -> i128
    requires some { product ≢ pos 0 }
    requires within { unsigned_abs product ≤ most_volume }
    ensures value { result ≡ pos (unsigned_abs product) }
    ensures from { pos 1 ≤ℤ result }
    ensures to { result <ℤ pos (2 ^ 60) }
{
    product.unsigned_abs() as i128
}

// The area that two flat vectors span, from their cross product.
fn flat_volume(c: &Triple) -> i128
    requires c { IsWithin most_normal c.now }
    requires some { c.now.z ≢ pos 0 }
    ensures value { result ≡ pos (unsigned_abs c.now.z) }
    ensures from { pos 1 ≤ℤ result }
    ensures to { result <ℤ pos (2 ^ 60) }
{
    volume(c.z)
}

// The volume that three vectors span, from the cross product of two.
fn space_volume<const D: usize>(c: &Triple, g: &Vect<D>) -> i128
    requires c { IsWithin most_normal c.now }
    requires g { IsWithin most_closed g.now }
    requires some { dot c.now g.now ≢ pos 0 }
    ensures value { result ≡ pos (unsigned_abs (dot c.now g.now)) }
    ensures from { pos 1 ≤ℤ result }
    ensures to { result <ℤ pos (2 ^ 60) }
{
    let product = c.dot(&g.to_triple());
    volume(product)
}

// The cross product of two closed walks, which is orthogonal to both.
fn normal<const D: usize>(a: &Vect<D>, b: &Vect<D>) -> Triple
    requires a { IsWithin most_closed a.now }
    requires b { IsWithin most_closed b.now }
    ensures value { result ≡ cross a.now b.now }
    ensures within { IsWithin most_normal result }
    ensures flat { D ≡ 2 → result ≢ zero_vector → result.z ≢ pos 0 }
{
    a.to_triple().cross(&b.to_triple())
}

// The rank of vectors that are not all on the line of a; a and b are not on one line.
fn rank_with<const D: usize>(gs: &[Vect<D>], a: &Vect<D>, b: &Vect<D>) -> Rank
    requires small { All (IsWithin most_closed) gs.now }
    requires a { Contains gs.now a.now }
    requires b { Contains gs.now b.now }
    requires apart { cross a.now b.now ≢ zero_vector }
    ensures { IsRank D gs.now result }
{
    let c = normal(a, b);
    if D == 2 {
        return Rank::Full(flat_volume(&c));
    }
    match first_off(gs, &c) {
        Some(g) => Rank::Full(space_volume(&c, &g)),
        None => Rank::Below(reduction(&c)),
    }
}

// The rank of vectors of which a is not 0.
fn rank_from<const D: usize>(gs: &[Vect<D>], a: &Vect<D>) -> Rank
    requires small { All (IsWithin most_closed) gs.now }
    requires a { Contains gs.now a.now }
    requires some { a.now ≢ zero_vector }
    ensures { IsRank D gs.now result }
{
    match first_apart(gs, a) {
        Some(b) => rank_with(gs, a, &b),
        None if a.x == 0 => Rank::Below(axis()),
        None => Rank::Below(reduction(&across(a))),
    }
}

/// The rank of the closed walks.
pub fn rank_of<const D: usize>(gs: &[Vect<D>]) -> Rank
    requires small { All (IsWithin most_closed) gs.now }
    ensures { IsRank D gs.now result }
{
    match first_some(gs) {
        Some(a) => rank_from(gs, &a),
        None => Rank::Below(axis()),
    }
}
