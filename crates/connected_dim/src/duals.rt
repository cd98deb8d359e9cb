// The first pivot above 1 of a lattice, and a vector whose products with the members are multiples
// of it.
ghost use Rattle.std.specs.Prelude.{◌≡◌, ◌⊎◌, ◌≤◌, ◌^◌, unsigned_abs, pos, None, IfSome, ◌≤ℤ◌, ◌<ℤ◌};
ghost use Rattle.integers.specs.Vectors.{vector, IsWithin};
ghost use Rattle.vecdim.specs.Stairs.{stairs, IsReducedStair, HasStairShape, IsWhole};
ghost use Rattle.connected_dim.specs.Sparse.{IsComplement, IsThirdDual, IsDual};

use vecdim::{Staircase, Triple};

/// The rows (first_x, first_y, first_z), (0, second_y, second_z) and (0, 0, third_z) of a staircase,
/// as plain numbers; in dimension 2 the last is (0, 0, 1).
#[derive(Clone, Copy)]
pub struct Rows {
    pub first_x: i128,
    pub first_y: i128,
    pub first_z: i128,
    pub second_y: i128,
    pub second_z: i128,
    pub third_z: i128,
}

/// The first pivot above 1, and a vector whose products with the members are multiples of it.
#[derive(Drop)]
pub struct Dual {
    pub q: i128,
    pub c: Triple,
}

// -b modulo q, for b from 0 to below q.
fn complement(b: i128, q: i128) -> i128
    requires from { pos 0 ≤ℤ b }
    requires to { b <ℤ q }
    requires small { q ≤ℤ pos (2 ^ 60) }
    ensures complement { IsComplement q b result }
    ensures within { unsigned_abs result ≤ 2 ^ 60 }
{
    if b == 0 {
        return 0;
    }
    q - b
}

// At the first place.
fn first_dual(r: Rows) -> Dual
    requires { pos 2 ≤ℤ r.first_x }
    ensures q { result.q ≡ r.first_x }
    ensures c { result.c ≡ vector (pos 1) (pos 0) (pos 0) }
    ensures within { IsWithin (2 ^ 60) result.c }
{
    Dual {
        q: r.first_x,
        c: Triple { x: 1, y: 0, z: 0 },
    }
}

// At the second.
fn second_dual(r: Rows) -> Dual
    requires reduced { IsReducedStair (stairs r.first_x r.first_y r.first_z r.second_y r.second_z
        r.third_z) }
    requires small { r.second_y ≤ℤ pos (2 ^ 60) }
    ensures q { result.q ≡ r.second_y }
    ensures x { IsComplement r.second_y r.first_y result.c.x }
    ensures y { result.c.y ≡ pos 1 }
    ensures z { result.c.z ≡ pos 0 }
    ensures within { IsWithin (2 ^ 60) result.c }
{
    let x = complement(r.first_y, r.second_y);
    Dual {
        q: r.second_y,
        c: Triple { x, y: 1, z: 0 },
    }
}

// At the third.
fn third_dual(r: Rows) -> Dual
    requires reduced { IsReducedStair (stairs r.first_x r.first_y r.first_z r.second_y r.second_z
        r.third_z) }
    requires small { r.third_z ≤ℤ pos (2 ^ 60) }
    ensures q { result.q ≡ r.third_z }
    ensures x { IsComplement r.third_z r.first_z result.c.x }
    ensures y { IsComplement r.third_z r.second_z result.c.y }
    ensures z { result.c.z ≡ pos 1 }
    ensures within { IsWithin (2 ^ 60) result.c }
{
    let x = complement(r.first_z, r.third_z);
    let y = complement(r.second_z, r.third_z);
    Dual {
        q: r.third_z,
        c: Triple { x, y, z: 1 },
    }
}

// The rows of a staircase.
fn rows_in<const D: usize>(s: &Staircase<D>) -> Rows
    requires dimension { (D ≡ 2) ⊎ (D ≡ 3) }
    ensures rows { stairs result.first_x result.first_y result.first_z result.second_y
        result.second_z result.third_z ≡ s.now }
    ensures stair { HasStairShape D s.now }
    ensures small_x { result.first_x ≤ℤ pos (2 ^ 60) }
    ensures small_y { result.second_y ≤ℤ pos (2 ^ 60) }
    ensures small_z { result.third_z ≤ℤ pos (2 ^ 60) }
{
    let rows = s.rows();
    let first = rows[0];
    let second = rows[1];
    let last = if D == 2 { 1 } else { s.pivots().z };
    Rows {
        first_x: first.x,
        first_y: first.y,
        first_z: first.z,
        second_y: second.y,
        second_z: second.z,
        third_z: last,
    }
}

// The third pivot if it is above 1; the others are 1.
fn last_dual(r: Rows) -> Option<Dual>
    requires reduced { IsReducedStair (stairs r.first_x r.first_y r.first_z r.second_y r.second_z
        r.third_z) }
    requires small { r.third_z ≤ℤ pos (2 ^ 60) }
    requires first { r.first_x ≡ pos 1 }
    requires second { r.second_y ≡ pos 1 }
    ensures dual { IfSome result (λ d. IsThirdDual (stairs r.first_x r.first_y r.first_z r.second_y
        r.second_z r.third_z) d.q d.c) }
    ensures above { IfSome result (λ d. pos 2 ≤ℤ d.q) }
    ensures small { IfSome result (λ d. d.q ≤ℤ pos (2 ^ 60)) }
    ensures within { IfSome result (λ d. IsWithin (2 ^ 60) d.c) }
    ensures none { result ≡ None → r.third_z ≡ pos 1 }
{
    if r.third_z > 1 {
        return Some(third_dual(r));
    }
    None
}

// The first pivot above 1.
fn dual_of(r: Rows) -> Option<Dual>
    requires reduced { IsReducedStair (stairs r.first_x r.first_y r.first_z r.second_y r.second_z
        r.third_z) }
    requires small_x { r.first_x ≤ℤ pos (2 ^ 60) }
    requires small_y { r.second_y ≤ℤ pos (2 ^ 60) }
    requires small_z { r.third_z ≤ℤ pos (2 ^ 60) }
    ensures dual { IfSome result (λ d. IsDual (stairs r.first_x r.first_y r.first_z r.second_y
        r.second_z r.third_z) d.q d.c) }
    ensures above { IfSome result (λ d. pos 2 ≤ℤ d.q) }
    ensures small { IfSome result (λ d. d.q ≤ℤ pos (2 ^ 60)) }
    ensures within { IfSome result (λ d. IsWithin (2 ^ 60) d.c) }
    ensures none { result ≡ None → IsWhole (stairs r.first_x r.first_y r.first_z r.second_y
        r.second_z r.third_z) }
{
    if r.first_x > 1 {
        return Some(first_dual(r));
    }
    if r.second_y > 1 {
        return Some(second_dual(r));
    }
    last_dual(r)
}

/// The first pivot above 1 of a staircase.
pub fn first_dual_of<const D: usize>(s: &Staircase<D>) -> Option<Dual>
    requires dimension { (D ≡ 2) ⊎ (D ≡ 3) }
    ensures dual { IfSome result (λ d. IsDual s.now d.q d.c) }
    ensures above { IfSome result (λ d. pos 2 ≤ℤ d.q) }
    ensures within { IfSome result (λ d. IsWithin (2 ^ 60) d.c) }
    ensures small { IfSome result (λ d. d.q ≤ℤ pos (2 ^ 60)) }
    ensures none { result ≡ None → IsWhole s.now }
    ensures stair { HasStairShape D s.now }
{
    dual_of(rows_in(s))
}
