// Closed walks whose shifts are independent.
ghost use Rattle.std.specs.Prelude.{◌≡◌, ◌≢◌, ◌↔◌, ◌*◌, pos, None, All, Contains, IfSome, IsTrue, not};
ghost use Rattle.integers.specs.Vectors.{zero_vector, cross, dot, HasDimension, IsWithin};
ghost use Rattle.periodic_net.specs.Limits.{most_closed};
ghost use Rattle.standard_map.specs.CellBounds.{most_minor};
ghost use Rattle.standard_map.specs.Turns.{AreFull, AreIndependentTurns};

use crate::Cells;
use crate::turns::Turn;
use vecdim::{Triple, Vect};

/// Three shifts of closed walks, and what they are carried to.
#[derive(Clone, Copy)]
pub struct Carried {
    pub shifts: Cells,
    pub images: Cells,
}

// The first turn whose shift is not 0.
fn first_some<const D: usize>(turns: &[Turn<D>]) -> Option<Turn<D>>
    ensures found { IfSome result (Contains turns.now) }
    ensures some { IfSome result (λ t. t.shift ≢ zero_vector) }
    ensures none { result ≡ None → All (λ t. t.shift ≡ zero_vector) turns.now }
{
    turns.iter().copied().find(
        |turn| -> bool
            ensures { IsTrue (not result) ↔ (turn.now.shift ≡ zero_vector) }
        { !turn.shift.is_zero() },
    )
}

// The first turn whose shift is not on the line of v.
fn first_apart<const D: usize>(turns: &[Turn<D>], v: &Vect<D>) -> Option<Turn<D>>
    ensures found { IfSome result (Contains turns.now) }
    ensures some { IfSome result (λ t. cross v.now t.shift ≢ zero_vector) }
    ensures none { result ≡ None → All (λ t. cross v.now t.shift ≡ zero_vector) turns.now }
{
    turns.iter().copied().find(
        |turn| -> bool
            ensures { IsTrue (not result) ↔ (cross v.entry.now turn.now.shift ≡ zero_vector) }
        { !v.is_parallel(&turn.shift) },
    )
}

// The first turn whose shift is not orthogonal to c.
fn first_off<const D: usize>(turns: &[Turn<D>], c: &Triple) -> Option<Turn<D>>
    requires small { All (λ t. IsWithin most_closed t.shift) turns.now }
    requires c { IsWithin most_minor c.now }
    ensures found { IfSome result (Contains turns.now) }
    ensures some { IfSome result (λ t. dot c.now t.shift ≢ pos 0) }
    ensures none { result ≡ None → All (λ t. dot c.now t.shift ≡ pos 0) turns.now }
{
    turns.iter().copied().find(
        |turn| -> bool
            requires small { IsWithin most_closed turn.now.shift }
            requires c { IsWithin most_minor c.now }
            ensures { IsTrue (not result) ↔ (dot c.entry.now turn.now.shift ≡ pos 0) }
        { !turn.shift.is_orthogonal(c) },
    )
}

// The cross product of two shifts.
fn normal<const D: usize>(a: &Vect<D>, b: &Vect<D>) -> Triple
    requires a { IsWithin most_closed a.now }
    requires b { IsWithin most_closed b.now }
    ensures value { result ≡ cross a.now b.now }
    ensures within { IsWithin most_minor result }
{
    a.to_triple().cross(&b.to_triple())
}

// Two turns, and a third one.
fn three<const D: usize>(a: &Turn<D>, b: &Turn<D>, shift: Triple, image: Triple) -> Carried
    ensures first { result.shifts.first ≡ a.now.shift }
    ensures second { result.shifts.second ≡ b.now.shift }
    ensures third { result.shifts.third ≡ shift }
    ensures first_image { result.images.first ≡ a.now.image }
    ensures second_image { result.images.second ≡ b.now.image }
    ensures third_image { result.images.third ≡ image }
    ensures first_dimension { HasDimension D a.now.shift }
    ensures second_dimension { HasDimension D b.now.shift }
{
    Carried {
        shifts: Cells {
            first: a.shift.to_triple(),
            second: b.shift.to_triple(),
            third: shift,
        },
        images: Cells {
            first: a.image.to_triple(),
            second: b.image.to_triple(),
            third: image,
        },
    }
}

// Two turns that are not on one line, with a third one that is not in their plane; in dimension 2
// the third is (0, 0, 1).
fn with_third<const D: usize>(turns: &[Turn<D>], a: &Turn<D>, b: &Turn<D>) -> Carried
    requires small { All (λ t. IsWithin most_closed t.shift) turns.now }
    requires full { AreFull D turns.now }
    requires a { Contains turns.now a.now }
    requires b { Contains turns.now b.now }
    requires apart { cross a.now.shift b.now.shift ≢ zero_vector }
    ensures { AreIndependentTurns D turns.now result.shifts result.images }
{
    if D == 2 {
        let up = Triple { x: 0, y: 0, z: 1 };
        return three(a, b, up, Triple { x: 0, y: 0, z: 0 });
    }
    match first_off(turns, &normal(&a.shift, &b.shift)) {
        Some(t) => three(a, b, t.shift.to_triple(), t.image.to_triple()),
        None => unreachable!(),
    }
}

// Independent turns, of which a is the first.
fn with_second<const D: usize>(turns: &[Turn<D>], a: &Turn<D>) -> Carried
    requires small { All (λ t. IsWithin most_closed t.shift) turns.now }
    requires full { AreFull D turns.now }
    requires a { Contains turns.now a.now }
    requires some { a.now.shift ≢ zero_vector }
    ensures { AreIndependentTurns D turns.now result.shifts result.images }
{
    match first_apart(turns, &a.shift) {
        Some(b) => with_third(turns, a, &b),
        None => unreachable!(),
    }
}

/// Independent turns.
pub fn independent<const D: usize>(turns: &[Turn<D>]) -> Carried
    requires small { All (λ t. IsWithin most_closed t.shift) turns.now }
    requires full { AreFull D turns.now }
    ensures { AreIndependentTurns D turns.now result.shifts result.images }
{
    match first_some(turns) {
        Some(a) => with_second(turns, &a),
        None => unreachable!(),
    }
}
