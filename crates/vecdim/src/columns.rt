// Euclid's algorithm on two rows, with the parts after the first kept modulo a bound.
ghost use Rattle.std.specs.Prelude.{◌≡◌, ℤ, pos, ◌+ℤ◌, ◌-ℤ◌, ◌*ℤ◌, ◌≤ℤ◌, ◌<ℤ◌, ◌^◌};
ghost use Rattle.integers.specs.Vectors.{vector};
ghost use Rattle.vecdim.specs.Steps.{Exchange, IsBoxed};

use crate::modulo;

/// A quotient and the rest.
#[derive(Clone, Copy)]
pub struct Division {
    pub quotient: i128,
    pub rest: i128,
}

// How often b goes into a, and what is left.
pub(crate) fn divide(a: i128, b: i128) -> Division
    requires a_from { pos 0 ≤ℤ a }
    requires b_from { pos 0 <ℤ b }
    ensures from { pos 0 ≤ℤ result.quotient }
    ensures to { result.quotient ≤ℤ a }
    ensures rest_from { pos 0 ≤ℤ result.rest }
    ensures rest_to { result.rest <ℤ b }
    ensures rest { result.rest ≡ a -ℤ result.quotient *ℤ b }
{
    let quotient = a.div_euclid(b);
    let rest = a.rem_euclid(b);
    Division { quotient, rest }
}

// a - q·b, brought between 0 and m by multiples of m.
pub(crate) fn less_times(a: i128, q: i128, b: i128, m: i128) -> i128
    requires m { pos 0 <ℤ m }
    requires m_to { m ≤ℤ pos (2 ^ 60) }
    requires a_from { pos 0 ≤ℤ a }
    requires a_to { a ≤ℤ m }
    requires b_from { pos 0 ≤ℤ b }
    requires b_to { b ≤ℤ m }
    requires q_from { pos 0 ≤ℤ q }
    requires q_to { q ≤ℤ m }
    ensures from { pos 0 ≤ℤ result }
    ensures to { result <ℤ m }
    ensures same { (k : ℤ) × (result ≡ a -ℤ q *ℤ b +ℤ m *ℤ k) }
{
    modulo(a - q * b, m)
}

// A row (x, y, z), as plain numbers.
#[derive(Clone, Copy)]
pub(crate) struct Line {
    pub(crate) x: i128,
    pub(crate) y: i128,
    pub(crate) z: i128,
}

// Two rows.
#[derive(Clone, Copy)]
pub(crate) struct Pair {
    pub(crate) upper: Line,
    pub(crate) lower: Line,
}

// The row `above` less as often `below` as its first part has that of `below`.
fn rest_of(above: Line, below: Line, m: i128) -> Line
    requires m { pos 0 <ℤ m }
    requires m_to { m ≤ℤ pos (2 ^ 60) }
    requires above { IsBoxed m (vector above.x above.y above.z) }
    requires below { IsBoxed m (vector below.x below.y below.z) }
    requires pivot { pos 0 <ℤ below.x }
    ensures less { result.x <ℤ below.x }
    ensures rest { IsBoxed m (vector result.x result.y result.z) }
    ensures same { Exchange m (vector above.x above.y above.z) (vector below.x below.y below.z)
        (vector below.x below.y below.z) (vector result.x result.y result.z) }
{
    let parts = divide(above.x, below.x);
    Line {
        x: parts.rest,
        y: less_times(above.y, parts.quotient, below.y, m),
        z: less_times(above.z, parts.quotient, below.z, m),
    }
}

// Euclid's steps on the first parts: two rows that generate the same, the second with 0 in front.
pub(crate) fn column(upper: Line, lower: Line, m: i128) -> Pair
    requires m { pos 0 <ℤ m }
    requires m_to { m ≤ℤ pos (2 ^ 60) }
    requires upper { IsBoxed m (vector upper.x upper.y upper.z) }
    requires lower { IsBoxed m (vector lower.x lower.y lower.z) }
    requires pivot { pos 0 <ℤ upper.x }
    ensures upper { IsBoxed m (vector result.upper.x result.upper.y result.upper.z) }
    ensures lower { IsBoxed m (vector (pos 0) result.lower.y result.lower.z) }
    ensures pivot { pos 0 <ℤ result.upper.x }
    ensures same { Exchange m (vector upper.x upper.y upper.z) (vector lower.x lower.y lower.z)
        (vector result.upper.x result.upper.y result.upper.z)
        (vector (pos 0) result.lower.y result.lower.z) }
{
    let mut above = upper;
    let mut below = lower;
    while below.x != 0 {
        let rest = rest_of(above, below, m);
        above = below;
        below = rest;
    }
    Pair {
        upper: above,
        lower: below,
    }
}
