// A vector divided by a stair of rows.
ghost use Rattle.std.specs.Prelude.{◌≡◌, ℕ, pos, ◌+ℤ◌, ◌-ℤ◌, ◌*ℤ◌, ◌≤ℤ◌, ◌<ℤ◌, ◌≤◌, ◌*◌, ◌^◌, unsigned_abs};
ghost use Rattle.integers.specs.Vectors.{IsWithin};
ghost use Rattle.vecdim.specs.Stairs.{stairs, IsReducedStair};
ghost use Rattle.vecdim.specs.Steps.{HasSmallPivots, HasRemainder};

use crate::Triple;
use crate::columns::Division;
use crate::insertion::Rows;

/// A number as a multiple of m, and a rest from 0 to below m.
pub fn split(z: i128, m: i128) -> Division
    requires { pos 0 <ℤ m }
    ensures from { pos 0 ≤ℤ result.rest }
    ensures to { result.rest <ℤ m }
    ensures same { z ≡ result.rest +ℤ m *ℤ result.quotient }
    ensures within { (n : ℕ) → unsigned_abs z ≤ n * unsigned_abs m
        → unsigned_abs result.quotient ≤ n }
    ensures small { unsigned_abs result.quotient ≤ unsigned_abs z }
{
    let quotient = z.div_euclid(m);
    let rest = z.rem_euclid(m);
    Division { quotient, rest }
}

// z - b·k.
fn less(z: i128, b: i128, k: i128) -> i128
    requires z { unsigned_abs z ≤ 2 ^ 125 }
    requires b { unsigned_abs b ≤ 2 ^ 60 }
    requires k { unsigned_abs k ≤ 2 ^ 61 }
    ensures { result ≡ z -ℤ b *ℤ k }
{
    z - b * k
}

// z - b·k, as a multiple of m and a rest.
fn split_less(z: i128, b: i128, k: i128, m: i128) -> Division
    requires z { unsigned_abs z ≤ 2 ^ 61 }
    requires k { unsigned_abs k ≤ 2 ^ 61 }
    requires b_from { pos 0 ≤ℤ b }
    requires b_to { b <ℤ m }
    requires m { m ≤ℤ pos (2 ^ 60) }
    ensures from { pos 0 ≤ℤ result.rest }
    ensures to { result.rest <ℤ m }
    ensures same { z -ℤ b *ℤ k ≡ result.rest +ℤ m *ℤ result.quotient }
    ensures within { (n : ℕ) → unsigned_abs z ≤ n → unsigned_abs k ≤ n
        → unsigned_abs result.quotient ≤ n }
    ensures small { unsigned_abs result.quotient ≤ 2 ^ 61 }
{
    split(less(z, b, k), m)
}

// z - c·k - f·l, as a multiple of m and a rest.
fn split_less_two(z: i128, c: i128, k: i128, f: i128, l: i128, m: i128) -> Division
    requires z { unsigned_abs z ≤ 2 ^ 61 }
    requires k { unsigned_abs k ≤ 2 ^ 61 }
    requires l { unsigned_abs l ≤ 2 ^ 61 }
    requires c_from { pos 0 ≤ℤ c }
    requires c_to { c <ℤ m }
    requires f_from { pos 0 ≤ℤ f }
    requires f_to { f <ℤ m }
    requires m { m ≤ℤ pos (2 ^ 60) }
    ensures from { pos 0 ≤ℤ result.rest }
    ensures to { result.rest <ℤ m }
    ensures same { (z -ℤ c *ℤ k) -ℤ f *ℤ l ≡ result.rest +ℤ m *ℤ result.quotient }
    ensures within { (n : ℕ) → unsigned_abs z ≤ n → unsigned_abs k ≤ n → unsigned_abs l ≤ n
        → unsigned_abs result.quotient ≤ 2 * n }
    ensures small { unsigned_abs result.quotient ≤ 2 ^ 62 }
{
    split(less(less(z, c, k), f, l), m)
}

// The multiples of the rows that a vector has, and what is left of it.
#[derive(Clone, Copy)]
pub(crate) struct Divided {
    pub(crate) quotients: Triple,
    pub(crate) rests: Triple,
}

// A vector divided by the rows.
pub(crate) fn divide_by(s: Rows, v: Triple) -> Divided
    requires reduced { IsReducedStair (stairs s.first_x s.first_y s.first_z s.second_y s.second_z
        s.third_z) }
    requires small { HasSmallPivots (stairs s.first_x s.first_y s.first_z s.second_y s.second_z
        s.third_z) }
    requires vector { IsWithin (2 ^ 61) v }
    ensures divided { HasRemainder (stairs s.first_x s.first_y s.first_z s.second_y s.second_z
        s.third_z) v
        result.quotients result.rests }
    ensures within { (n : ℕ) → IsWithin n v → IsWithin (2 * n) result.quotients }
    ensures small { IsWithin (2 ^ 60) result.rests }
{
    let x = split(v.x, s.first_x);
    let y = split_less(v.y, s.first_y, x.quotient, s.second_y);
    let z = split_less_two(
        v.z, s.first_z, x.quotient, s.second_z, y.quotient, s.third_z,
    );
    Divided {
        quotients: Triple {
            x: x.quotient,
            y: y.quotient,
            z: z.quotient,
        },
        rests: Triple {
            x: x.rest,
            y: y.rest,
            z: z.rest,
        },
    }
}
