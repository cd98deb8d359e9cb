// Whole numbers as natural numbers, and small ones divided.
ghost use Rattle.std.specs.Prelude.{◌≡◌, ◌≤◌, ◌^◌, ◌≤ℤ◌, ◌<ℤ◌, ◌+ℤ◌, ◌*ℤ◌, pos, unsigned_abs};

use vecdim::Division;

/// A number from 0 on.
pub fn natural(z: i128) -> usize
    requires from { pos 0 ≤ℤ z }
    requires to { z ≤ℤ pos (2 ^ 60) }
    ensures { pos result ≡ z }
{
    z as usize
}

// The quotient of small numbers, rounded down, and the rest.
fn divide(z: i32, m: i32) -> Division
    requires m { pos 0 <ℤ m }
    requires z { unsigned_abs z ≤ 2 ^ 19 }
    ensures from { pos 0 ≤ℤ result.rest }
    ensures to { result.rest <ℤ m }
    ensures same { z ≡ result.rest +ℤ m *ℤ result.quotient }
    ensures small { unsigned_abs result.quotient ≤ 2 ^ 19 }
{
    let quotient = z.div_euclid(m);
    let rest = z.rem_euclid(m);
    Division {
        quotient: i128::from(quotient),
        rest: i128::from(rest),
    }
}

/// A small number as a multiple of m and a rest from 0 to below m. In 32 bits.
pub fn split_small(z: i128, m: u32) -> Division
    requires from { 1 ≤ m }
    requires to { m ≤ 2 ^ 20 }
    requires z { unsigned_abs z ≤ 2 ^ 19 }
    ensures from { pos 0 ≤ℤ result.rest }
    ensures to { result.rest <ℤ pos m }
    ensures same { z ≡ result.rest +ℤ pos m *ℤ result.quotient }
    ensures small { unsigned_abs result.quotient ≤ 2 ^ 19 }
{
    divide(z as i32, m as i32)
}
