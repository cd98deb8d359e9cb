// The remainders modulo a lattice, by their numbers.
ghost use Rattle.std.specs.Prelude.{◌≡◌, ◌≤◌, ◌<◌, ◌+◌, ◌*◌, ◌^◌, ℕ, pos, ◌≤ℤ◌, unsigned_abs};
ghost use Rattle.vecdim.specs.Stairs.{HasStairShape, IsRemainder, size_of};
ghost use Rattle.sublattice.specs.Remainders.{HasNumber, remainder_with};
ghost use Rattle.sublattice.specs.Digits.{HasDigits};

use vecdim::{Staircase, Vect};

// A number from 0 on.
fn natural(z: i128) -> u64
    requires from { pos 0 ≤ℤ z }
    requires to { z ≤ℤ pos (2 ^ 60) }
    ensures { pos result ≡ z }
{
    z as u64
}

// The second and the third pivot.
#[derive(Clone, Copy)]
struct Pivots {
    second: u64,
    third: u64,
}

fn pivots_of<const D: usize>(lattice: &Staircase<D>) -> Pivots
    ensures second { result.second ≡ unsigned_abs lattice.now.second_y }
    ensures third { result.third ≡ unsigned_abs lattice.now.third_z }
    ensures stair { HasStairShape D lattice.now }
{
    let pivots = lattice.pivots();
    let third = if D == 2 { 1 } else { pivots.z };
    Pivots {
        second: natural(pivots.y),
        third: natural(third),
    }
}

// The parts of a remainder.
#[derive(Clone, Copy)]
struct Digits {
    first: u64,
    second: u64,
    third: u64,
}

fn digits_of<const D: usize>(lattice: &Staircase<D>, v: &Vect<D>) -> Digits
    ensures { HasDigits D lattice.now v.now result.first result.second result.third }
{
    lattice.pivots();
    let rest = lattice.remainder(v);
    Digits {
        first: natural(rest.x),
        second: natural(rest.y),
        third: natural(rest.z),
    }
}

// The number with these digits: first·(e·i) + second·i + third.
fn mixed(digits: Digits, e: u64, i: u64) -> u64
    requires first { digits.first ≤ 2 ^ 20 }
    requires second { digits.second ≤ 2 ^ 20 }
    requires third { digits.third ≤ 2 ^ 20 }
    requires e { e ≤ 2 ^ 20 }
    requires i { i ≤ 2 ^ 20 }
    ensures { result ≡ digits.first * (e * i) + (digits.second * i + digits.third) }
{
    digits.first * (e * i) + (digits.second * i + digits.third)
}

/// The number of the remainder of a vector: its place among all remainders, in rising order,
/// counted from 0.
pub fn remainder_number<const D: usize>(lattice: &Staircase<D>, v: &Vect<D>) -> u64
    requires { size_of lattice.now ≤ 2 ^ 20 }
    ensures number { HasNumber D lattice.now v.now result }
    ensures below { result < size_of lattice.now }
{
    let pivots = pivots_of(lattice);
    mixed(digits_of(lattice, v), pivots.second, pivots.third)
}

/// The remainder with a number.
pub fn remainder_at<const D: usize>(lattice: &Staircase<D>, number: u64) -> Vect<D>
    requires few { size_of lattice.now ≤ 2 ^ 20 }
    requires below { number < size_of lattice.now }
    ensures value { result ≡ remainder_with lattice.now number }
    ensures remainder { IsRemainder D lattice.now result }
{
    let pivots = pivots_of(lattice);
    let side = pivots.second * pivots.third;
    let rest = number % side;
    Vect {
        x: i128::from(number / side),
        y: i128::from(rest / pivots.third),
        z: i128::from(rest % pivots.third),
    }
}
