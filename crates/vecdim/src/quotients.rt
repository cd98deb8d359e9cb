// Vectors modulo a number, and divided by a divisor of their parts.
ghost use Rattle.std.specs.Prelude.{◌≡◌, ◌≤◌, ℤ, pos, ◌+ℤ◌, ◌*ℤ◌, ◌≤ℤ◌, ◌<ℤ◌, unsigned_abs};

use crate::arithmetic::negative;
use crate::{Triple, Vect};

/// z, brought between 0 and m by multiples of m.
pub fn modulo(z: i128, m: i128) -> i128
    requires m { pos 0 <ℤ m }
    ensures from { pos 0 ≤ℤ result }
    ensures to { result <ℤ m }
    ensures same { (k : ℤ) × (result ≡ z +ℤ m *ℤ k) }
{
    z.rem_euclid(m)
}

/// A number divided by a positive divisor of it.
pub fn quotient(a: i128, g: i128) -> i128
    requires positive { pos 0 <ℤ g }
    requires divides { (w : ℤ) × (a ≡ g *ℤ w) }
    ensures value { a ≡ g *ℤ result }
    ensures within { unsigned_abs result ≤ unsigned_abs a }
{
    a / g
}

impl Triple {
    ghost use Rattle.std.specs.Prelude.{◌≡◌, ◌≢◌, ℕ, ◌≤◌, ◌^◌, pos, ◌<ℤ◌, unsigned_abs};
    ghost use Rattle.integers.specs.Vectors.{Vector, times, IsModulo, IsWithin};

    /// The vector modulo `m`, part by part.
    pub fn modulo(&self, m: i128) -> Triple
        requires positive { pos 0 <ℤ m }
        requires vector { IsWithin (2 ^ 126) self.now }
        ensures { IsModulo m self.now result }
    {
        Triple {
            x: modulo(self.x, m),
            y: modulo(self.y, m),
            z: modulo(self.z, m),
        }
    }

    /// The vector divided by a positive divisor of its parts.
    pub fn over(&self, g: i128) -> Triple
        requires positive { pos 0 <ℤ g }
        requires vector { IsWithin (2 ^ 126) self.now }
        requires divides { (w : Vector) × (self.now ≡ times g w) }
        ensures value { self.now ≡ times g result }
        ensures within { (n : ℕ) → IsWithin n self.now → IsWithin n result }
    {
        Triple {
            x: quotient(self.x, g),
            y: quotient(self.y, g),
            z: quotient(self.z, g),
        }
    }

    /// The vector divided by a divisor of its parts, of either sign.
    pub fn divided_by(&self, g: i128) -> Triple
        requires some { g ≢ pos 0 }
        requires small { unsigned_abs g ≤ 2 ^ 126 }
        requires vector { IsWithin (2 ^ 126) self.now }
        requires divides { (w : Vector) × (self.now ≡ times g w) }
        ensures value { self.now ≡ times g result }
        ensures within { (n : ℕ) → IsWithin n self.now → IsWithin n result }
    {
        if g > 0 {
            return self.over(g);
        }
        let size = negative(g);
        self.opposite().over(size)
    }
}

impl<const D: usize> Vect<D> {
    ghost use Rattle.std.specs.Prelude.{◌≤◌, ◌^◌, pos, ◌<ℤ◌, unsigned_abs};
    ghost use Rattle.integers.specs.Vectors.{IsModulo};

    /// The vector modulo `m`, part by part.
    pub fn modulo(&self, m: i128) -> Vect<D>
        requires positive { pos 0 <ℤ m }
        requires small { unsigned_abs m ≤ 2 ^ 61 }
        ensures { IsModulo m self.now result }
    {
        self.to_triple().modulo(m).to_vector()
    }
}
