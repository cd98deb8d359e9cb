// Sums, differences and multiples of vectors.
ghost use Rattle.std.specs.Prelude.{◌≡◌, ◌≤◌, ◌^◌, ◌+ℤ◌, unsigned_abs};

use crate::arithmetic::{difference, exact_product, negative, sum};
use crate::{Shift, Triple, Vect};

// The sum of two parts of shifts.
fn sum_of_shift_parts(a: i32, b: i32) -> i32
    requires a { unsigned_abs a ≤ 2 ^ 29 }
    requires b { unsigned_abs b ≤ 2 ^ 29 }
    ensures { result ≡ a +ℤ b }
{
    a + b
}

impl<const D: usize> Shift<D> {
    ghost use Rattle.std.specs.Prelude.{◌≡◌, ◌^◌};
    ghost use Rattle.integers.specs.Vectors.{plus, IsWithin};

    /// The sum.
    pub fn plus(&self, other: &Shift<D>) -> Shift<D>
        requires left { IsWithin (2 ^ 29) self.now }
        requires right { IsWithin (2 ^ 29) other.now }
        ensures { result ≡ plus self.now other.now }
    {
        Shift {
            x: sum_of_shift_parts(self.x, other.x),
            y: sum_of_shift_parts(self.y, other.y),
            z: sum_of_shift_parts(self.z, other.z),
        }
    }
}

impl Triple {
    ghost use Rattle.std.specs.Prelude.{◌≡◌, ℕ, ◌≤◌, ◌+◌, ◌*◌, ◌^◌, unsigned_abs};
    ghost use Rattle.integers.specs.Vectors.{plus, minus, opposite, times, IsWithin};

    /// The sum.
    pub fn plus(&self, other: &Triple) -> Triple
        requires left { IsWithin (2 ^ 125) self.now }
        requires right { IsWithin (2 ^ 125) other.now }
        ensures value { result ≡ plus self.now other.now }
        ensures within { (m n : ℕ) → IsWithin m self.now → IsWithin n other.now
            → IsWithin (m + n) result }
    {
        Triple {
            x: sum(self.x, other.x),
            y: sum(self.y, other.y),
            z: sum(self.z, other.z),
        }
    }

    /// The difference.
    pub fn minus(&self, other: &Triple) -> Triple
        requires left { IsWithin (2 ^ 125) self.now }
        requires right { IsWithin (2 ^ 125) other.now }
        ensures value { result ≡ minus self.now other.now }
        ensures within { (m n : ℕ) → IsWithin m self.now → IsWithin n other.now
            → IsWithin (m + n) result }
    {
        Triple {
            x: difference(self.x, other.x),
            y: difference(self.y, other.y),
            z: difference(self.z, other.z),
        }
    }

    /// The opposite.
    pub fn opposite(&self) -> Triple
        requires { IsWithin (2 ^ 126) self.now }
        ensures value { result ≡ opposite self.now }
        ensures within { (n : ℕ) → IsWithin n self.now → IsWithin n result }
    {
        Triple {
            x: negative(self.x),
            y: negative(self.y),
            z: negative(self.z),
        }
    }

    /// The vector taken `k` times.
    pub fn times(&self, k: i128) -> Triple
        requires { IsWithin (2 ^ 126) (times k self.now) }
        ensures value { result ≡ times k self.now }
        ensures within { (m n : ℕ) → unsigned_abs k ≤ m → IsWithin n self.now
            → IsWithin (m * n) result }
    {
        Triple {
            x: exact_product(k, self.x),
            y: exact_product(k, self.y),
            z: exact_product(k, self.z),
        }
    }
}

impl<const D: usize> Vect<D> {
    ghost use Rattle.std.specs.Prelude.{◌≡◌, ℕ, ◌≤◌, ◌+◌, ◌^◌};
    ghost use Rattle.integers.specs.Vectors.{plus, minus, opposite, IsWithin};

    /// The sum.
    pub fn plus(&self, other: &Vect<D>) -> Vect<D>
        requires left { IsWithin (2 ^ 60) self.now }
        requires right { IsWithin (2 ^ 60) other.now }
        ensures value { result ≡ plus self.now other.now }
        ensures within { (m n : ℕ) → IsWithin m self.now → IsWithin n other.now
            → IsWithin (m + n) result }
    {
        self.to_triple().plus(&other.to_triple()).to_vector()
    }

    /// The difference.
    pub fn minus(&self, other: &Vect<D>) -> Vect<D>
        requires left { IsWithin (2 ^ 60) self.now }
        requires right { IsWithin (2 ^ 60) other.now }
        ensures value { result ≡ minus self.now other.now }
        ensures within { (m n : ℕ) → IsWithin m self.now → IsWithin n other.now
            → IsWithin (m + n) result }
    {
        self.to_triple().minus(&other.to_triple()).to_vector()
    }

    /// The opposite.
    pub fn opposite(&self) -> Vect<D>
        ensures value { result ≡ opposite self.now }
        ensures within { (n : ℕ) → IsWithin n self.now → IsWithin n result }
    {
        self.to_triple().opposite().to_vector()
    }
}
