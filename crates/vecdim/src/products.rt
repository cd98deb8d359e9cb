// Products of vectors, and their independence.
ghost use Rattle.std.specs.Prelude.{[], ◌∷◌, ℕ, pos, ◌≡◌, ◌≢◌, ◌↔◌, ◌-ℤ◌, ◌*ℤ◌, ◌*◌, ◌≤◌, ◌^◌, All, IsTrue, length, unsigned_abs};
ghost use Rattle.integers.specs.Vectors.{triple_product, AreIndependent, IsWithin};

use crate::arithmetic::{minor, product, sum_of_three};
use crate::{Triple, Vect};

impl Triple {
    ghost use Rattle.std.specs.Prelude.{◌≡◌, ℕ, ◌≤◌, ◌*◌, ◌^◌, unsigned_abs};
    ghost use Rattle.integers.specs.Vectors.{dot, cross, IsWithin};

    /// The cross product.
    pub fn cross(&self, other: &Triple) -> Triple
        requires left { IsWithin (2 ^ 62) self.now }
        requires right { IsWithin (2 ^ 62) other.now }
        ensures value { result ≡ cross self.now other.now }
        ensures within { (m n : ℕ) → IsWithin m self.now → IsWithin n other.now
            → IsWithin (2 * (m * n)) result }
    {
        Triple {
            x: minor(self.y, other.z, self.z, other.y),
            y: minor(self.z, other.x, self.x, other.z),
            z: minor(self.x, other.y, self.y, other.x),
        }
    }

    /// The product of a vector with a shorter one.
    pub fn dot(&self, other: &Triple) -> i128
        requires left { IsWithin (2 ^ 84) self.now }
        requires right { IsWithin (2 ^ 41) other.now }
        ensures value { result ≡ dot self.now other.now }
        ensures within { (m n : ℕ) → IsWithin m self.now → IsWithin n other.now
            → unsigned_abs result ≤ 3 * (m * n) }
    {
        let x = product(self.x, other.x);
        let y = product(self.y, other.y);
        let z = product(self.z, other.z);
        sum_of_three(x, y, z)
    }
}

impl<const D: usize> Vect<D> {
    ghost use Rattle.std.specs.Prelude.{◌≡◌, ◌↔◌, ◌^◌, pos, IsTrue};
    ghost use Rattle.integers.specs.Vectors.{cross, dot, zero_vector, IsWithin};

    /// Whether both are on one line through 0.
    pub fn is_parallel(&self, other: &Vect<D>) -> bool
        ensures { IsTrue result ↔ (cross self.now other.now ≡ zero_vector) }
    {
        self.to_triple().cross(&other.to_triple()).is_zero()
    }

    /// Whether the vector is orthogonal to `c`.
    pub fn is_orthogonal(&self, c: &Triple) -> bool
        requires vector { IsWithin (2 ^ 41) self.now }
        requires c { IsWithin (2 ^ 84) c.now }
        ensures { IsTrue result ↔ (dot c.now self.now ≡ pos 0) }
    {
        c.dot(&self.to_triple()) == 0
    }
}

/// The triple product of vectors of any dimension.
pub fn product_of_three(a: &Triple, b: &Triple, c: &Triple) -> i128
    requires a { IsWithin (2 ^ 41) a.now }
    requires b { IsWithin (2 ^ 41) b.now }
    requires c { IsWithin (2 ^ 41) c.now }
    ensures value { result ≡ triple_product a.now b.now c.now }
    ensures within { (l m n : ℕ) → IsWithin l a.now → IsWithin m b.now → IsWithin n c.now
        → unsigned_abs result ≤ 3 * (l * (2 * (m * n))) }
{
    b.cross(c).dot(a)
}

// The triple product of vectors in memory.
fn product_of_vectors<const D: usize>(a: &Vect<D>, b: &Vect<D>, c: &Vect<D>) -> i128
    requires a { IsWithin (2 ^ 40) a.now }
    requires b { IsWithin (2 ^ 40) b.now }
    requires c { IsWithin (2 ^ 40) c.now }
    ensures { result ≡ triple_product a.now b.now c.now }
{
    product_of_three(&a.to_triple(), &b.to_triple(), &c.to_triple())
}

/// The cross product of two flat vectors.
pub fn cross(a: &Vect<2>, b: &Vect<2>) -> i128
    ensures { result ≡ a.now.x *ℤ b.now.y -ℤ a.now.y *ℤ b.now.x }
{
    a.to_triple().cross(&b.to_triple()).z
}

/// The triple product.
pub fn triple(a: &Vect<3>, b: &Vect<3>, c: &Vect<3>) -> i128
    requires a { IsWithin (2 ^ 40) a.now }
    requires b { IsWithin (2 ^ 40) b.now }
    requires c { IsWithin (2 ^ 40) c.now }
    ensures { result ≡ triple_product a.now b.now c.now }
{
    product_of_vectors(a, b, c)
}

// Whether a number is not 0.
fn is_not_zero(x: i128) -> bool
    ensures { IsTrue result ↔ (x ≢ pos 0) }
{
    x != 0
}

// Whether a vector is not 0.
fn one_independent<const D: usize>(a: &Vect<D>) -> bool
    ensures { IsTrue result ↔ AreIndependent (a.now ∷ []) }
{
    !a.is_zero()
}

// Whether two vectors are not on one line.
fn two_independent<const D: usize>(a: &Vect<D>, b: &Vect<D>) -> bool
    ensures { IsTrue result ↔ AreIndependent (a.now ∷ b.now ∷ []) }
{
    !a.is_parallel(b)
}

// Whether three vectors are not in one plane.
fn three_independent<const D: usize>(a: &Vect<D>, b: &Vect<D>, c: &Vect<D>) -> bool
    requires a { IsWithin (2 ^ 40) a.now }
    requires b { IsWithin (2 ^ 40) b.now }
    requires c { IsWithin (2 ^ 40) c.now }
    ensures { IsTrue result ↔ AreIndependent (a.now ∷ b.now ∷ c.now ∷ []) }
{
    is_not_zero(product_of_vectors(a, b, c))
}

/// Whether no linear relation with whole coefficients, not all 0, makes 0 of the vectors.
pub fn independent<const D: usize>(v: &[Vect<D>]) -> bool
    requires few { length v.now ≤ 3 }
    requires small { All (IsWithin (2 ^ 40)) v.now }
    ensures { IsTrue result ↔ AreIndependent v.now }
{
    match v {
        [] => true,
        [a] => one_independent(a),
        [a, b] => two_independent(a, b),
        [a, b, c] => three_independent(a, b, c),
        _ => false,
    }
}
