// Shifts, triples of coordinates, and vectors.
use std::cmp::Ordering;
use std::marker::Model;

/// A shift of a net of dimension `D`, in lattice steps; in dimension 2 the part `z` is 0.
#[derive(Clone, Copy, Debug, Default, PartialEq, Eq, PartialOrd, Ord)]
pub struct Shift<const D: usize> {
    pub x: i32,
    pub y: i32,
    pub z: i32,
}

impl<const D: usize> Model for Shift<D> {
    ghost use Rattle.integers.specs.Vectors.{Vector, vector, HasDimension};

    ghost Value = { Vector };

    ghost view = { λ s. vector s.x s.y s.z };

    ghost invariant = { λ s. HasDimension D (vector s.x s.y s.z) };

    ghost inverse = { λ v. record { x = v.x; y = v.y; z = v.z } };
}

impl<const D: usize> Shift<D> {
    ghost use Rattle.std.specs.Prelude.{◌≡◌, ◌↔◌, ◌^◌, IsTrue};
    ghost use Rattle.std.specs.Ordering.{int_cmp};
    ghost use Rattle.std.specs.Cmp.Lexicographic.{slice_cmp};
    ghost use Rattle.integers.specs.Vectors.{zero_vector, parts, HasDimension, IsWithin};

    /// The vector with these parts.
    pub fn to_vector(&self) -> Vect<D>
        ensures value { result ≡ self.now }
        ensures within { IsWithin (2 ^ 31) result }
    {
        Vect {
            x: i128::from(self.x),
            y: i128::from(self.y),
            z: i128::from(self.z),
        }
    }

    /// The coordinates.
    pub fn to_triple(&self) -> Triple
        ensures value { result ≡ self.now }
        ensures within { IsWithin (2 ^ 31) result }
        ensures dimension { HasDimension D result }
    {
        Triple {
            x: i128::from(self.x),
            y: i128::from(self.y),
            z: i128::from(self.z),
        }
    }

    /// Whether all parts are 0.
    pub fn is_zero(&self) -> bool
        ensures { IsTrue result ↔ (self.now ≡ zero_vector) }
    {
        self.x == 0 && self.y == 0 && self.z == 0
    }

    /// Which of two stands first, by the first part in which they differ.
    pub fn compare(&self, other: &Shift<D>) -> Ordering
        ensures { result ≡ slice_cmp int_cmp (parts 3 self.now) (parts 3 other.now) }
    {
        self.cmp(other)
    }
}

/// Coordinates, whatever the dimension.
#[derive(Clone, Copy, Debug, Default, PartialEq, Eq, PartialOrd, Ord)]
pub struct Triple {
    pub x: i128,
    pub y: i128,
    pub z: i128,
}

impl Model for Triple {
    ghost use Rattle.integers.specs.Vectors.{Vector, vector};

    ghost Value = { Vector };

    ghost view = { λ t. vector t.x t.y t.z };

    ghost inverse = { λ v. record { x = v.x; y = v.y; z = v.z } };
}

impl Triple {
    ghost use Rattle.std.specs.Prelude.{◌≡◌, ◌↔◌, ◌^◌, IsTrue};
    ghost use Rattle.std.specs.Ordering.{int_cmp};
    ghost use Rattle.std.specs.Cmp.Lexicographic.{slice_cmp};
    ghost use Rattle.integers.specs.Vectors.{zero_vector, parts, HasDimension, IsWithin, StartsPositive};

    /// The vector of these coordinates.
    pub fn to_vector<const D: usize>(&self) -> Vect<D>
        requires within { IsWithin (2 ^ 61) self.now }
        requires dimension { HasDimension D self.now }
        ensures { result ≡ self.now }
    {
        Vect {
            x: self.x,
            y: self.y,
            z: self.z,
        }
    }

    /// Whether all coordinates are 0.
    pub fn is_zero(&self) -> bool
        ensures { IsTrue result ↔ (self.now ≡ zero_vector) }
    {
        self.x == 0 && self.y == 0 && self.z == 0
    }

    /// Which of two stands first, by the first coordinate in which they differ.
    pub fn compare(&self, other: &Triple) -> Ordering
        ensures { result ≡ slice_cmp int_cmp (parts 3 self.now) (parts 3 other.now) }
    {
        self.cmp(other)
    }

    /// Whether the first coordinate other than 0 is positive.
    pub fn starts_positive(&self) -> bool
        ensures { IsTrue result ↔ StartsPositive self.now }
    {
        *self > Triple { x: 0, y: 0, z: 0 }
    }

    /// Whether no coordinate is greater than `most`, as an absolute value.
    pub fn is_within(&self, most: u64) -> bool
        ensures { IsTrue result ↔ IsWithin most self.now }
    {
        let most = u128::from(most);
        self.x.unsigned_abs() <= most
            && self.y.unsigned_abs() <= most
            && self.z.unsigned_abs() <= most
    }
}

/// A vector of dimension `D`, with parts of absolute value at most 2^61; in dimension 2 the part
/// `z` is 0.
#[derive(Clone, Copy, Debug, Default, PartialEq, Eq, PartialOrd, Ord)]
pub struct Vect<const D: usize> {
    pub x: i128,
    pub y: i128,
    pub z: i128,
}

impl<const D: usize> Model for Vect<D> {
    ghost use Rattle.std.specs.Prelude.{◌^◌};
    ghost use Rattle.integers.specs.Vectors.{Vector, vector, HasDimension, IsWithin};

    ghost Value = { Vector };

    ghost view = { λ v. vector v.x v.y v.z };

    ghost invariant = { λ v. IsWithin (2 ^ 61) (vector v.x v.y v.z)
        × HasDimension D (vector v.x v.y v.z) };

    ghost inverse = { λ v. record { x = v.x; y = v.y; z = v.z } };
}

impl<const D: usize> Vect<D> {
    ghost use Rattle.std.specs.Prelude.{◌≡◌, ◌↔◌, ◌^◌, IsTrue};
    ghost use Rattle.std.specs.Ordering.{int_cmp};
    ghost use Rattle.std.specs.Cmp.Lexicographic.{slice_cmp};
    ghost use Rattle.integers.specs.Vectors.{zero_vector, parts, HasDimension, IsWithin};

    /// The coordinates.
    pub fn to_triple(&self) -> Triple
        ensures value { result ≡ self.now }
        ensures within { IsWithin (2 ^ 61) result }
        ensures dimension { HasDimension D result }
    {
        Triple {
            x: self.x,
            y: self.y,
            z: self.z,
        }
    }

    /// Whether all parts are 0.
    pub fn is_zero(&self) -> bool
        ensures { IsTrue result ↔ (self.now ≡ zero_vector) }
    {
        self.x == 0 && self.y == 0 && self.z == 0
    }

    /// Which of two stands first, by the first part in which they differ.
    pub fn compare(&self, other: &Vect<D>) -> Ordering
        ensures { result ≡ slice_cmp int_cmp (parts 3 self.now) (parts 3 other.now) }
    {
        self.cmp(other)
    }
}
