// Lattices of full rank, by their staircase basis. It is the row Hermite normal form (Cohen, A
// Course in Computational Algebraic Number Theory, 1993, section 2.4).
ghost use Rattle.std.specs.Prelude.{[], ◌∷◌, ◌≡◌, ◌↔◌, ℕ, pos, ◌*◌, ◌≤ℤ◌, ◌<ℤ◌, ◌<◌, ◌≤◌, ◌^◌, All, IsTrue};
ghost use Rattle.integers.specs.Vectors.{vector, parts, minus, combination, HasDimension, IsWithin};
ghost use Rattle.integers.specs.Staircase.{IsStaircase, Spans, StaircasesAreOne};
ghost use Rattle.vecdim.specs.Stairs.{stairs, HasStairShape, HasFlatEnd, IsRemainder, IsWhole, rows_of, pivots_of, size_of};
ghost use Rattle.vecdim.specs.Lattices.{Members, AreMultiples, IsWith};
ghost use Rattle.vecdim.specs.Steps.{IsBoundedStair, HasRemainder};

use crate::division::{Divided, divide_by};
use crate::insertion::{Rows, insert_rows};
use crate::{Triple, Vect};
use std::marker::Model;

/// A lattice of full rank.
// The rows stand in it twice: as plain numbers to reckon with, and as vectors to lend.
#[derive(Debug, Drop)]
pub struct Staircase<const D: usize> {
    list: [Vect<D>; 3],
    rows: Rows,
    bound: i128,
}

impl<const D: usize> Model for Staircase<D> {
    ghost use Rattle.std.specs.Prelude.{◌≡◌, pos, ◌∷◌, [], ◌≤◌, cond, ◌==◌};
    ghost use Rattle.integers.specs.Vectors.{vector};
    ghost use Rattle.vecdim.specs.Stairs.{Stairs, stairs, HasFlatEnd};
    ghost use Rattle.vecdim.specs.Steps.{IsBoundedStair};

    ghost Value = { Stairs };

    ghost view = { λ t. stairs t.rows.first_x t.rows.first_y t.rows.first_z t.rows.second_y
        t.rows.second_z t.rows.third_z };

    ghost invariant = { λ t. (2 ≤ D) × (D ≤ 3)
        × (D ≡ 2 → HasFlatEnd (stairs t.rows.first_x t.rows.first_y t.rows.first_z t.rows.second_y
        t.rows.second_z t.rows.third_z))
        × IsBoundedStair t.bound (stairs t.rows.first_x t.rows.first_y t.rows.first_z
        t.rows.second_y t.rows.second_z t.rows.third_z)
        × (t.list ≡ vector t.rows.first_x t.rows.first_y t.rows.first_z ∷ vector (pos 0)
        t.rows.second_y t.rows.second_z
        ∷ vector (pos 0) (pos 0) (cond (D == 2) (pos 0) t.rows.third_z) ∷ []) };
}

// The staircase of these rows.
fn with_list<const D: usize>(rows: Rows, bound: i128) -> Staircase<D>
    requires two { 2 ≤ D }
    requires three { D ≤ 3 }
    requires flat { D ≡ 2 → HasFlatEnd (stairs rows.first_x rows.first_y rows.first_z rows.second_y
        rows.second_z rows.third_z) }
    requires kept { IsBoundedStair bound (stairs rows.first_x rows.first_y rows.first_z
        rows.second_y rows.second_z rows.third_z) }
    ensures { result ≡ stairs rows.first_x rows.first_y rows.first_z rows.second_y rows.second_z
        rows.third_z }
{
    let last = if D == 2 { 0 } else { rows.third_z };
    Staircase {
        list: [
            Vect {
                x: rows.first_x,
                y: rows.first_y,
                z: rows.first_z,
            },
            Vect {
                x: 0,
                y: rows.second_y,
                z: rows.second_z,
            },
            Vect {
                x: 0,
                y: 0,
                z: last,
            },
        ],
        rows,
        bound,
    }
}

impl<const D: usize> Staircase<D> {
    /// The lattice of all vectors whose parts are multiples of `b`.
    pub fn from_bound(b: i128) -> Staircase<D>
        requires two { 2 ≤ D }
        requires three { D ≤ 3 }
        requires from { pos 1 ≤ℤ b }
        requires to { b <ℤ pos (2 ^ 60) }
        ensures { AreMultiples D b (Members D result) }
    {
        let last = if D == 2 { 1 } else { b };
        with_list(
            Rows {
                first_x: b,
                first_y: 0,
                first_z: 0,
                second_y: b,
                second_z: 0,
                third_z: last,
            },
            b,
        )
    }

    /// Whether all vectors of the dimension are members.
    pub fn is_whole(&self) -> bool
        ensures whole { IsTrue result ↔ IsWhole self.now }
    {
        self.rows.first_x == 1 && self.rows.second_y == 1 && self.rows.third_z == 1
    }

    /// Adds `v` and all that it generates.
    pub fn insert(&mut self, v: &Vect<D>)
        ensures { IsWith (Members D self.old) (v.now ∷ []) (Members D self.new) }
    {
        let t = v.to_triple();
        if self.is_whole() {
            return;
        }
        let rows = insert_rows(self.rows, t.x, t.y, t.z, self.bound);
        *self = with_list(rows, self.bound);
    }

    /// Adds these vectors and all that they generate.
    pub fn insert_all(&mut self, vs: &[Vect<D>])
        ensures { IsWith (Members D self.old) vs.now (Members D self.new) }
    {
        for v in vs {
            self.insert(v);
        }
    }

    /// The rows of the staircase basis.
    pub fn rows(&self) -> &[Vect<D>]
        ensures rows { result.now ≡ rows_of D self.now }
        ensures stair { HasStairShape D self.now }
        ensures basis { IsStaircase (Members D self.now) D result.now }
        ensures spans { Spans (Members D self.now) result.now }
        ensures small { All (IsWithin (2 ^ 60)) result.now }
    {
        &self.list[..D]
    }

    /// What holds of each staircase. A proof knows it only after a call whose contract says so: this
    /// one, which does nothing.
    pub fn recall(&self)
        ensures stair { HasStairShape D self.now }
        ensures basis { IsStaircase (Members D self.now) D (rows_of D self.now) }
    {
        self.rows();
    }

    /// The first parts of the rows that are not 0; in dimension 2 the part `z` is 0.
    pub fn pivots(&self) -> Triple
        ensures pivots { result ≡ pivots_of D self.now }
        ensures stair { HasStairShape D self.now }
        ensures small { IsWithin (2 ^ 60) result }
    {
        let last = if D == 2 { 0 } else { self.rows.third_z };
        Triple {
            x: self.rows.first_x,
            y: self.rows.second_y,
            z: last,
        }
    }
}

impl<const D: usize> Staircase<D> {
    // A vector, divided by the rows.
    fn divided(&self, v: &Vect<D>) -> Divided
        ensures stair { HasStairShape D self.now }
        ensures dimension { HasDimension D v.now }
        ensures divided { HasRemainder self.now v.now result.quotients result.rests }
        ensures within { (n : ℕ) → IsWithin n v.now → IsWithin (2 * n) result.quotients }
        ensures small { IsWithin (2 ^ 60) result.rests }
    {
        divide_by(self.rows, v.to_triple())
    }

    /// The coordinates of a member: how often it has each row.
    pub fn coordinates(&self, v: &Vect<D>) -> Triple
        requires { Members D self.now v.now }
        ensures value { combination (parts 3 result) (rows_of D self.now) ≡ v.now }
        ensures dimension { HasDimension D result }
        ensures within { (n : ℕ) → IsWithin n v.now → IsWithin (2 * n) result }
    {
        self.divided(v).quotients
    }

    /// What is left of a vector when multiples of the rows are taken off.
    pub fn remainder(&self, v: &Vect<D>) -> Vect<D>
        ensures remainder { IsRemainder D self.now result }
        ensures difference { Members D self.now (minus v.now result) }
    {
        self.divided(v).rests.to_vector()
    }

    /// The product of the pivots, the number of remainders.
    pub fn size(&self) -> i128
        requires { size_of self.now < 2 ^ 127 }
        ensures { result ≡ pos (size_of self.now) }
    {
        self.rows.first_x * (self.rows.second_y * self.rows.third_z)
    }
}

/// Sets of vectors with the same members have one staircase basis.
pub fn rows_are_one()
    ensures theorem { StaircasesAreOne }
{}
