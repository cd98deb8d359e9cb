// The shifts of a map in 64 bits, and their sums.
ghost use Rattle.std.specs.Prelude.{◌≡◌, ◌⊎◌, ◌≤◌, ◌^◌, unsigned_abs, All, length};
ghost use Rattle.integers.specs.Bases.{base_sum};
ghost use Rattle.integers.specs.Vectors.{plus, times, IsWithin};
ghost use Rattle.map_check.specs.Conditions.{most_part, IsShift};
ghost use Rattle.map_check.specs.Images.{AreSmallRows, IsSmallBase};

use crate::shifts::{row_at, third_row};
use std::marker::Model;
use vecdim::{SmallVector, Triple};

/// The shifts of a map; in dimension 2 the third is 0.
#[derive(Clone, Copy)]
pub struct SmallRows {
    first: SmallVector,
    second: SmallVector,
    third: SmallVector,
}

impl Model for SmallRows {
    ghost use Rattle.integers.specs.Bases.{Base};

    ghost Value = { Base };

    ghost view = { λ r. record { first = r.first; second = r.second; third = r.third } };

    ghost inverse = { λ b. record { first = b.first; second = b.second; third = b.third } };
}

// A shift in 64 bits.
fn small_row(row: &Triple) -> SmallVector
    requires { IsWithin most_part row.now }
    ensures { result ≡ row.now }
{
    SmallVector::of_triple(row)
}

/// The shifts in 64 bits.
pub fn small_rows<const D: usize>(rows: &[Triple]) -> SmallRows
    requires dimension { (D ≡ 2) ⊎ (D ≡ 3) }
    requires count { length rows.now ≡ D }
    requires shifts { All (IsShift D) rows.now }
    ensures { AreSmallRows rows.now result }
{
    SmallRows {
        first: small_row(&row_at::<D>(rows, 0)),
        second: small_row(&row_at::<D>(rows, 1)),
        third: small_row(&third_row::<D>(rows)),
    }
}

// A shift, taken as often as is said.
fn multiple(v: &SmallVector, k: i64) -> SmallVector
    requires shift { IsWithin most_part v.now }
    requires factor { unsigned_abs k ≤ 2 ^ 20 }
    ensures value { result ≡ times k v.now }
    ensures within { IsWithin (2 ^ 58) result }
{
    v.times(k)
}

// A sum of three vectors.
fn sum_of_three(a: &SmallVector, b: &SmallVector, c: &SmallVector) -> SmallVector
    requires a { IsWithin (2 ^ 58) a.now }
    requires b { IsWithin (2 ^ 58) b.now }
    requires c { IsWithin (2 ^ 58) c.now }
    ensures value { result ≡ plus a.now (plus b.now c.now) }
    ensures within { IsWithin (2 ^ 60) result }
{
    a.plus(&b.plus(c))
}

/// The sum of the shifts, each taken as often as is said.
pub fn sum_of(rows: &SmallRows, k: &SmallVector) -> SmallVector
    requires rows { IsSmallBase rows.now }
    requires small { IsWithin (2 ^ 20) k.now }
    ensures value { result ≡ base_sum rows.now k.now }
    ensures within { IsWithin (2 ^ 60) result }
{
    let first = multiple(&rows.first, k.x);
    let second = multiple(&rows.second, k.y);
    let third = multiple(&rows.third, k.z);
    sum_of_three(&first, &second, &third)
}
