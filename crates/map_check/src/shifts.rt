// The shifts of a map, and the index of the lattice that they span.
ghost use Rattle.std.specs.Prelude.{◌≡◌, ◌⊎◌, ◌≤◌, ◌<◌, ◌^◌, slice_index_or, length, All, IfOk};
ghost use Rattle.integers.specs.Vectors.{zero_vector, IsWithin};
ghost use Rattle.sublattice.specs.Sublattices.{base_of, index_of};
ghost use Rattle.map_check.specs.Conditions.{most_part, IsShift};

use quotient_graph::NoMemory;
use std::alloc::Global;
use sublattice::determinant_of;
use vecdim::{Triple, Vect};

/// The shift at a place.
pub fn row_at<const D: usize>(rows: &[Triple], i: usize) -> Triple
    requires inside { i < length rows.now }
    requires shifts { All (IsShift D) rows.now }
    ensures value { result ≡ slice_index_or rows.now i zero_vector }
    ensures shift { IsShift D result }
{
    rows[i]
}

/// The shift in the third place; in dimension 2 there is none.
pub fn third_row<const D: usize>(rows: &[Triple]) -> Triple
    requires dimension { (D ≡ 2) ⊎ (D ≡ 3) }
    requires count { length rows.now ≡ D }
    requires shifts { All (IsShift D) rows.now }
    ensures value { result ≡ slice_index_or rows.now 2 zero_vector }
    ensures small { IsWithin most_part result }
{
    if D == 2 {
        return Triple { x: 0, y: 0, z: 0 };
    }
    row_at::<D>(rows, 2)
}

/// The shifts as vectors.
pub fn vectors<const D: usize>(alloc: Global, rows: &[Triple]) -> Result<Vec<Vect<D>>, NoMemory>
    requires { All (IsShift D) rows.now }
    ensures { IfOk result (λ vs. vs.items ≡ rows.now) }
{
    let mut vs = Vec::with_capacity(alloc, rows.len())?;
    for row in rows {
        vs.push(row.to_vector())?;
    }
    Ok(vs)
}

/// The index of the lattice that the shifts span; 0 if they are dependent.
pub fn shift_index<const D: usize>(rows: &[Vect<D>]) -> u128
    requires dimension { (D ≡ 2) ⊎ (D ≡ 3) }
    requires count { length rows.now ≡ D }
    requires shifts { All (IsShift D) rows.now }
    ensures value { result ≡ index_of D (base_of rows.now) }
    ensures within { result ≤ 2 ^ 117 }
{
    determinant_of(rows).unsigned_abs()
}
