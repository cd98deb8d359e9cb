// The determinant of rows, and the lattice that they generate.
ghost use Rattle.std.specs.Prelude.{◌≡◌, ◌≢◌, ◌⊎◌, ◌≤◌, ◌<◌, ◌^◌, ◌==◌, cond, pos, unsigned_abs, length, slice_index_or, All};
ghost use Rattle.integers.specs.Vectors.{zero_vector, up_vector, IsWithin};
ghost use Rattle.sublattice.specs.Sublattices.{base_of, determinant, index_of, IsSublattice};

use vecdim::{Staircase, Triple, Vect, product_of_three};

// The third row; in dimension 2 the unit vector there.
fn last_row<const D: usize>(rows: &[Vect<D>]) -> Triple
    requires dimension { (D ≡ 2) ⊎ (D ≡ 3) }
    requires count { length rows.now ≡ D }
    requires small { All (IsWithin (2 ^ 40)) rows.now }
    ensures value { result ≡ cond (D == 2) up_vector (slice_index_or rows.now 2 zero_vector) }
    ensures small { IsWithin (2 ^ 40) result }
{
    if D == 2 {
        return Triple { x: 0, y: 0, z: 1 };
    }
    rows[2].to_triple()
}

/// The determinant of two rows of dimension 2, or three of dimension 3.
pub fn determinant_of<const D: usize>(rows: &[Vect<D>]) -> i128
    requires dimension { (D ≡ 2) ⊎ (D ≡ 3) }
    requires count { length rows.now ≡ D }
    requires small { All (IsWithin (2 ^ 40)) rows.now }
    ensures value { result ≡ determinant D (base_of rows.now) }
    ensures within { unsigned_abs result ≤ 2 ^ 123 }
{
    let last = last_row(rows);
    product_of_three(&rows[0].to_triple(), &rows[1].to_triple(), &last)
}

/// The lattice that rows with a determinant of this size generate.
pub fn lattice_of<const D: usize>(rows: &[Vect<D>], index: u64) -> Staircase<D>
    requires dimension { (D ≡ 2) ⊎ (D ≡ 3) }
    requires count { length rows.now ≡ D }
    requires index { index ≡ index_of D (base_of rows.now) }
    requires from { 1 ≤ index }
    requires to { index < 2 ^ 60 }
    ensures { IsSublattice D (base_of rows.now) result }
{
    let mut lattice = Staircase::from_bound(i128::from(index));
    lattice.insert_all(rows);
    lattice.recall();
    lattice
}
