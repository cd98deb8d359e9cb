// Unit cells with whole rows, their determinants and the lattices of their rows.
ghost use Rattle.std.specs.Prelude.{◌≡◌, ◌⊎◌, ◌≤◌};
ghost use Rattle.sublattice.specs.Sublattices.{index_of, IsSublattice};

use std::marker::Model;
use sublattice::lattice_of;
use vecdim::{Staircase, Triple, product_of_three};

/// A cell of dimension `dim`, 2 or 3, with the rows `a`, `b` and `c` in whole steps. Their parts
/// are from -500 to 500; in dimension 2 the row `c` is 0, and so are the parts `z`. Contracts see
/// the dimension and the rows.
#[derive(Clone, Copy, Debug, PartialEq, Eq)]
pub struct Cell {
    pub dim: u8,
    pub a: Triple,
    pub b: Triple,
    pub c: Triple,
}

impl Model for Cell {
    ghost use Rattle.net_cover.specs.Cells.{CellView, cell_view, IsWritten};

    ghost Value = { CellView };

    ghost view = { λ c. cell_view c.dim c.a c.b c.c };

    ghost invariant = { λ c. IsWritten (cell_view c.dim c.a c.b c.c) };

    ghost inverse = { λ R. record {
      dim = R.dimension;
      a = R.rows.first;
      b = R.rows.second;
      c = R.rows.third;
    } };
}

impl Cell {
    ghost use Rattle.std.specs.Prelude.{◌≡◌, ◌≢◌, ◌⊎◌, ◌≤◌, ◌^◌, pos, unsigned_abs};
    ghost use Rattle.integers.specs.Bases.{base_sum};
    ghost use Rattle.integers.specs.Vectors.{HasDimension, IsWithin};
    ghost use Rattle.periodic_net.specs.Limits.{most_shift};
    ghost use Rattle.sublattice.specs.Sublattices.{AreFlat, IsCombination};
    ghost use Rattle.net_cover.specs.Cells.{determinant_in, last_row, products_with, IsWritten};

    /// The dimension.
    pub fn dimension(&self) -> u8
        ensures value { result ≡ self.now.dimension }
        ensures written { IsWritten self.now }
    {
        self.dim
    }

    /// What holds of each cell. A proof knows it only after a call whose contract says so: this
    /// one, which does nothing.
    pub fn recall(&self)
        ensures { IsWritten self.now }
    {
        let _ = &self.dim;
    }

    // The third row; in dimension 2 the unit vector there.
    fn last(&self) -> Triple
        ensures value { result ≡ last_row self.now }
        ensures small { IsWithin most_shift result }
        ensures written { IsWritten self.now }
    {
        if self.dim == 2 {
            Triple { x: 0, y: 0, z: 1 }
        } else {
            self.c
        }
    }

    /// The determinant of the rows.
    pub fn determinant(&self) -> i128
        ensures value { result ≡ determinant_in self.now }
        ensures within { unsigned_abs result ≤ 2 ^ 30 }
    {
        product_of_three(&self.a, &self.b, &self.last())
    }

    // The products in which a vector stands in place of a row.
    fn products(&self, v: &Triple) -> Triple
        requires { IsWithin (2 ^ 12) v.now }
        ensures value { result ≡ products_with self.now v.now }
        ensures within { IsWithin (2 ^ 40) result }
        ensures written { IsWritten self.now }
    {
        let last = self.last();
        Triple {
            x: product_of_three(v, &self.b, &last),
            y: product_of_three(&self.a, v, &last),
            z: product_of_three(&self.a, &self.b, v),
        }
    }

    // The coefficients of a combination of the rows.
    pub(crate) fn coefficients(&self, v: &Triple) -> Triple
        requires rank { determinant_in self.now ≢ pos 0 }
        requires vector { IsWithin (2 ^ 12) v.now }
        requires combination { IsCombination self.now.dimension self.now.rows v.now }
        ensures dimension { HasDimension self.now.dimension result }
        ensures value { v.now ≡ base_sum self.now.rows result }
    {
        self.products(v).divided_by(self.determinant())
    }
}

/// The lattice that the rows of a cell generate.
pub fn lattice_in<const D: usize>(cell: &Cell, index: u32) -> Staircase<D>
    requires dimension { cell.now.dimension ≡ D }
    requires index { index ≡ index_of D cell.now.rows }
    requires from { 1 ≤ index }
    ensures { IsSublattice D cell.now.rows result }
{
    cell.recall();
    let rows = [cell.a.to_vector(), cell.b.to_vector(), cell.c.to_vector()];
    lattice_of(&rows[..D], u64::from(index))
}
