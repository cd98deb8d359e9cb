// Images that are others, moved by the shifts.
ghost use Rattle.std.specs.Prelude.{◌≡◌, ◌⊎◌, ◌≤◌, ◌*◌, length, All, IfOk, MatchOption};
ghost use Rattle.sublattice.specs.Sublattices.{base_of, index_of};
ghost use Rattle.periodic_net.specs.Limits.{most_vertices};
ghost use Rattle.map_check.specs.Conditions.{most_images, IsImage};
ghost use Rattle.map_check.specs.Images.{AreNoCopies, IsFirstCopy};

use crate::Image;
use crate::numbers::image_numbers;
use crate::repeats::first_repeat;
use quotient_graph::NoMemory;
use std::alloc::Global;
use sublattice::lattice_of;
use vecdim::Vect;

/// The place of the first image that is an earlier one, moved by the shifts, if the images are
/// as many as `n` vertices, taken as often as the index of the shifts' lattice.
pub fn first_copy<const D: usize>(
    alloc: Global,
    n: u32,
    index: u64,
    rows: &[Vect<D>],
    images: &[Image],
) -> Result<Option<usize>, NoMemory>
    requires dimension { (D ≡ 2) ⊎ (D ≡ 3) }
    requires rows { length rows.now ≡ D }
    requires index { index ≡ index_of D (base_of rows.now) }
    requires from { 1 ≤ index }
    requires some { 1 ≤ n }
    requires vertices { n ≤ most_vertices }
    requires few { length images.now ≤ most_images }
    requires images { All (IsImage D n) images.now }
    requires count { length images.now ≡ n * index }
    ensures { IfOk result (λ found. MatchOption found
        (AreNoCopies D (base_of rows.now) images.now (length images.now))
        (IsFirstCopy D (base_of rows.now) images.now)) }
{
    let lattice = lattice_of(rows, index);
    let numbers = image_numbers(alloc, &lattice, index as usize, images)?;
    first_repeat(alloc, &numbers)
}
