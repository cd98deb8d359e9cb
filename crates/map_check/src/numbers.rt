// The numbers of images up to the lattice of the shifts.
ghost use Rattle.std.specs.Prelude.{◌≡◌, ◌≤◌, All, IfOk, length};
ghost use Rattle.periodic_net.specs.Limits.{most_vertices};
ghost use Rattle.vecdim.specs.Stairs.{size_of};
ghost use Rattle.map_check.specs.Numbers.{IsImageNumber};
ghost use Rattle.map_check.specs.Conditions.{most_images, IsImage};
ghost use Rattle.map_check.specs.Images.{AreNumbersOf};

use crate::Image;
use quotient_graph::NoMemory;
use std::alloc::Global;
use sublattice::remainder_number;
use vecdim::Staircase;

// The number of an image.
fn image_number<const D: usize>(lattice: &Staircase<D>, size: usize, image: &Image) -> usize
    requires size { size_of lattice.now ≡ size }
    requires few { size ≤ most_images }
    requires image { IsImage D most_vertices image.now }
    ensures { IsImageNumber D lattice.now image.now result }
{
    let number = remainder_number(lattice, &image.t.to_vector());
    (image.v as usize - 1) * size + number as usize
}

/// The numbers of these images.
pub fn image_numbers<const D: usize>(
    alloc: Global,
    lattice: &Staircase<D>,
    size: usize,
    images: &[Image],
) -> Result<Vec<usize>, NoMemory>
    requires size { size_of lattice.now ≡ size }
    requires few { size ≤ most_images }
    requires images { All (IsImage D most_vertices) images.now }
    ensures { IfOk result
        (λ ns. AreNumbersOf D lattice.now images.now ns.items (length images.now)) }
{
    let mut numbers = Vec::with_capacity(alloc, images.len())?;
    for image in images {
        numbers.push(image_number(lattice, size, image))?;
    }
    Ok(numbers)
}
