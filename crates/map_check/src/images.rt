// The images of the ends of arcs.
ghost use Rattle.std.specs.Prelude.{◌≡◌, ◌≤◌, ◌<◌, ◌^◌, All, length};
ghost use Rattle.integers.specs.Vectors.{plus, HasDimension, IsWithin};
ghost use Rattle.periodic_net.specs.Graph.{moved, vertex};
ghost use Rattle.periodic_net.specs.Limits.{most_vertices};
ghost use Rattle.periodic_net.specs.Maps.{IsInBox};
ghost use Rattle.map_check.specs.Layouts.{table_of};
ghost use Rattle.map_check.specs.Conditions.{most_part};
ghost use Rattle.map_check.specs.Images.{image_at, AreSmallRows, HasImages, IsCarried, IsImageOf, IsSmallTable};

use crate::boxes::place_of;
use crate::carrying::{CarriedArc, parts_of_end};
use crate::small_rows::{SmallRows, sum_of};
use crate::{Image, PeriodicMap};
use vecdim::{SmallVector, Triple};

/// The image at a place.
pub fn image_in(images: &[Image], i: usize) -> Image
    requires inside { i < length images.now }
    requires small { All (λ x. IsWithin most_part x.cell) images.now }
    ensures value { result ≡ image_at images.now i }
    ensures small { IsWithin most_part result.cell }
{
    images[i]
}

// A vertex, moved.
fn moved_by(x: &Image, t: &Triple) -> Image
    requires vertex { IsWithin most_part (x.now).cell }
    requires shift { IsWithin (2 ^ 60) t.now }
    ensures value { result ≡ moved x.now t.now }
    ensures small { IsWithin (2 ^ 61) result.cell }
{
    Image {
        v: x.v,
        t: x.t.plus(t),
    }
}

/// The image of the end of an arc that is taken from a cell of the box.
pub fn image_of_end<const D: usize>(
    map: &PeriodicMap,
    rows: &SmallRows,
    cell: &SmallVector,
    arc: &CarriedArc<D>,
) -> Image
    requires table { IsSmallTable D map.now.m map.now.images map.now.base }
    requires rows { AreSmallRows map.now.base rows.now }
    requires cell { IsInBox D map.now.m cell.now }
    requires arc { IsCarried map.now.m arc.now.arc.shift arc.now.parts.rest arc.now.parts.steps }
    requires over { HasImages D map.now.m map.now.images arc.now.arc.to }
    requires over_to { arc.now.arc.to ≤ most_vertices }
    requires flat { HasDimension D arc.now.arc.shift }
    ensures image { IsImageOf D (table_of D map.now.m map.now.images map.now.base)
        (vertex arc.now.arc.to (plus cell.now arc.now.arc.shift)) result }
    ensures small { IsWithin (2 ^ 61) result.cell }
{
    let parts = parts_of_end(map.m, cell, arc);
    let at = place_of::<D>(map.m, arc.arc.to, &parts.rest.to_triple());
    let image = image_in(map.images.as_slice(), at);
    moved_by(&image, &sum_of(rows, &parts.steps).to_triple())
}
