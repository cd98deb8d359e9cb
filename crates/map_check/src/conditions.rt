// The maps that are checked.
ghost use Rattle.std.specs.Prelude.{◌≡◌, ◌⊎◌, ◌↔◌, ◌≤◌, ◌*◌, ◌^◌, All, IsTrue, length};
ghost use Rattle.integers.specs.Vectors.{HasDimension};
ghost use Rattle.periodic_net.specs.Limits.{most_vertices};
ghost use Rattle.quotient_graph.specs.AnyGraphs.{graph_view};
ghost use Rattle.map_check.specs.Layouts.{box_size};
ghost use Rattle.map_check.specs.Conditions.{most_images, most_period, HasCounts, IsImage, IsShift, SuitsGraphs};

use crate::boxes::box_size;
use crate::{Image, PeriodicMap};
use quotient_graph::{AnyGraph, Graph};
use vecdim::Triple;

/// The greatest period.
pub const MOST_PERIOD: u32 = 512;

/// The greatest number of images.
pub const MOST_IMAGES: usize = 100_000;

/// The greatest part of a cell or a shift, as an absolute value: 2^38.
pub const MOST_PART: u64 = 274_877_906_944;

// Whether a vector has dimension D.
fn is_flat<const D: usize>(v: &Triple) -> bool
    ensures { IsTrue result ↔ HasDimension D v.now }
{
    D != 2 || v.z == 0
}

// Whether a vertex is an image in a net of dimension D with n vertices.
fn is_image<const D: usize>(x: &Image, n: u32) -> bool
    ensures { IsTrue result ↔ IsImage D n x.now }
{
    1 <= x.v && x.v <= n && is_flat::<D>(&x.t) && x.t.is_within(MOST_PART)
}

// Whether a vector is a shift of dimension D.
fn is_shift<const D: usize>(v: &Triple) -> bool
    ensures { IsTrue result ↔ IsShift D v.now }
{
    is_flat::<D>(v) && v.is_within(MOST_PART)
}

// Whether all vertices are such images.
fn are_images<const D: usize>(images: &[Image], n: u32) -> bool
    ensures { IsTrue result ↔ All (IsImage D n) images.now }
{
    for x in images {
        if !is_image::<D>(x, n) {
            return false;
        }
    }
    true
}

// Whether all vectors are such shifts.
fn are_shifts<const D: usize>(rows: &[Triple]) -> bool
    ensures { IsTrue result ↔ All (IsShift D) rows.now }
{
    for row in rows {
        if !is_shift::<D>(row) {
            return false;
        }
    }
    true
}

// Whether the images are as many as the vertices of the box.
fn has_all_images<const D: usize>(n: u32, m: u32, images: &[Image]) -> bool
    requires dimension { (D ≡ 2) ⊎ (D ≡ 3) }
    requires vertices { n ≤ most_vertices }
    requires period { m ≤ most_period }
    ensures { IsTrue result ↔ (length images.now ≡ n * box_size D m) }
{
    images.len() == n as usize * box_size(D as u8, m) as usize
}

// Whether the period is within the limits.
fn is_period(m: u32) -> bool
    ensures { IsTrue result ↔ ((1 ≤ m) × (m ≤ most_period)) }
{
    1 <= m && m <= MOST_PERIOD
}

// Whether the images and the shifts are few, and the shifts as many as the dimension.
fn are_few<const D: usize>(images: &[Image], rows: &[Triple]) -> bool
    ensures { IsTrue result ↔ ((length images.now ≤ most_images) × (length rows.now ≡ D)) }
{
    images.len() <= MOST_IMAGES && rows.len() == D
}

// Whether the period and the numbers of images and shifts suit n vertices.
fn has_counts<const D: usize>(n: u32, map: &PeriodicMap) -> bool
    requires dimension { (D ≡ 2) ⊎ (D ≡ 3) }
    requires vertices { n ≤ most_vertices }
    ensures { IsTrue result ↔ HasCounts D n map.now.m map.now.images map.now.base }
{
    if !is_period(map.m) {
        return false;
    }
    has_all_images::<D>(n, map.m, map.images.as_slice())
        && are_few::<D>(map.images.as_slice(), map.base.as_slice())
}

// Whether all three hold.
fn are_all(a: bool, b: bool, c: bool) -> bool
    ensures { IsTrue result ↔ (IsTrue a × IsTrue b × IsTrue c) }
{
    a && b && c
}

// Whether a map suits two graphs.
fn fits_graphs<const D: usize, const E: usize>(
    g: &Graph<D>,
    h: &Graph<E>,
    map: &PeriodicMap,
) -> bool
    ensures { IsTrue result ↔ SuitsGraphs g.now h.now map.now.m map.now.images map.now.base }
{
    g.recall();
    h.recall();
    let counts = has_counts::<D>(g.vertices(), map);
    let images = are_images::<E>(map.images.as_slice(), h.vertices());
    let shifts = are_shifts::<E>(map.base.as_slice());
    are_all(counts, images, shifts)
}

/// Whether a map suits two graphs, so that it can be checked: its period is from 1 to 512; it has
/// an image for each vertex in the box, at most 100,000, in vertices of the second net; it has as
/// many shifts as the first graph has dimensions, of the dimension of the second; and no part is
/// past 2^38.
pub fn fits(g: &AnyGraph, h: &AnyGraph, map: &PeriodicMap) -> bool
    ensures { IsTrue result ↔ SuitsGraphs (graph_view g.now) (graph_view h.now)
        map.now.m map.now.images map.now.base }
{
    match (g, h) {
        (AnyGraph::Flat(g), AnyGraph::Flat(h)) => fits_graphs(g, h, map),
        (AnyGraph::Flat(g), AnyGraph::Space(h)) => fits_graphs(g, h, map),
        (AnyGraph::Space(g), AnyGraph::Flat(h)) => fits_graphs(g, h, map),
        (AnyGraph::Space(g), AnyGraph::Space(h)) => fits_graphs(g, h, map),
    }
}
