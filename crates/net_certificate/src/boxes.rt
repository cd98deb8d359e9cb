// The box of a period: its vertices, their images, and the rows of a map.
ghost use Rattle.std.specs.Prelude.{◌≡◌, ◌≤◌, ◌<◌, ◌+◌, ◌*◌, ◌^◌, ◌-◌, IfOk, ◌⊎◌, [], ◌∷◌, false, IsTrue, flat_map, unsigned_abs};
ghost use Rattle.integers.specs.Bases.{base_sum};
ghost use Rattle.integers.specs.Vectors.{IsWithin, minus, plus, parts};
ghost use Rattle.periodic_net.specs.Limits.{most_vertices, most_walk};
ghost use Rattle.periodic_net.specs.Graph.{IsQuotientVertex, IsVertex};
ghost use Rattle.periodic_net.specs.Placement.{base};
ghost use Rattle.map_check.specs.Layouts.{last_side, box_size, cell_at, vertex_at};
ghost use Rattle.map_check.specs.Conditions.{most_period};
ghost use Rattle.standard_map.specs.CellBounds.{most_cell};
ghost use Rattle.standard_map.specs.Ends.{IsNear};
ghost use Rattle.standard_map.specs.Search.{AreEnds};
ghost use Rattle.standard_map.specs.Sides.{HaveOneKey};
ghost use Rattle.standard_map.specs.Turns.{AreImageCells};
ghost use Rattle.standard_map.specs.MapNumbers.{base_rows, map_numbers, most_part};
ghost use Rattle.net_certificate.specs.Tables.{most_steps, most_way, IsImageOf, AreImages, IsFirstWide};

use crate::NoMemory;
use map_check::{Image, MOST_PART, NetVertex};
use quotient_graph::Placed;
use standard_map::{Cells, End, Side, end_of, vertex_standing};
use std::alloc::Global;
use vecdim::{Shift, Triple};

// How many numbers the third part of a cell may be.
fn last_side<const D: usize>(m: u32) -> u64
    ensures { result ≡ last_side D m }
{
    if D == 2 { 1 } else { u64::from(m) }
}

// The number of cells in the box.
fn box_size<const D: usize>(m: u32) -> u64
    requires { m ≤ most_period }
    ensures value { result ≡ box_size D m }
    ensures small { result ≤ 2 ^ 27 }
{
    let side = u64::from(m);
    side * (side * last_side::<D>(m))
}

/// The number of vertices in the box, over n vertices.
pub fn entries<const D: usize>(n: u32, m: u32) -> u64
    requires vertices { n ≤ most_vertices }
    requires period { m ≤ most_period }
    ensures { result ≡ n * box_size D m }
{
    u64::from(n) * box_size::<D>(m)
}

// The cell at a place.
fn cell_at<const D: usize>(m: u32, i: u64) -> Triple
    requires from { 1 ≤ m }
    requires to { m ≤ most_period }
    ensures { result ≡ cell_at D m i }
{
    let last = last_side::<D>(m);
    let layer = u64::from(m) * last;
    let rest = i % layer;
    Triple {
        x: i128::from(i / layer),
        y: i128::from(rest / last),
        z: i128::from(rest % last),
    }
}

// A number of a vertex.
fn vertex_number(over: u64) -> u32
    requires { over < most_vertices }
    ensures { result ≡ over + 1 }
{
    over as u32 + 1
}

/// The vertex at a place of the box, counted from 0.
pub fn vertex_at<const D: usize>(m: u32, i: u64) -> NetVertex
    requires from { 1 ≤ m }
    requires to { m ≤ most_period }
    requires inside { i < most_vertices * box_size D m }
    ensures { result ≡ vertex_at D m i }
{
    let size = box_size::<D>(m);
    NetVertex {
        over: vertex_number(i / size),
        cell: cell_at::<D>(m, i % size),
    }
}

/// The sum of the images of the cells, each taken as often as is said.
pub fn sum_along(cells: &Cells, k: &Triple) -> Triple
    requires first { IsWithin most_cell (cells.now).first }
    requires second { IsWithin most_cell (cells.now).second }
    requires third { IsWithin most_cell (cells.now).third }
    requires steps { IsWithin most_steps k.now }
    ensures value { result ≡ base_sum cells.now k.now }
    ensures within { IsWithin most_way result }
{
    cells.sum(k)
}

// How far a cell lies from that of an end.
fn steps_from<const D: usize>(shift: &Shift<D>, r: &Triple) -> Triple
    requires shift { IsWithin most_walk shift.now }
    requires r { IsWithin most_period r.now }
    ensures value { result ≡ minus r.now shift.now }
    ensures within { IsWithin most_steps result }
{
    r.minus(&shift.to_triple())
}

// Where the image of an end stands.
fn end_place<const D: usize>(placed: &Placed<D>, origin: u32, end: &End<D>) -> Triple
    requires origin { IsQuotientVertex placed.now.graph origin }
    requires near { IsNear (most_vertices - 1) end.now }
    ensures value { result ≡ plus (base placed.now.placement origin) end.now.at }
    ensures within { IsWithin (2 ^ 62) result }
{
    placed.at(origin).to_triple().plus(&end.at.to_triple())
}

// Where the image of a vertex over that of an end stands.
fn place_of<const D: usize>(
    placed: &Placed<D>,
    origin: u32,
    end: &End<D>,
    cells: &Cells,
    r: &Triple,
) -> Triple
    requires origin { IsQuotientVertex placed.now.graph origin }
    requires near { IsNear (most_vertices - 1) end.now }
    requires first { IsWithin most_cell (cells.now).first }
    requires second { IsWithin most_cell (cells.now).second }
    requires third { IsWithin most_cell (cells.now).third }
    requires r { IsWithin most_period r.now }
    ensures value { result ≡ plus (plus (base placed.now.placement origin) end.now.at)
        (base_sum cells.now (minus r.now end.now.shift)) }
    ensures within { IsWithin (2 ^ 112) result }
{
    let start = end_place(placed, origin, end);
    let steps = steps_from(&end.shift, r);
    start.plus(&sum_along(cells, &steps))
}

/// The image of a vertex near cell 0.
pub fn image_of<const D: usize>(
    here: &Side<'_, D>,
    there: &Side<'_, D>,
    ends: &[End<D>],
    cells: &Cells,
    w: &NetVertex,
) -> Image
    requires one_key { HaveOneKey here.now there.now }
    requires ends { AreEnds here.now there.now ends.now }
    requires cells { AreImageCells here.now there.now cells.now }
    requires first { IsWithin most_cell (cells.now).first }
    requires second { IsWithin most_cell (cells.now).second }
    requires third { IsWithin most_cell (cells.now).third }
    requires vertex { IsVertex here.now.net.graph w.now }
    requires small { IsWithin most_period w.now.cell }
    ensures { IsImageOf here.now there.now w.now result }
{
    here.recall();
    there.graph().recall();
    let end = end_of(ends, w.over);
    let place = place_of(there.placed(), there.origin(), &end, cells, &w.cell);
    let (v, t) = vertex_standing(there.placed(), &place);
    Image { v, t }
}

/// The images of the vertices in the cells with parts from 0 to m - 1, in rising order of vertex
/// and cell.
pub fn box_images<const D: usize>(
    alloc: Global,
    here: &Side<'_, D>,
    there: &Side<'_, D>,
    ends: &[End<D>],
    cells: &Cells,
    m: u32,
) -> Result<Vec<Image>, NoMemory>
    requires one_key { HaveOneKey here.now there.now }
    requires ends { AreEnds here.now there.now ends.now }
    requires cells { AreImageCells here.now there.now cells.now }
    requires first { IsWithin most_cell (cells.now).first }
    requires second { IsWithin most_cell (cells.now).second }
    requires third { IsWithin most_cell (cells.now).third }
    requires from { 1 ≤ m }
    requires to { m ≤ most_period }
    ensures { IfOk result (λ xs. AreImages here.now there.now m xs.items) }
{
    let count = entries::<D>(here.graph().vertices(), m);
    let mut found = Vec::new(alloc);
    for i in 0..count {
        let w = vertex_at::<D>(m, i);
        found.push(image_of(here, there, ends, cells, &w))?;
    }
    Ok(found)
}

/// The first D of the shifts of a map.
pub fn map_rows<const D: usize>(alloc: Global, shifts: &Cells) -> Result<Vec<Triple>, NoMemory>
    requires { (D ≡ 2) ⊎ (D ≡ 3) }
    ensures { IfOk result (λ rs. rs.items ≡ base_rows D shifts.now) }
{
    let mut found = Vec::new(alloc);
    found.push(shifts.first)?;
    found.push(shifts.second)?;
    if D == 3 {
        found.push(shifts.third)?;
    }
    Ok(found)
}

// Whether a number is within the limit.
fn is_small(z: i128) -> bool
    ensures yes { IsTrue result → unsigned_abs z ≤ most_part }
    ensures no { result ≡ false → most_part < unsigned_abs z }
{
    z.unsigned_abs() <= u128::from(MOST_PART)
}

// A number that is past the limit.
fn wide_number(z: i128) -> Option<i128>
    ensures { IsFirstWide (z ∷ []) result }
{
    if is_small(z) { None } else { Some(z) }
}

// The first part of a vector past the limit.
fn wide_part<const D: usize>(v: &Triple) -> Option<i128>
    ensures { IsFirstWide (parts D v.now) result }
{
    let x = wide_number(v.x);
    if x.is_some() {
        return x;
    }
    let y = wide_number(v.y);
    if y.is_some() {
        return y;
    }
    if D == 2 { None } else { wide_number(v.z) }
}

// The first part of a row past the limit.
fn wide_row<const D: usize>(rows: &[Triple]) -> Option<i128>
    ensures { IsFirstWide (flat_map (parts D) rows.now) result }
{
    for row in rows {
        let z = wide_part::<D>(row);
        if z.is_some() {
            return z;
        }
    }
    None
}

// The first part of an image past the limit.
fn wide_image<const D: usize>(images: &[Image]) -> Option<i128>
    ensures { IsFirstWide (flat_map (λ w. parts D w.cell) images.now) result }
{
    for image in images {
        let z = wide_part::<D>(&image.t);
        if z.is_some() {
            return z;
        }
    }
    None
}

/// The first part past the limit, of the images and then of the rows of a map.
pub fn first_wide<const D: usize>(images: &[Image], rows: &[Triple]) -> Option<i128>
    ensures { IsFirstWide (map_numbers D images.now rows.now) result }
{
    let z = wide_image::<D>(images);
    if z.is_some() {
        return z;
    }
    wide_row::<D>(rows)
}
