// Reads the rows of a map.
ghost use Rattle.std.specs.Prelude.{ℕ, pos, ◌≡◌, ◌≤◌, ◌*◌, ◌^◌, ◌↔◌, ◌∷◌, [], IfSome, Some, IsTrue, ℤ, unsigned_abs, ◌⊎◌, ◌≢◌, List, ◌++◌, MatchOption, true, IfOk, IfNone, length, MatchResult};
ghost use Rattle.integers.specs.Vectors.{Vector, parts};
ghost use Rattle.periodic_net.specs.Graph.{Vertex, Arc};
ghost use Rattle.line_text.specs.Lines.{IsAt};
ghost use Rattle.line_text.specs.Faults.{IfBadLine};
ghost use Rattle.map_check.specs.Conditions.{most_images, most_period, IsImage, IsShift, most_part};
ghost use Rattle.map_check.specs.Layouts.{vertex_at};
ghost use Rattle.graph_rows.specs.Forms.{IsSize};
ghost use Rattle.net_certificate.specs.Items.{IsPeriod, ItemView};
ghost use Rattle.net_certificate.specs.Rows.{image_numbers, vertex_numbers, title_row, period_row, image_row, base_row, end_row};
ghost use Rattle.net_certificate.specs.Steps.{NoPeriod, NoImage, NoShift};
ghost use Rattle.net_certificate.specs.Reading.{HasBadLine, IsIn};
ghost use Rattle.net_certificate.specs.Stages.{Mapped, begun_map, drawing, map_with};

use graph_rows::{GraphSize, between};
use line_text::{Lines, RowFault};
use map_check::{
    BaseRows, Image, Images, MOST_IMAGES, MOST_PART, MOST_PERIOD, NetVertex, box_size, vertex_at,
};
use std::alloc::AllocError as NoMemory;
use vecdim::Triple;

/// The number of images of a map of this period from a graph of this size.
pub fn image_count(size: &GraphSize, m: u32) -> u64
    requires size { IsSize size.now }
    requires few { m ≤ most_period }
    ensures { result ≡ size.now.vertices * m ^ size.now.dim }
{
    size.vertices as u64 * box_size(size.dim, m) as u64
}

/// The period that its number says, of maps from a graph of this size.
pub fn period_from(size: &GraphSize, numbers: &[i128]) -> Option<u32>
    requires { IsSize size.now }
    ensures found { IfSome result (λ m. numbers.now ≡ pos m ∷ []) }
    ensures form { IfSome result (IsPeriod size.now) }
    ensures every { (m : ℕ) → IsPeriod size.now m → numbers.now ≡ pos m ∷ [] → result ≡ Some m }
{
    let [m] = numbers else {
        return None;
    };
    let m = between(*m, 1, MOST_PERIOD)?;
    if image_count(size, m) <= MOST_IMAGES as u64 {
        Some(m)
    } else {
        None
    }
}

// Whether a number may be a part of a cell or a shift.
fn is_small(n: i128) -> bool
    ensures { IsTrue result ↔ unsigned_abs n ≤ most_part }
{
    n.unsigned_abs() <= u128::from(MOST_PART)
}

// The vector with these parts, if they are small.
fn small_vector(x: i128, y: i128, z: i128) -> Option<Triple>
    ensures x { IfSome result (λ v. x ≡ v.x) }
    ensures y { IfSome result (λ v. y ≡ v.y) }
    ensures z { IfSome result (λ v. z ≡ v.z) }
    ensures flat { z ≡ pos 0 → IfSome result (IsShift 2) }
    ensures space { IfSome result (IsShift 3) }
    ensures every { (v : Vector) → IsShift 3 v → x ≡ v.x → y ≡ v.y → z ≡ v.z → result ≡ Some v }
{
    if is_small(x) && is_small(y) && is_small(z) {
        Some(Triple { x, y, z })
    } else {
        None
    }
}

fn flat_vector(numbers: &[i128]) -> Option<Triple>
    ensures found { IfSome result (λ v. numbers.now ≡ parts 2 v) }
    ensures form { IfSome result (IsShift 2) }
    ensures every { (v : Vector) → IsShift 2 v → numbers.now ≡ parts 2 v → result ≡ Some v }
{
    let [x, y] = numbers else {
        return None;
    };
    small_vector(*x, *y, 0)
}

fn space_vector(numbers: &[i128]) -> Option<Triple>
    ensures found { IfSome result (λ v. numbers.now ≡ parts 3 v) }
    ensures form { IfSome result (IsShift 3) }
    ensures every { (v : Vector) → IsShift 3 v → numbers.now ≡ parts 3 v → result ≡ Some v }
{
    let [x, y, z] = numbers else {
        return None;
    };
    small_vector(*x, *y, *z)
}

/// The shift of this dimension that the numbers say.
pub fn shift_from(dim: u8, numbers: &[i128]) -> Option<Triple>
    requires { (dim ≡ 2) ⊎ (dim ≡ 3) }
    ensures found { IfSome result (λ v. numbers.now ≡ parts dim v) }
    ensures form { IfSome result (IsShift dim) }
    ensures every { (v : Vector) → IsShift dim v → numbers.now ≡ parts dim v → result ≡ Some v }
{
    if dim == 2 {
        flat_vector(numbers)
    } else {
        space_vector(numbers)
    }
}

/// The vertex of the net of a graph of this size that the numbers say.
pub fn vertex_from(size: &GraphSize, numbers: &[i128]) -> Option<Image>
    requires { (size.now.dim ≡ 2) ⊎ (size.now.dim ≡ 3) }
    ensures found { IfSome result (λ x. numbers.now ≡ vertex_numbers size.now.dim x) }
    ensures form { IfSome result (IsImage size.now.dim size.now.vertices) }
    ensures every { (x : Vertex) → IsImage size.now.dim size.now.vertices x →
        numbers.now ≡ vertex_numbers size.now.dim x → result ≡ Some x }
{
    let [v, parts @ ..] = numbers else {
        return None;
    };
    match between(*v, 1, size.vertices) {
        Some(v) => match shift_from(size.dim, parts) {
            Some(t) => Some(Image { v, t }),
            None => None,
        },
        None => None,
    }
}

// What follows these numbers, where the others begin with them.
fn after_numbers<'a>(numbers: &'a [i128], first: &[i128]) -> Option<&'a [i128]>
    ensures { MatchOption result ((rest : List ℤ) → numbers.now ≢ first.now ++ rest)
        (λ rest. numbers.now ≡ first.now ++ rest.now) }
{
    numbers.strip_prefix(first)
}

// What follows the numbers of a vertex of a net of this dimension.
fn after_vertex<'a>(dim: u8, w: &NetVertex, numbers: &'a [i128]) -> Option<&'a [i128]>
    ensures { MatchOption result ((rest : List ℤ) → numbers.now ≢ vertex_numbers dim w.now ++ rest)
        (λ rest. numbers.now ≡ vertex_numbers dim w.now ++ rest.now) }
{
    if dim == 2 {
        after_numbers(numbers, &[i128::from(w.over), w.cell.x, w.cell.y])
    } else {
        after_numbers(numbers, &[i128::from(w.over), w.cell.x, w.cell.y, w.cell.z])
    }
}

/// The image of this vertex that the numbers say, in the net of a graph of this size.
pub fn image_from(dim: u8, w: &NetVertex, size: &GraphSize, numbers: &[i128]) -> Option<Image>
    requires { (size.now.dim ≡ 2) ⊎ (size.now.dim ≡ 3) }
    ensures found { IfSome result (λ x. numbers.now ≡ image_numbers dim size.now.dim w.now x) }
    ensures form { IfSome result (IsImage size.now.dim size.now.vertices) }
    ensures every { (x : Vertex) → IsImage size.now.dim size.now.vertices x →
        numbers.now ≡ image_numbers dim size.now.dim w.now x → result ≡ Some x }
{
    match after_vertex(dim, w, numbers) {
        Some(rest) => vertex_from(size, rest),
        None => None,
    }
}

/// So many numbers has the row of a period.
const PERIOD_NUMBERS: usize = 1;

/// So many numbers has a vertex at most: its class, and the parts of its cell.
const VERTEX_NUMBERS: usize = 4;

/// So many numbers has the row of an image at most: those of a vertex and of its image.
const IMAGE_NUMBERS: usize = 2 * VERTEX_NUMBERS;

/// So many numbers has the row of a shift at most.
const SHIFT_NUMBERS: usize = 3;

/// Whether the next line is the first one of a text.
pub fn next_title(lines: &mut Lines<'_>) -> bool
    ensures place { (text : List ℕ) (rows : List (List ℕ)) → IsAt text rows lines.old →
        result ≡ true → IsAt text (rows ++ title_row ∷ []) lines.new }
    ensures none { (rest : List ℕ) → lines.old.rest ≡ title_row ++ 10 ∷ rest → result ≡ true }
{
    lines.next_is(b"net_maps 1")
}

/// The period on the next line, of maps from a graph of this size.
pub fn next_period(
    lines: &mut Lines<'_>,
    size: &GraphSize,
    numbers: &mut Vec<i128>,
) -> Result<Option<u32>, NoMemory>
    requires { IsSize size.now }
    ensures place { (text : List ℕ) (rows : List (List ℕ)) → IsAt text rows lines.old →
        IfOk result (λ found. IfSome found (λ m.
        IsAt text (rows ++ period_row m ∷ []) lines.new)) }
    ensures form { IfOk result (λ found. IfSome found (IsPeriod size.now)) }
    ensures none { IfOk result (λ found. IfNone found (NoPeriod size.now lines.old.rest)) }
{
    if lines.next_row(b"period", PERIOD_NUMBERS, numbers)? {
        Ok(period_from(size, numbers))
    } else {
        Ok(None)
    }
}

/// The image on the next line, of the vertex at place i, in the net of a graph of this size.
pub fn next_image(
    lines: &mut Lines<'_>,
    dim: u8,
    m: u32,
    i: u32,
    size: &GraphSize,
    numbers: &mut Vec<i128>,
) -> Result<Option<Image>, NoMemory>
    requires size { IsSize size.now }
    requires from { 1 ≤ m }
    requires to { m ≤ most_period }
    requires few { i ≤ most_images }
    ensures place { (text : List ℕ) (rows : List (List ℕ)) → IsAt text rows lines.old →
        IfOk result (λ found. IfSome found (λ x.
        IsAt text (rows ++ image_row dim size.now.dim (vertex_at dim m i) x ∷ []) lines.new)) }
    ensures form { IfOk result (λ found.
        IfSome found (IsImage size.now.dim size.now.vertices)) }
    ensures none { IfOk result (λ found.
        IfNone found (NoImage dim (vertex_at dim m i) size.now lines.old.rest)) }
{
    if lines.next_row(b"image", IMAGE_NUMBERS, numbers)? {
        Ok(image_from(dim, &vertex_at(dim, m, i), size, numbers))
    } else {
        Ok(None)
    }
}

/// The shift of this dimension on the next line.
pub fn next_shift(
    lines: &mut Lines<'_>,
    dim: u8,
    numbers: &mut Vec<i128>,
) -> Result<Option<Triple>, NoMemory>
    requires { (dim ≡ 2) ⊎ (dim ≡ 3) }
    ensures place { (text : List ℕ) (rows : List (List ℕ)) → IsAt text rows lines.old →
        IfOk result (λ found. IfSome found (λ v.
        IsAt text (rows ++ base_row dim v ∷ []) lines.new)) }
    ensures form { IfOk result (λ found. IfSome found (IsShift dim)) }
    ensures none { IfOk result (λ found. IfNone found (NoShift dim lines.old.rest)) }
{
    if lines.next_row(b"base", SHIFT_NUMBERS, numbers)? {
        Ok(shift_from(dim, numbers))
    } else {
        Ok(None)
    }
}

/// Whether the next line ends an item.
pub fn next_end(lines: &mut Lines<'_>) -> bool
    ensures place { (text : List ℕ) (rows : List (List ℕ)) → IsAt text rows lines.old →
        result ≡ true → IsAt text (rows ++ end_row ∷ []) lines.new }
    ensures none { (rest : List ℕ) → lines.old.rest ≡ end_row ++ 10 ∷ rest → result ≡ true }
{
    lines.next_is(b"end")
}

/// The images of a map of this period between graphs of these sizes, or the number of the first
/// line that is no next image.
pub fn read_images(
    lines: &mut Lines<'_>,
    first: &GraphSize,
    second: &GraphSize,
    m: u32,
    numbers: &mut Vec<i128>,
) -> Result<Images, RowFault>
    requires first { IsSize first.now }
    requires second { IsSize second.now }
    requires period { IsPeriod first.now m }
    ensures count { IfOk result (λ images.
        length images ≡ first.now.vertices * m ^ first.now.dim) }
    ensures images { (text : List ℕ) (items : List ItemView) (edges others : List Arc) →
        IsIn text (Mapped (drawing first.now edges) items (drawing second.now others) (begun_map m))
        lines.old → MatchResult result
        (λ images. IsIn text (Mapped (drawing first.now edges) items (drawing second.now others)
        (map_with m images [])) lines.new)
        (IfBadLine (HasBadLine text)) }
{
    let mut images = Images::new(*numbers.allocator());
    for i in 0..image_count(first, m) as u32 {
        let line = lines.number();
        let Some(x) = next_image(lines, first.dim, m, i, second, numbers)? else {
            return Err(RowFault::BadLine(line));
        };
        images.push(x)?;
    }
    Ok(images)
}

/// The shifts of a map between graphs of these sizes, or the number of the first line that is no
/// next shift.
pub fn read_shifts(
    lines: &mut Lines<'_>,
    first: &GraphSize,
    second: &GraphSize,
    numbers: &mut Vec<i128>,
) -> Result<BaseRows, RowFault>
    requires first { IsSize first.now }
    requires second { IsSize second.now }
    ensures count { IfOk result (λ base. length base ≡ first.now.dim) }
    ensures shifts { (text : List ℕ) (items : List ItemView) (edges others : List Arc) (m : ℕ)
        (images : List Vertex) → length images ≡ first.now.vertices * m ^ first.now.dim →
        IsIn text (Mapped (drawing first.now edges) items (drawing second.now others)
        (map_with m images [])) lines.old → MatchResult result
        (λ base. IsIn text (Mapped (drawing first.now edges) items (drawing second.now others)
        (map_with m images base)) lines.new)
        (IfBadLine (HasBadLine text)) }
{
    let mut base = BaseRows::new(*numbers.allocator());
    for _ in 0..first.dim {
        let line = lines.number();
        let Some(v) = next_shift(lines, second.dim, numbers)? else {
            return Err(RowFault::BadLine(line));
        };
        base.push(v)?;
    }
    Ok(base)
}
