// Writes the first line of a text, and its items.
ghost use Rattle.std.specs.Prelude.{pos, ◌≡◌, ◌++◌, ◌∷◌, [], OnOk, ◌≤◌, length, map};
ghost use Rattle.std.specs.Fmt.{signed_decimal};
ghost use Rattle.integers.specs.Vectors.{parts};
ghost use Rattle.periodic_net.specs.Graph.{vertex};
ghost use Rattle.line_text.specs.Lines.{rows_text};
ghost use Rattle.line_text.specs.Numbers.{IsWide, numbers_text};
ghost use Rattle.quotient_graph.specs.AnyGraphs.{graph_view};
ghost use Rattle.map_check.specs.Conditions.{most_images, most_period};
ghost use Rattle.map_check.specs.Layouts.{vertex_at};
ghost use Rattle.net_certificate.specs.Items.{IsTold, IsWritable, With, item_view};
ghost use Rattle.net_certificate.specs.Rows.{OfReason, OfMap, pair_text, reason_text, title_row, map_word, row_lines, OfBase, vertex_numbers, image_row, base_row, period_row, end_row, row_line};
ghost use Rattle.net_certificate.specs.Texts.{image_rows, item_rows, map_rows};

use crate::reading::size_of;
use crate::{Item, NoMap};
use graph_rows::push_graph;
use line_text::{push_number, push_numbers, push_row};
use map_check::{Image, Images, NetVertex, PeriodicMap, vertex_at};
use quotient_graph::AnyGraph;
use std::alloc::AllocError as NoMemory;
use vecdim::Triple;

/// The first line.
#[tactic(auto, unfolding(crate::specs::Rows::title_row))]
pub fn push_title(text: &mut Vec<u8>) -> Result<(), NoMemory>
    ensures { OnOk result (text.new.items ≡ text.old.items ++ rows_text (title_row ∷ [])) }
{
    text.extend_from_slice(b"net_maps 1\n")
}

/// `pair` and the number of a graph.
#[tactic(auto, unfolding(crate::specs::Rows::pair_text))]
pub fn push_pair(text: &mut Vec<u8>, k: u32) -> Result<(), NoMemory>
    ensures { OnOk result (text.new.items ≡ text.old.items ++ pair_text k) }
{
    text.extend_from_slice(b"pair ")?;
    push_number(text, i128::from(k))
}

#[tactic(auto, unfolding(crate::specs::Rows::reason_text))]
fn push_different(text: &mut Vec<u8>) -> Result<(), NoMemory>
    ensures { OnOk result (text.new.items ≡ text.old.items ++ reason_text NoMap.Different) }
{
    text.extend_from_slice(b" different")
}

fn push_count(text: &mut Vec<u8>, n: u64) -> Result<(), NoMemory>
    ensures { OnOk result (text.new.items ≡ text.old.items ++ signed_decimal (pos n)) }
{
    push_number(text, i128::from(n))
}

fn push_value(text: &mut Vec<u8>, z: i128) -> Result<(), NoMemory>
    ensures { OnOk result (text.new.items ≡ text.old.items ++ signed_decimal z) }
{
    push_number(text, z)
}

pub fn push_end_of_line(text: &mut Vec<u8>) -> Result<(), NoMemory>
    ensures { OnOk result (text.new.items ≡ text.old.items ++ 10 ∷ []) }
{
    text.extend_from_slice(b"\n")
}

fn push_long(text: &mut Vec<u8>, entries: u64) -> Result<(), NoMemory>
    ensures { OnOk result (text.new.items ≡ text.old.items ++ reason_text (NoMap.Long entries)) }
{
    text.extend_from_slice(b" long entries=")?;
    push_count(text, entries)
}

fn push_wide(text: &mut Vec<u8>, value: i128) -> Result<(), NoMemory>
    requires { IsWide value }
    ensures { OnOk result (text.new.items ≡ text.old.items ++ reason_text (NoMap.Wide value)) }
{
    text.extend_from_slice(b" wide value=")?;
    push_value(text, value)
}

// Why there is no map.
fn push_reason_text(text: &mut Vec<u8>, why: NoMap) -> Result<(), NoMemory>
    requires { IsTold why }
    ensures { OnOk result (text.new.items ≡ text.old.items ++ reason_text why) }
{
    match why {
        NoMap::Different => push_different(text),
        NoMap::Long { entries } => push_long(text, entries),
        NoMap::Wide { value } => push_wide(text, value),
    }
}

/// The row of graph k, which has no map.
pub fn push_reason(text: &mut Vec<u8>, k: u32, why: NoMap) -> Result<(), NoMemory>
    requires { IsTold why }
    ensures { OnOk result
        (text.new.items ≡ text.old.items ++ rows_text (row_lines (OfReason k why ∷ []))) }
{
    push_pair(text, k)?;
    push_reason_text(text, why)?;
    text.extend_from_slice(b"\n")
}

// What follows the number of a graph that has a map.
#[tactic(auto, unfolding(crate::specs::Rows::map_word))]
fn push_map_word(text: &mut Vec<u8>) -> Result<(), NoMemory>
    ensures { OnOk result (text.new.items ≡ text.old.items ++ map_word) }
{
    text.extend_from_slice(b" map")
}

/// The first row of graph k, which has a map.
pub fn push_map_row(text: &mut Vec<u8>, k: u32) -> Result<(), NoMemory>
    ensures { OnOk result
        (text.new.items ≡ text.old.items ++ rows_text (row_lines (OfMap k ∷ []))) }
{
    push_pair(text, k)?;
    push_map_word(text)?;
    text.extend_from_slice(b"\n")
}

#[tactic(auto, unfolding(crate::specs::Rows::period_row))]
fn push_period(text: &mut Vec<u8>, m: u32) -> Result<(), NoMemory>
    ensures { OnOk result (text.new.items ≡ text.old.items ++ rows_text (period_row m ∷ [])) }
{
    push_row(text, b"period", &[i128::from(m)])
}

// The parts of a vector of this dimension, each after a blank.
fn push_parts(text: &mut Vec<u8>, dim: u8, v: &Triple) -> Result<(), NoMemory>
    ensures { OnOk result (text.new.items ≡ text.old.items ++ numbers_text (parts dim v.now)) }
{
    if dim == 2 {
        push_numbers(text, &[v.x, v.y])
    } else {
        push_numbers(text, &[v.x, v.y, v.z])
    }
}

// The numbers of a vertex of a net of this dimension, each after a blank.
fn push_vertex(text: &mut Vec<u8>, dim: u8, over: u32, cell: &Triple) -> Result<(), NoMemory>
    ensures { OnOk result (text.new.items ≡
        text.old.items ++ numbers_text (vertex_numbers dim (vertex over cell.now))) }
{
    push_numbers(text, &[i128::from(over)])?;
    push_parts(text, dim, cell)
}

fn push_image(
    text: &mut Vec<u8>,
    dim: u8,
    w: &NetVertex,
    other: u8,
    x: &Image,
) -> Result<(), NoMemory>
    ensures { OnOk result
        (text.new.items ≡ text.old.items ++ rows_text (image_row dim other w.now x.now ∷ [])) }
{
    text.extend_from_slice(b"image")?;
    push_vertex(text, dim, w.over, &w.cell)?;
    push_vertex(text, other, x.v, &x.t)?;
    push_end_of_line(text)
}

#[tactic(auto, unfolding(crate::specs::Rows::base_row))]
fn push_shift(text: &mut Vec<u8>, other: u8, v: &Triple) -> Result<(), NoMemory>
    ensures { OnOk result
        (text.new.items ≡ text.old.items ++ rows_text (base_row other v.now ∷ [])) }
{
    text.extend_from_slice(b"base")?;
    push_parts(text, other, v)?;
    text.extend_from_slice(b"\n")
}

// The images of a map with period m, between nets of these dimensions.
fn push_images(
    text: &mut Vec<u8>,
    dim: u8,
    other: u8,
    m: u32,
    images: &Images,
) -> Result<(), NoMemory>
    requires from { 1 ≤ m }
    requires to { m ≤ most_period }
    requires few { length images.now ≤ most_images }
    ensures { OnOk result (text.new.items ≡ text.old.items ++
        rows_text (row_lines (image_rows dim other m 0 images.now))) }
{
    for i in 0..images.len() {
        push_image(text, dim, &vertex_at(dim, m, i as u32), other, images.at(i))?;
    }
    Ok(())
}

// The shifts of a map to a net of this dimension.
fn push_shifts(text: &mut Vec<u8>, other: u8, base: &[Triple]) -> Result<(), NoMemory>
    ensures { OnOk result (text.new.items ≡
        text.old.items ++ rows_text (row_lines (map (OfBase other) base.now))) }
{
    for v in base {
        push_shift(text, other, v)?;
    }
    Ok(())
}

// A period, images and shifts, of a map between nets of these dimensions.
fn push_map(text: &mut Vec<u8>, dim: u8, other: u8, map: &PeriodicMap) -> Result<(), NoMemory>
    requires from { 1 ≤ map.now.m }
    requires to { map.now.m ≤ most_period }
    requires few { length map.now.images ≤ most_images }
    ensures { OnOk result (text.new.items ≡ text.old.items ++
        rows_text (row_lines (map_rows dim other map.now))) }
{
    push_period(text, map.m)?;
    push_images(text, dim, other, map.m, &map.images)?;
    push_shifts(text, other, map.base.as_slice())
}

#[tactic(auto, unfolding(crate::specs::Rows::end_row))]
fn push_end(text: &mut Vec<u8>) -> Result<(), NoMemory>
    ensures { OnOk result (text.new.items ≡ text.old.items ++ rows_text (end_row ∷ [])) }
{
    text.extend_from_slice(b"end\n")
}

// The item of graph k, to which there is a map from a net of this dimension.
fn push_with(
    text: &mut Vec<u8>,
    k: u32,
    dim: u8,
    graph: &AnyGraph,
    map: &PeriodicMap,
) -> Result<(), NoMemory>
    requires from { 1 ≤ map.now.m }
    requires to { map.now.m ≤ most_period }
    requires few { length map.now.images ≤ most_images }
    ensures { OnOk result (text.new.items ≡ text.old.items ++
        rows_text (row_lines (item_rows dim k (With (graph_view graph.now) map.now)))) }
{
    push_map_row(text, k)?;
    push_graph(text, graph)?;
    push_map(text, dim, size_of(graph).dim, map)?;
    push_end(text)
}

/// The item of graph k, if the first net has this dimension.
pub fn push_item(text: &mut Vec<u8>, k: u32, dim: u8, item: &Item) -> Result<(), NoMemory>
    requires { IsWritable (item_view item.now) }
    ensures { OnOk result (text.new.items ≡ text.old.items ++
        rows_text (row_lines (item_rows dim k (item_view item.now)))) }
{
    match item {
        Item::Without(why) => push_reason(text, k, *why),
        Item::With(graph, map) => push_with(text, k, dim, graph, map),
    }
}
