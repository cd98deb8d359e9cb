// Checks the maps of a text, and reports what is found of each.
ghost use Rattle.std.specs.Prelude.{◌≡◌, ◌++◌, ◌∷◌, [], OnOk, true, IfOk, ℕ, List, ◌≢◌, ◌≤◌, length, IsErrOf, MatchResult};
ghost use Rattle.line_text.specs.Lines.{rows_text};
ghost use Rattle.line_text.specs.Numbers.{field_text};
ghost use Rattle.line_text.specs.Faults.{IfBadLine};
ghost use Rattle.quotient_graph.specs.AnyGraphs.{graph_view};
ghost use Rattle.map_check.specs.Conditions.{SuitsGraphs};
ghost use Rattle.graph_rows.specs.Reading.{IsFormedGraph};
ghost use Rattle.graph_rows.specs.Rows.{size_of_graph};
ghost use Rattle.net_certificate.specs.ResultLines.{fault_text, site_text, unproved_row, unproved_text, verdict_row, verdict_text, verified_text};
ghost use Rattle.net_certificate.specs.Items.{IsFormedItem, item_view};
ghost use Rattle.net_certificate.specs.Results.{HasMapResult, HasResult};
ghost use Rattle.net_certificate.specs.Reading.{HasBadLine, HasBegun, IsBegun};
ghost use Rattle.net_certificate.specs.Texts.{most_bytes};
ghost use Rattle.net_certificate.specs.Checks.{AreAll, IsChecked};

use crate::write::push_pair;
use crate::{Item, read_first, read_item, size_of};
use graph_rows::push_parts;
use itoa::Buffer;
use line_text::{Lines, RowFault, push_field};
use map_check::{MapFault, PeriodicMap, Verdict, verify};
use quotient_graph::AnyGraph;
use std::alloc::{AllocError as NoMemory, Global};
use vecdim::Triple;

// A number of 128 bits after its label.
fn push_product(text: &mut Vec<u8>, label: &[u8], n: u128) -> Result<(), NoMemory>
    ensures { OnOk result (text.new.items ≡ text.old.items ++ field_text label.now n) }
{
    let mut buffer = Buffer::new();
    text.extend_from_slice(label)?;
    text.extend_from_slice(buffer.format(n).as_bytes())
}

// A vertex and a cell of a net of this dimension, each after its label.
fn push_site(
    text: &mut Vec<u8>,
    dim: u8,
    first: &[u8],
    u: u32,
    second: &[u8],
    r: &Triple,
) -> Result<(), NoMemory>
    ensures { OnOk result
        (text.new.items ≡ text.old.items ++ site_text dim first.now u second.now r.now) }
{
    push_field(text, first, u64::from(u))?;
    text.extend_from_slice(second)?;
    push_parts(text, dim, r)
}

#[tactic(auto, unfolding(crate::specs::ResultLines::fault_text))]
fn push_dimension(text: &mut Vec<u8>, dim: u8) -> Result<(), NoMemory>
    ensures { OnOk result
        (text.new.items ≡ text.old.items ++ fault_text dim MapFault.Dimension) }
{
    text.extend_from_slice(b" refused 1 Dimension")
}

fn push_count(text: &mut Vec<u8>, dim: u8, entries: u64, product: u128) -> Result<(), NoMemory>
    ensures { OnOk result
        (text.new.items ≡ text.old.items ++ fault_text dim (MapFault.Count entries product)) }
{
    push_field(text, b" refused 2 Count entries=", entries)?;
    push_product(text, b" product=", product)
}

#[tactic(auto, unfolding(crate::specs::ResultLines::fault_text))]
fn push_doubled(text: &mut Vec<u8>, dim: u8, u: u32, r: &Triple) -> Result<(), NoMemory>
    ensures { OnOk result
        (text.new.items ≡ text.old.items ++ fault_text dim (MapFault.Doubled u r.now)) }
{
    push_site(text, dim, b" refused 3 Doubled u=", u, b" r=", r)
}

#[tactic(auto, unfolding(crate::specs::ResultLines::fault_text))]
fn push_degree(text: &mut Vec<u8>, dim: u8, u: u32, r: &Triple) -> Result<(), NoMemory>
    ensures { OnOk result
        (text.new.items ≡ text.old.items ++ fault_text dim (MapFault.Degree u r.now)) }
{
    push_site(text, dim, b" refused 4 Degree u=", u, b" r=", r)
}

fn push_arc(
    text: &mut Vec<u8>,
    dim: u8,
    u: u32,
    r: &Triple,
    v: u32,
    s: &Triple,
) -> Result<(), NoMemory>
    ensures { OnOk result
        (text.new.items ≡ text.old.items ++ fault_text dim (MapFault.Arc u r.now v s.now)) }
{
    push_site(text, dim, b" refused 5 Arc u=", u, b" r=", r)?;
    push_site(text, dim, b" v=", v, b" s=", s)
}

fn push_fault(text: &mut Vec<u8>, dim: u8, fault: &MapFault) -> Result<(), NoMemory>
    ensures { OnOk result (text.new.items ≡ text.old.items ++ fault_text dim fault.now) }
{
    match fault {
        MapFault::Dimension => push_dimension(text, dim),
        MapFault::Count { entries, product } => push_count(text, dim, *entries, *product),
        MapFault::Doubled { u, r } => push_doubled(text, dim, *u, r),
        MapFault::Degree { u, r } => push_degree(text, dim, *u, r),
        MapFault::Arc { u, r, v, s } => push_arc(text, dim, *u, r, *v, s),
    }
}

#[tactic(auto, unfolding(crate::specs::ResultLines::verified_text))]
fn push_verified(text: &mut Vec<u8>) -> Result<(), NoMemory>
    ensures { OnOk result (text.new.items ≡ text.old.items ++ verified_text) }
{
    text.extend_from_slice(b" verified")
}

fn push_verdict_text(text: &mut Vec<u8>, dim: u8, verdict: &Verdict) -> Result<(), NoMemory>
    ensures { OnOk result (text.new.items ≡ text.old.items ++ verdict_text dim verdict.now) }
{
    match verdict {
        Verdict::Yes => push_verified(text),
        Verdict::No(fault) => push_fault(text, dim, fault),
    }
}

/// The line of graph k, to which there is a map from a net of this dimension.
pub fn push_verdict(text: &mut Vec<u8>, k: u32, dim: u8, verdict: &Verdict) -> Result<(), NoMemory>
    ensures { OnOk result
        (text.new.items ≡ text.old.items ++ rows_text (verdict_row k dim verdict.now ∷ [])) }
{
    push_pair(text, k)?;
    push_verdict_text(text, dim, verdict)?;
    text.extend_from_slice(b"\n")
}

#[tactic(auto, unfolding(crate::specs::ResultLines::unproved_text))]
fn push_unproved_text(text: &mut Vec<u8>) -> Result<(), NoMemory>
    ensures { OnOk result (text.new.items ≡ text.old.items ++ unproved_text) }
{
    text.extend_from_slice(b" unproved")
}

/// The line of graph k, to which no map is written.
pub fn push_unproved(text: &mut Vec<u8>, k: u32) -> Result<(), NoMemory>
    ensures { OnOk result
        (text.new.items ≡ text.old.items ++ rows_text (unproved_row k ∷ [])) }
{
    push_pair(text, k)?;
    push_unproved_text(text)?;
    text.extend_from_slice(b"\n")
}

// Puts the line of graph k last, the map to which has a fault.
fn push_no(text: &mut Vec<u8>, k: u32, dim: u8, fault: MapFault) -> Result<bool, NoMemory>
    ensures line { OnOk result (text.new.items ≡
        text.old.items ++ rows_text (verdict_row k dim (Verdict.No fault) ∷ [])) }
    ensures refused { IfOk result (λ refused. refused ≡ true) }
{
    push_verdict(text, k, dim, &Verdict::No(fault))?;
    Ok(true)
}

// Puts the line of graph k last, to which there is a map, and shows whether the map is refused.
fn push_map_result(
    alloc: Global,
    text: &mut Vec<u8>,
    k: u32,
    first: &AnyGraph,
    second: &AnyGraph,
    map: &PeriodicMap,
) -> Result<bool, NoMemory>
    requires { SuitsGraphs (graph_view first.now) (graph_view second.now) map.now.m map.now.images
        map.now.base }
    ensures { IfOk result (HasMapResult (graph_view first.now) (graph_view second.now) map.now k
        text.old.items text.new.items) }
{
    match verify(alloc, first, second, map)? {
        Verdict::Yes => {
            push_verdict(text, k, size_of(first).dim, &Verdict::Yes)?;
            Ok(false)
        }
        Verdict::No(fault) => push_no(text, k, size_of(first).dim, fault),
    }
}

/// Puts the line of graph k last, and shows whether there is a map to it that is refused.
pub fn push_result(
    alloc: Global,
    text: &mut Vec<u8>,
    k: u32,
    first: &AnyGraph,
    item: &Item,
) -> Result<bool, NoMemory>
    requires { IsFormedItem (graph_view first.now) (item_view item.now) }
    ensures { IfOk result (HasResult (graph_view first.now) k (item_view item.now)
        text.old.items text.new.items) }
{
    match item {
        Item::Without(_) => {
            push_unproved(text, k)?;
            Ok(false)
        }
        Item::With(second, map) => push_map_result(alloc, text, k, first, second, map),
    }
}

/// What was found of the maps of a text: its lines, and how many of the maps are refused.
#[derive(Debug, Drop)]
pub struct CheckedMaps {
    pub text: Vec<u8>,
    pub refused: u32,
}

/// Why nothing is reported of a text.
#[derive(Clone, Copy, Debug, PartialEq, Eq)]
pub enum MapsFault {
    /// The first line that may not stand where it stands, or the first that is missing.
    Bad { line: u32 },
    NoMemory,
}

// What is found of the items that are left of a text, or the number of its first bad line.
fn check_items(
    alloc: Global,
    lines: &mut Lines<'_>,
    first: &AnyGraph,
    numbers: &mut Vec<i128>,
) -> Result<CheckedMaps, RowFault>
    requires form { IsFormedGraph (graph_view first.now) }
    requires begun { HasBegun (graph_view first.now) lines.old }
    requires few { length lines.old.rest ≤ most_bytes }
    ensures { (text : List ℕ) → IsBegun (graph_view first.now) text lines.old →
        MatchResult result (AreAll text (graph_view first.now) lines.new)
        (IfBadLine (HasBadLine text)) }
{
    let size = size_of(first);
    let mut text = Vec::new(alloc);
    let mut refused = 0;
    let mut k = 2;
    while !lines.is_empty() {
        let item = read_item(lines, &size, k, numbers)?;
        if push_result(alloc, &mut text, k, first, &item)? {
            refused += 1;
        }
        k += 1;
    }
    Ok(CheckedMaps { text, refused })
}

// What is found of the maps of a text, or the number of its first bad line.
fn check_text(alloc: Global, text: &[u8]) -> Result<CheckedMaps, RowFault>
    requires { length text.now ≤ most_bytes }
    ensures { MatchResult result (IsChecked text.now) (IfBadLine (HasBadLine text.now)) }
{
    let mut lines = Lines::new(text);
    let mut numbers = Vec::new(alloc);
    let Some(first) = read_first(&mut lines, &mut numbers)? else {
        let text = Vec::new(alloc);
        return Ok(CheckedMaps { text, refused: 0 });
    };
    check_items(alloc, &mut lines, &first, &mut numbers)
}

/// What is found of the maps of a text.
pub fn check_maps(alloc: Global, text: &[u8]) -> Result<CheckedMaps, MapsFault>
    requires { length text.now ≤ most_bytes }
    ensures checked { IfOk result (IsChecked text.now) }
    ensures bad { (line : ℕ) → IsErrOf result (MapsFault.Bad line) → HasBadLine text.now line }
{
    match check_text(alloc, text) {
        Ok(checked) => Ok(checked),
        Err(RowFault::BadLine(line)) => Err(MapsFault::Bad { line }),
        Err(RowFault::NoMemory) => Err(MapsFault::NoMemory),
    }
}
