// Reads a text of maps: the first line of an item, an item, and all items.
ghost use Rattle.std.specs.Prelude.{ℕ, ℤ, pos, true, List, ◌≡◌, ◌≢◌, ◌<◌, ◌^◌, ◌++◌, ◌∷◌, [], IfSome, IfNone, MatchOption, Some, length, MatchResult, ◌≤◌, IfOk, Option};
ghost use Rattle.periodic_net.specs.Graph.{Arc};
ghost use Rattle.line_text.specs.Lines.{IsAt};
ghost use Rattle.line_text.specs.Numbers.{IsWide};
ghost use Rattle.line_text.specs.Faults.{IfBadLine};
ghost use Rattle.quotient_graph.specs.AnyGraphs.{graph_view};
ghost use Rattle.graph_rows.specs.Forms.{IsSize};
ghost use Rattle.graph_rows.specs.Rows.{size_of_graph};
ghost use Rattle.graph_rows.specs.Reading.{IsFormedGraph};
ghost use Rattle.net_certificate.specs.Items.{IsTold, ItemView, item_view, Maps, item_views, maps_in};
ghost use Rattle.net_certificate.specs.Rows.{pair_text, reason_text, map_word, row_line};
ghost use Rattle.net_certificate.specs.Pairs.{heading_text, heading_row, IsToldHeading, NoPair};
ghost use Rattle.net_certificate.specs.declared.items.NoMap.{NoMap};
ghost use Rattle.net_certificate.specs.declared.reading.Heading.{Heading as HeadingView};
ghost use Rattle.net_certificate.specs.Reading.{HasBadLine, HasMap, IsIn, HasBegun, HasItems, HasNoGraph, IsBegun, IsTextOf};
ghost use Rattle.net_certificate.specs.Stages.{Drawn, Listed, Opened, drawing, next_number, with_item, Titled};
ghost use Rattle.net_certificate.specs.Texts.{most_bytes};

use crate::tables::{next_end, next_period, next_title, read_images, read_shifts};
use crate::{Item, MapsText, NoMap};
use graph_rows::{GraphSize, read_graph};
use itoa::Buffer;
use line_text::{Lines, RowFault, read_number};
use lists::Items;
use map_check::PeriodicMap;
use quotient_graph::{AnyGraph, Graph};
use std::alloc::Global;

/// What the first line of an item says: why there is no map, or that there is one.
#[derive(Clone, Copy, PartialEq, Eq)]
pub enum Heading {
    Reason(NoMap),
    Map,
}

// What follows a word, where the text begins with it.
fn after<'a>(text: &'a [u8], word: &[u8]) -> Option<&'a [u8]>
    ensures { MatchOption result ((rest : List ℕ) → text.now ≢ word.now ++ rest)
        (λ rest. text.now ≡ word.now ++ rest.now) }
{
    text.strip_prefix(word)
}

// What follows `pair` and the number of a graph.
#[tactic(auto, unfolding(crate::specs::Rows::pair_text))]
fn after_pair<'a>(line: &'a [u8], k: u32) -> Option<&'a [u8]>
    ensures { MatchOption result ((rest : List ℕ) → line.now ≢ pair_text k ++ rest)
        (λ rest. line.now ≡ pair_text k ++ rest.now) }
{
    let mut buffer = Buffer::new();
    match after(line, b"pair ") {
        Some(rest) => after(rest, buffer.format(k).as_bytes()),
        None => None,
    }
}

// The number, if it has 64 bits.
fn short(n: i128) -> Option<u64>
    ensures found { IfSome result (λ k. n ≡ pos k) }
    ensures form { IfSome result (λ k. k < 2 ^ 64) }
    ensures every { (k : ℕ) → k < 2 ^ 64 → n ≡ pos k → result ≡ Some k }
{
    if n < 0 || n > u64::MAX as i128 {
        None
    } else {
        Some(n as u64)
    }
}

// The number of images of a map that is too long.
fn entries_of(text: &[u8]) -> Option<u64>
    ensures found { IfSome result (λ n. text.now ≡ reason_text (NoMap.Long n)) }
    ensures form { IfSome result (λ n. n < 2 ^ 64) }
    ensures every { (n : ℕ) → n < 2 ^ 64 → text.now ≡ reason_text (NoMap.Long n) → result ≡ Some n }
{
    match after(text, b" long entries=") {
        Some(digits) => match read_number(digits) {
            Some(n) => short(n),
            None => None,
        },
        None => None,
    }
}

// The number of a map that is too wide.
fn value_of(text: &[u8]) -> Option<i128>
    ensures found { IfSome result (λ z. text.now ≡ reason_text (NoMap.Wide z)) }
    ensures wide { IfSome result IsWide }
    ensures every { (z : ℤ) → IsWide z → text.now ≡ reason_text (NoMap.Wide z) → result ≡ Some z }
{
    match after(text, b" wide value=") {
        Some(digits) => read_number(digits),
        None => None,
    }
}

fn is_word(text: &[u8], word: &[u8]) -> bool
    ensures found { result ≡ true → text.now ≡ word.now }
    ensures every { text.now ≡ word.now → result ≡ true }
{
    text == word
}

// Why there is no map.
fn reason_of(text: &[u8]) -> Option<NoMap>
    ensures found { IfSome result (λ why. text.now ≡ reason_text why) }
    ensures form { IfSome result IsTold }
    ensures every { (why : NoMap) → IsTold why → text.now ≡ reason_text why → result ≡ Some why }
{
    if is_word(text, b" different") {
        return Some(NoMap::Different);
    }
    match entries_of(text) {
        Some(entries) => Some(NoMap::Long { entries }),
        None => match value_of(text) {
            Some(value) => Some(NoMap::Wide { value }),
            None => None,
        },
    }
}

// What stands after the number of a graph.
fn heading_of(text: &[u8]) -> Option<Heading>
    ensures found { IfSome result (λ h. text.now ≡ heading_text h) }
    ensures form { IfSome result IsToldHeading }
    ensures every { (h : HeadingView) → IsToldHeading h → text.now ≡ heading_text h →
        result ≡ Some h }
{
    if is_word(text, b" map") {
        return Some(Heading::Map);
    }
    match reason_of(text) {
        Some(why) => Some(Heading::Reason(why)),
        None => None,
    }
}

/// What the next line says of graph k, if it is the first line of its item.
pub fn next_heading(lines: &mut Lines<'_>, k: u32) -> Option<Heading>
    ensures place { (text : List ℕ) (rows : List (List ℕ)) → IsAt text rows lines.old →
        IfSome result (λ h. IsAt text (rows ++ row_line (heading_row k h) ∷ []) lines.new) }
    ensures form { IfSome result IsToldHeading }
    ensures none { IfNone result (NoPair k lines.old.rest) }
{
    match lines.next() {
        Some(line) => match after_pair(line, k) {
            Some(text) => heading_of(text),
            None => None,
        },
        None => None,
    }
}

fn drawn_size<const D: usize>(graph: &Graph<D>) -> GraphSize
    ensures { result ≡ size_of_graph graph.now }
{
    GraphSize {
        dim: graph.dimension(),
        vertices: graph.vertices(),
        edges: graph.edge_count(),
    }
}

/// The size of a graph.
pub fn size_of(graph: &AnyGraph) -> GraphSize
    ensures { result ≡ size_of_graph (graph_view graph.now) }
{
    match graph {
        AnyGraph::Flat(graph) => drawn_size(graph),
        AnyGraph::Space(graph) => drawn_size(graph),
    }
}

// The map on the next lines, between graphs of these sizes, or the number of the first line that is
// none of its own.
fn read_map(
    lines: &mut Lines<'_>,
    first: &GraphSize,
    second: &GraphSize,
    numbers: &mut Vec<i128>,
) -> Result<PeriodicMap, RowFault>
    requires first { IsSize first.now }
    requires second { IsSize second.now }
    ensures { (text : List ℕ) (items : List ItemView) (edges others : List Arc) →
        length others ≡ second.now.edges →
        IsIn text (Drawn (drawing first.now edges) items (drawing second.now others)) lines.old →
        MatchResult result
        (HasMap text (drawing first.now edges) items (drawing second.now others) lines.new)
        (IfBadLine (HasBadLine text)) }
{
    let line = lines.number();
    let Some(m) = next_period(lines, first, numbers)? else {
        return Err(RowFault::BadLine(line));
    };
    let images = read_images(lines, first, second, m, numbers)?;
    let base = read_shifts(lines, first, second, numbers)?;
    Ok(PeriodicMap { m, images, base })
}

// What the item says whose first line says that there is a map from a graph of this size.
fn read_pair(
    lines: &mut Lines<'_>,
    first: &GraphSize,
    numbers: &mut Vec<i128>,
) -> Result<Item, RowFault>
    requires { IsSize first.now }
    ensures { (text : List ℕ) (items : List ItemView) (edges : List Arc) →
        IsIn text (Opened (drawing first.now edges) items) lines.old →
        MatchResult result
        (λ item. IsIn text (Listed (drawing first.now edges) (with_item items (item_view item)))
        lines.new)
        (IfBadLine (HasBadLine text)) }
{
    let graph = read_graph(lines, numbers)?;
    let second = size_of(&graph);
    let map = read_map(lines, first, &second, numbers)?;
    let line = lines.number();
    if next_end(lines) {
        Ok(Item::With(graph, map))
    } else {
        Err(RowFault::BadLine(line))
    }
}

/// The item of graph k, if the first graph has this size, or the number of the first line that
/// may not stand where it stands.
pub fn read_item(
    lines: &mut Lines<'_>,
    first: &GraphSize,
    k: u32,
    numbers: &mut Vec<i128>,
) -> Result<Item, RowFault>
    requires size { IsSize first.now }
    requires left { lines.old.rest ≢ [] }
    ensures { (text : List ℕ) (items : List ItemView) (edges : List Arc) →
        length edges ≡ first.now.edges → k ≡ next_number items →
        IsIn text (Listed (drawing first.now edges) items) lines.old →
        MatchResult result
        (λ item. IsIn text (Listed (drawing first.now edges) (with_item items (item_view item)))
        lines.new)
        (IfBadLine (HasBadLine text)) }
{
    let line = lines.number();
    match next_heading(lines, k) {
        Some(Heading::Reason(why)) => Ok(Item::Without(why)),
        Some(Heading::Map) => read_pair(lines, first, numbers),
        None => Err(RowFault::BadLine(line)),
    }
}

// The first graph, if the text has one, or the number of the first line that is none of its own.
fn read_graph_after(
    lines: &mut Lines<'_>,
    numbers: &mut Vec<i128>,
) -> Result<Option<AnyGraph>, RowFault>
    ensures first { (text : List ℕ) → IsIn text Titled lines.old →
        MatchResult result (λ first. MatchOption first
        (HasNoGraph text lines.new) (λ g. IsBegun (graph_view g) text lines.new))
        (IfBadLine (HasBadLine text)) }
    ensures form { IfOk result (λ first. IfSome first (λ g. IsFormedGraph (graph_view g))) }
{
    if lines.is_empty() {
        return Ok(None);
    }
    let graph = read_graph(lines, numbers)?;
    Ok(Some(graph))
}

/// The first graph of a text, if there is one, or the number of the first line that may not
/// stand where it stands.
pub fn read_first(
    lines: &mut Lines<'_>,
    numbers: &mut Vec<i128>,
) -> Result<Option<AnyGraph>, RowFault>
    ensures first { (text : List ℕ) → IsAt text [] lines.old →
        MatchResult result (λ first. MatchOption first
        (HasNoGraph text lines.new) (λ g. IsBegun (graph_view g) text lines.new))
        (IfBadLine (HasBadLine text)) }
    ensures form { IfOk result (λ first. IfSome first (λ g. IsFormedGraph (graph_view g))) }
{
    let line = lines.number();
    if next_title(lines) {
        read_graph_after(lines, numbers)
    } else {
        Err(RowFault::BadLine(line))
    }
}

// The items that are left of a text, or the number of the first line that may not stand if it
// stands.
fn read_items(
    lines: &mut Lines<'_>,
    first: &AnyGraph,
    numbers: &mut Vec<i128>,
) -> Result<Items<Item>, RowFault>
    requires form { IsFormedGraph (graph_view first.now) }
    requires begun { HasBegun (graph_view first.now) lines.old }
    requires few { length lines.old.rest ≤ most_bytes }
    ensures { (text : List ℕ) → IsBegun (graph_view first.now) text lines.old →
        MatchResult result
        (λ items. HasItems text (graph_view first.now) lines.new (item_views items))
        (IfBadLine (HasBadLine text)) }
{
    let size = size_of(first);
    let mut items = Items::new(*numbers.allocator());
    let mut k = 2;
    while !lines.is_empty() {
        let item = read_item(lines, &size, k, numbers)?;
        items.push(item)?;
        k += 1;
    }
    Ok(items)
}

/// What a text says, or the number of its first bad line.
pub fn read(alloc: Global, text: &[u8]) -> Result<Option<MapsText>, RowFault>
    requires { length text.now ≤ most_bytes }
    ensures read { MatchResult result (λ maps. IsTextOf text.now (maps_in maps))
        (IfBadLine (HasBadLine text.now)) }
    ensures every { (maps : Option Maps) → IsTextOf text.now maps →
        MatchResult result (λ found. maps_in found ≡ maps) (IfBadLine (λ line. ⊥)) }
{
    let mut lines = Lines::new(text);
    let mut numbers = Vec::new(alloc);
    let Some(first) = read_first(&mut lines, &mut numbers)? else {
        return Ok(None);
    };
    let items = read_items(&mut lines, &first, &mut numbers)?;
    Ok(Some(MapsText { first, items }))
}
