// The items of a text, in one pass over its lines.
ghost use Rattle.std.specs.Prelude.{◌≡◌, ◌∷◌, ◌≤◌, ◌<◌, ◌++◌, ◌+◌, [], ℕ, true, List, length, Some, IfOk, IfSome, OnOk, IsErrOf, if◌then◌else◌};
ghost use Rattle.std.specs.Option.{option_copied, option_map};
ghost use Rattle.cgd_lex.specs.Limits.{longest_text};
ghost use Rattle.cgd_lex.specs.Lines.{rest_of_line, after_line};
ghost use Rattle.quotient_graph.specs.AnyGraphs.{graph_view};
ghost use Rattle.quotient_graph.specs.Stars.{IsInOrder};
ghost use Rattle.keyline_import.specs.Lines.{LineView, lines_in, is_end, begins_item};
ghost use Rattle.keyline_import.specs.Keys.{graph_of_key, IsKeyWithin};
ghost use Rattle.keyline_import.specs.Faults.{key_of, name_of};
ghost use Rattle.keyline_import.specs.Items.{ItemView, with_body, faulty, body_with, item_after, item_of, items_of, after_end, most_items, IsItem};
ghost use Rattle.keyline_import.specs.Reading.{line_view};
ghost use Rattle.keyline_import.specs.Views.{key_view, IsStateAfter, IsItemRead, IsBodyOf, AreItemsOf, AreRead};

use crate::NoMemory;
use crate::cursor::{next_head, pass_line};
use crate::item::{Item, ItemBody, ItemFault, ItemFaultKind, ItemRefusal};
use crate::keyed::KeyRows;
use crate::line::{Head, LineKind};
use crate::state::State;
use cgd_lex::Lexer;
use quotient_graph::{AnyGraph, from_unsorted};
use std::alloc::Global;

/// Items of a text that is read.
pub const MOST_ITEMS: usize = 4096;

// Passes over the lines of an item, and over the line that ends it.
fn pass_item(lexer: &mut Lexer<'_>)
    ensures lines { lines_in lexer.new ≡ after_end (lines_in lexer.old) }
    ensures shorter { length lexer.new ≤ length lexer.old }
{
    while let Some(head) = next_head(lexer) {
        pass_line(lexer);
        if head.kind.is_end() {
            return;
        }
    }
}

// Passes over what is left of an item after a line of this kind.
fn pass_from(lexer: &mut Lexer<'_>, kind: LineKind)
    ensures lines { lines_in lexer.new ≡
        (if is_end kind then lines_in lexer.old else after_end (lines_in lexer.old)) }
    ensures shorter { length lexer.new ≤ length lexer.old }
{
    if !kind.is_end() {
        pass_item(lexer);
    }
}

// The graph of a key line.
fn graph_of(alloc: Global, key: &KeyRows) -> Result<AnyGraph, NoMemory>
    requires { IsKeyWithin (key_view key.now) }
    ensures { IfOk result (λ g. IsInOrder (graph_of_key (key_view key.now)) (graph_view g)) }
{
    from_unsorted(alloc, key.dim, key.vertices, key.edges.as_slice())
}

fn faulty_at(line: u32, kind: ItemFaultKind) -> ItemBody
    ensures { IsBodyOf (faulty line kind) result }
{
    ItemBody::Faulty(ItemFault { line, kind })
}

// The body of an item that ends at this line, with this key.
fn body_with(alloc: Global, line: u32, key: Option<&KeyRows>) -> Result<ItemBody, NoMemory>
    requires { IfSome key (λ key. IsKeyWithin (key_view key.now)) }
    ensures { IfOk result (
        IsBodyOf (body_with line (option_map (λ key. key_view key.now) key.entry))) }
{
    match key {
        None => Ok(faulty_at(line, ItemFaultKind::Missing)),
        Some(key) => Ok(ItemBody::Graph(graph_of(alloc, key)?, key.repeats)),
    }
}

// The item that begins at this line, whose first fault is in that one.
fn faulty_item<'a>(opening: u32, name: Option<&'a [u8]>, line: u32, kind: ItemFaultKind) -> Item<'a>
    ensures { (earlier : List LineView) → option_copied name.entry ≡ name_of earlier →
        IsItemRead (with_body opening earlier (faulty line kind)) result }
{
    Item {
        line: opening,
        name,
        body: faulty_at(line, kind),
    }
}

// The item that begins at one line and ends at another.
fn ended_item<'a>(
    alloc: Global,
    opening: u32,
    line: u32,
    state: &State<'a>,
) -> Result<Item<'a>, NoMemory>
    requires { IfSome state.now.key (λ key. IsKeyWithin (key_view key)) }
    ensures { IfOk result (λ item. (earlier : List LineView) → IsStateAfter state.now earlier →
        IsItemRead (with_body opening earlier (body_with line (key_of earlier))) item) }
{
    Ok(Item {
        line: opening,
        name: state.name,
        body: body_with(alloc, line, state.key.as_ref())?,
    })
}

// The item that the line that begins in this way begins; the state is that of no line yet. The
// numbers are scratch.
fn read_lines<'a>(
    alloc: Global,
    lexer: &mut Lexer<'a>,
    opening: &Head,
    numbers: &mut Vec<i32>,
    state: &mut State<'a>,
) -> Result<Item<'a>, NoMemory>
    requires room { length lexer.old ≤ longest_text }
    requires begins { begins_item opening.now.kind ≡ true }
    requires new { IsStateAfter state.old [] }
    ensures item { IfOk result (IsItemRead (item_of
        (line_view opening.now (rest_of_line lexer.old)) (lines_in (after_line lexer.old)))) }
    ensures lines { OnOk result (
        lines_in lexer.new ≡ after_end (lines_in (after_line lexer.old))) }
    ensures shorter { OnOk result (length lexer.new ≤ length lexer.old) }
{
    if let Some(kind) = state.judge(alloc, lexer, opening, numbers)? {
        pass_item(lexer);
        return Ok(faulty_item(opening.number, None, opening.number, kind));
    }
    while let Some(head) = next_head(lexer) {
        let name = state.name;
        if let Some(kind) = state.judge(alloc, lexer, &head, numbers)? {
            pass_from(lexer, head.kind);
            return Ok(faulty_item(opening.number, name, head.number, kind));
        }
        if head.kind.is_end() {
            return ended_item(alloc, opening.number, head.number, state);
        }
    }
    Ok(faulty_item(
        opening.number,
        state.name,
        opening.number,
        ItemFaultKind::NoEnd,
    ))
}

// The item that the line that begins in this way begins. The numbers are scratch.
fn read_item<'a>(
    alloc: Global,
    lexer: &mut Lexer<'a>,
    opening: &Head,
    numbers: &mut Vec<i32>,
) -> Result<Item<'a>, NoMemory>
    requires room { length lexer.old ≤ longest_text }
    requires begins { begins_item opening.now.kind ≡ true }
    ensures item { IfOk result (IsItemRead (item_of
        (line_view opening.now (rest_of_line lexer.old)) (lines_in (after_line lexer.old)))) }
    ensures lines { OnOk result (
        lines_in lexer.new ≡ after_end (lines_in (after_line lexer.old))) }
    ensures shorter { OnOk result (length lexer.new ≤ length lexer.old) }
{
    let mut state: State<'a> = State::new();
    read_lines(alloc, lexer, opening, numbers, &mut state)
}

// Adds the item that the line that begins in this way begins. The numbers are scratch.
fn add_item<'a>(
    alloc: Global,
    lexer: &mut Lexer<'a>,
    opening: &Head,
    numbers: &mut Vec<i32>,
    found: &mut Vec<Item<'a>>,
) -> Result<(), NoMemory>
    requires room { length lexer.old ≤ longest_text }
    requires begins { begins_item opening.now.kind ≡ true }
    ensures added { OnOk result ((views : List ItemView) → AreRead views found.old.items →
        AreRead (views ++ item_of (line_view opening.now (rest_of_line lexer.old))
        (lines_in (after_line lexer.old)) ∷ []) found.new.items) }
    ensures count { OnOk result (length found.new.items ≡ length found.old.items + 1) }
    ensures lines { OnOk result (
        lines_in lexer.new ≡ after_end (lines_in (after_line lexer.old))) }
    ensures shorter { OnOk result (length lexer.new ≤ length lexer.old) }
{
    let item = read_item(alloc, lexer, opening, numbers)?;
    found.push(item)?;
    Ok(())
}

/// The items of a text, in order.
#[tactic(auto, using(crate::proofs::ItemLists::the_item))]
pub fn items<'a>(alloc: Global, text: &'a [u8]) -> Result<Vec<Item<'a>>, ItemRefusal>
    requires { length text.now ≤ longest_text }

    // The items of the text, in order.
    ensures items { IfOk result (λ found. AreItemsOf text.now found.items) }
    // They come only if they are no more than may be; and the refusal only if they are more.
    ensures few { OnOk result (length (items_of text.now) ≤ most_items) }
    ensures too_many { IsErrOf result ItemRefusal.TooManyItems →
        most_items < length (items_of text.now) }

    // An item is what its first faulty line, its end or the end of the text decides, and nothing
    // else.
    ensures decided { (opening : ℕ) (lines : List LineView) →
        IsItem opening lines (item_after opening [] lines) }
    ensures only { (opening : ℕ) (lines : List LineView) (item : ItemView) →
        IsItem opening lines item → item ≡ item_after opening [] lines }
{
    let mut lexer = Lexer::new(text);
    let mut numbers = Vec::new(alloc);
    let mut found = Vec::new(alloc);
    while let Some(head) = next_head(&mut lexer) {
        if !head.kind.begins_item() {
            pass_line(&mut lexer);
            continue;
        }
        if found.len() == MOST_ITEMS {
            return Err(ItemRefusal::TooManyItems);
        }
        add_item(alloc, &mut lexer, &head, &mut numbers, &mut found)?;
    }
    Ok(found)
}
