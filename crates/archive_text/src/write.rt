// Writes the rows of an entry.
ghost use Rattle.std.specs.Prelude.{pos, map, length, ◌≤◌, ◌≡◌, ◌++◌, ◌∷◌, [], OnOk};
ghost use Rattle.line_text.specs.Numbers.{numbers_text};
ghost use Rattle.line_text.specs.Lines.{rows_text};
ghost use Rattle.quotient_graph.specs.AnyGraphs.{graph_view};
ghost use Rattle.archive_text.specs.Entries.{entry_view};
ghost use Rattle.archive_text.specs.Rows.{first_row, row_lines, name_row, key_row, count_row, shells_row, end_row};
ghost use Rattle.graph_rows.specs.Rows.{size_of_graph};
ghost use Rattle.archive_text.specs.Parts.{class_rows, drawn_rows, shells_rows};
ghost use Rattle.archive_text.specs.Texts.{entry_lines};
ghost use Rattle.periodic_net.specs.Limits.{most_vertices};

use crate::{Entry, Version};
use coordination::Sequences;
use graph_rows::push_graph;
use line_text::{push_inner, push_number, push_numbers, push_row};
use quotient_graph::{AnyGraph, Key};
use std::alloc::AllocError as NoMemory;

/// The first line.
pub fn push_first(text: &mut Vec<u8>, version: Version) -> Result<(), NoMemory>
    ensures { OnOk result
        (text.new.items ≡ text.old.items ++ rows_text (first_row version ∷ [])) }
{
    match version {
        Version::One => text.extend_from_slice(b"net_archive 1\n"),
        Version::Two => text.extend_from_slice(b"net_archive 2\n"),
    }
}

#[tactic(auto, unfolding(crate::specs::Rows::name_row))]
fn push_name(text: &mut Vec<u8>, name: &[u8]) -> Result<(), NoMemory>
    ensures { OnOk result (text.new.items ≡ text.old.items ++ rows_text (name_row name.now ∷ [])) }
{
    push_inner(text, b"entry \"", name, b"\"")
}

// The rows of an entry before its key.
fn push_drawn(text: &mut Vec<u8>, name: &[u8], graph: &AnyGraph) -> Result<(), NoMemory>
    ensures { OnOk result (text.new.items ≡ text.old.items ++
        rows_text (row_lines (drawn_rows name.now (size_of_graph (graph_view graph.now))
        (graph_view graph.now).edges))) }
{
    push_name(text, name)?;
    push_graph(text, graph)
}

#[tactic(auto, unfolding(crate::specs::Rows::key_row))]
fn push_key(text: &mut Vec<u8>, key: &Key) -> Result<(), NoMemory>
    ensures { OnOk result (text.new.items ≡ text.old.items ++ rows_text (key_row key.now ∷ [])) }
{
    push_row(text, b"key", key.numbers())
}

#[tactic(auto, unfolding(crate::specs::Rows::count_row))]
fn push_count(text: &mut Vec<u8>, count: u32) -> Result<(), NoMemory>
    ensures { OnOk result (text.new.items ≡ text.old.items ++ rows_text (count_row count ∷ [])) }
{
    push_row(text, b"primitive", &[count as i128])
}

fn push_sizes(text: &mut Vec<u8>, sizes: &[u32]) -> Result<(), NoMemory>
    ensures { OnOk result (text.new.items ≡ text.old.items ++ numbers_text (map pos sizes.now)) }
{
    for size in sizes {
        text.push(b' ')?;
        push_number(text, *size as i128)?;
    }
    Ok(())
}

#[tactic(auto, unfolding(crate::specs::Rows::shells_row))]
fn push_shells(text: &mut Vec<u8>, class: u32, sizes: &[u32]) -> Result<(), NoMemory>
    ensures { OnOk result
        (text.new.items ≡ text.old.items ++ rows_text (shells_row class sizes.now ∷ [])) }
{
    text.extend_from_slice(b"shells")?;
    push_numbers(text, &[class as i128])?;
    push_sizes(text, sizes)?;
    text.extend_from_slice(b"\n")
}

fn push_lists(text: &mut Vec<u8>, lists: &Sequences) -> Result<(), NoMemory>
    requires { length lists.now ≤ most_vertices }
    ensures { OnOk result (text.new.items ≡
        text.old.items ++ rows_text (row_lines (shells_rows 1 lists.now))) }
{
    for done in 0..lists.len() {
        push_shells(text, done as u32 + 1, lists.at(done))?;
    }
    Ok(())
}

// In version 2 the number of classes, and the coordination sequence of each.
fn push_classes(text: &mut Vec<u8>, version: Version, lists: &Sequences) -> Result<(), NoMemory>
    requires { length lists.now ≤ most_vertices }
    ensures { OnOk result (text.new.items ≡
        text.old.items ++ rows_text (row_lines (class_rows version lists.now))) }
{
    match version {
        Version::One => Ok(()),
        Version::Two => {
            push_count(text, lists.len() as u32)?;
            push_lists(text, lists)
        }
    }
}

#[tactic(auto, unfolding(crate::specs::Rows::end_row))]
fn push_end(text: &mut Vec<u8>) -> Result<(), NoMemory>
    ensures { OnOk result (text.new.items ≡ text.old.items ++ rows_text (end_row ∷ [])) }
{
    text.extend_from_slice(b"end\n")
}

/// The rows of an entry.
pub fn push_entry(text: &mut Vec<u8>, version: Version, entry: &Entry) -> Result<(), NoMemory>
    requires { length (entry_view entry.now).shells ≤ most_vertices }
    ensures { OnOk result (text.new.items ≡
        text.old.items ++ rows_text (entry_lines version (entry_view entry.now ∷ []))) }
{
    push_drawn(text, &entry.name, &entry.graph)?;
    push_key(text, &entry.key)?;
    push_classes(text, version, &entry.shells)?;
    push_end(text)
}
