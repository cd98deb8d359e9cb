// The lines of a report on covers.
ghost use Rattle.std.specs.Prelude.{◌≡◌, ◌++◌, OnOk};
ghost use Rattle.cover_answers.specs.Lines.{covered_text, fault_text, refused_label, refused_text, shift_label, shift_text};

use crate::NoMemory;
use line_text::{push_field, push_number};
use net_cover::CoverFault;

/// The line of a graph that is covered, with the sizes of its cover.
pub fn push_covered(text: &mut Vec<u8>, vertices: u32, edges: u32) -> Result<(), NoMemory>
    ensures { OnOk result (text.new.items ≡ text.old.items ++ covered_text vertices edges) }
{
    push_field(text, b"covered vertices=", vertices as u64)?;
    push_field(text, b" edges=", edges as u64)?;
    text.extend_from_slice(b"\n")
}

#[tactic(auto, unfolding(crate::specs::Lines::shift_label))]
fn push_shift_label(text: &mut Vec<u8>) -> Result<(), NoMemory>
    ensures { OnOk result (text.new.items ≡ text.old.items ++ shift_label) }
{
    text.extend_from_slice(b"5 CoverShift value=")
}

fn push_shift(text: &mut Vec<u8>, value: i128) -> Result<(), NoMemory>
    ensures { OnOk result (text.new.items ≡ text.old.items ++ shift_text value) }
{
    push_shift_label(text)?;
    push_number(text, value)
}

fn push_fault(text: &mut Vec<u8>, fault: CoverFault) -> Result<(), NoMemory>
    ensures { OnOk result (text.new.items ≡ text.old.items ++ fault_text fault) }
{
    match fault {
        CoverFault::CellDimension => text.extend_from_slice(b"1 CellDimension"),
        CoverFault::CellRank => text.extend_from_slice(b"2 CellRank"),
        CoverFault::CoverVertices { count } => push_field(text, b"3 CoverVertices count=", count),
        CoverFault::CoverEdges { count } => push_field(text, b"4 CoverEdges count=", count),
        CoverFault::CoverShift { value } => push_shift(text, value),
        CoverFault::NoMemory => Ok(()),
    }
}

#[tactic(auto, unfolding(crate::specs::Lines::refused_label))]
fn push_refused_label(text: &mut Vec<u8>) -> Result<(), NoMemory>
    ensures { OnOk result (text.new.items ≡ text.old.items ++ refused_label) }
{
    text.extend_from_slice(b"cover refused ")
}

/// The line of a graph that has no cover, with the fault.
pub fn push_refused(text: &mut Vec<u8>, fault: CoverFault) -> Result<(), NoMemory>
    ensures { OnOk result (text.new.items ≡ text.old.items ++ refused_text fault) }
{
    push_refused_label(text)?;
    push_fault(text, fault)?;
    text.extend_from_slice(b"\n")
}
