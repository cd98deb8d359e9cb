// The lines that a block's text begins with, and the line of its fault.
ghost use Rattle.std.specs.Prelude.{◌≡◌, ◌++◌, OnOk, option_copied};
ghost use Rattle.net_report.specs.Headers.{name_text, quoted_name, header_text, size_text, unsupported_word, unsupported_text, faulty_text, fault_text};
ghost use Rattle.net_report.specs.KindNames.{kind_name};

use crate::{NoMemory, Size};
use cgd_read::{BlockFault, BlockFaultKind};
use line_text::push_field;

/// A name in quotes, after a blank.
pub fn push_quoted(text: &mut Vec<u8>, name: &[u8]) -> Result<(), NoMemory>
    ensures { OnOk result (text.new.items ≡ text.old.items ++ quoted_name name.now) }
{
    text.extend_from_slice(b" \"")?;
    text.extend_from_slice(name)?;
    text.extend_from_slice(b"\"")
}

fn push_name(text: &mut Vec<u8>, name: Option<&[u8]>) -> Result<(), NoMemory>
    ensures { OnOk result (text.new.items ≡
        text.old.items ++ name_text (option_copied name.entry)) }
{
    match name {
        None => Ok(()),
        Some(name) => push_quoted(text, name),
    }
}

/// The line that begins the text of a block.
pub fn push_header(
    text: &mut Vec<u8>,
    number: u32,
    line: u32,
    name: Option<&[u8]>,
) -> Result<(), NoMemory>
    ensures { OnOk result (text.new.items ≡
        text.old.items ++ header_text number line (option_copied name.entry)) }
{
    push_field(text, b"net ", number as u64)?;
    push_field(text, b" line ", line as u64)?;
    push_name(text, name)?;
    text.extend_from_slice(b"\n")
}

/// The sizes of a graph.
pub fn push_size(text: &mut Vec<u8>, size: Size) -> Result<(), NoMemory>
    ensures { OnOk result (text.new.items ≡ text.old.items ++ size_text size) }
{
    push_field(text, b"graph d=", size.dim as u64)?;
    push_field(text, b" vertices=", size.vertices as u64)?;
    push_field(text, b" edges=", size.edges as u64)?;
    push_field(text, b" repeats=", size.repeats as u64)?;
    text.extend_from_slice(b"\n")
}

#[tactic(auto, unfolding(crate::specs::Headers::unsupported_word))]
fn push_unsupported_word(text: &mut Vec<u8>) -> Result<(), NoMemory>
    ensures { OnOk result (text.new.items ≡ text.old.items ++ unsupported_word) }
{
    text.extend_from_slice(b"unsupported ")
}

/// The line of a block that is no graph block.
pub fn push_unsupported(text: &mut Vec<u8>, token: &[u8]) -> Result<(), NoMemory>
    ensures { OnOk result (text.new.items ≡ text.old.items ++ unsupported_text token.now) }
{
    push_unsupported_word(text)?;
    text.extend_from_slice(token)?;
    text.extend_from_slice(b"\n")
}

fn kind_name(kind: BlockFaultKind) -> &'static [u8]
    ensures { result.now ≡ kind_name kind }
{
    match kind {
        BlockFaultKind::BadToken => b"BadToken",
        BlockFaultKind::RowLength => b"RowLength",
        BlockFaultKind::MixedDimension => b"MixedDimension",
        BlockFaultKind::UnknownField => b"UnknownField",
        BlockFaultKind::NoEdges => b"NoEdges",
        BlockFaultKind::SelfEdge => b"SelfEdge",
        BlockFaultKind::ShiftRange => b"ShiftRange",
        BlockFaultKind::TooManyVertices => b"TooManyVertices",
        BlockFaultKind::TooManyEdges => b"TooManyEdges",
        BlockFaultKind::NameTooLong => b"NameTooLong",
        BlockFaultKind::NoEnd => b"NoEnd",
        BlockFaultKind::TwoNames => b"TwoNames",
    }
}

/// The line of a fault, and the number and the name of its kind.
pub fn push_faulty(text: &mut Vec<u8>, line: u32, number: u32, kind: &[u8]) -> Result<(), NoMemory>
    ensures { OnOk result (text.new.items ≡ text.old.items ++ faulty_text line number kind.now) }
{
    push_field(text, b"malformed line=", line as u64)?;
    push_field(text, b" ", number as u64)?;
    text.extend_from_slice(b" ")?;
    text.extend_from_slice(kind)?;
    text.extend_from_slice(b"\n")
}

/// The line of the first fault of a graph block.
pub fn push_fault(text: &mut Vec<u8>, fault: BlockFault) -> Result<(), NoMemory>
    ensures { OnOk result (text.new.items ≡ text.old.items ++ fault_text fault) }
{
    push_faulty(text, fault.line, fault.kind.number(), kind_name(fault.kind))
}
