// The archive in bytes, or the text of its fault.
ghost use Rattle.std.specs.Prelude.{◌≡◌, ◌≢◌, ◌++◌, [], pos, map, IfOk, OnOk};
ghost use Rattle.net_report.specs.Refusals.{refused_text};
ghost use Rattle.archive_answers.specs.ArchiveTexts.{archive_fault_text, at_class, at_line, counts_text, fault_details, fault_name, list_line, lists_text, IsPrintableFault};
ghost use Rattle.archive_answers.specs.ArchiveBytes.{AreFew, IsArchiveOrText};

use crate::NoMemory;
use cgd_read::Names;
use line_text::{push_field, push_numbers};
use net_archive::{Archive, ArchiveFault};
use net_report::{Refusal, refused_line};
use std::alloc::Global;

// The number of a line, and the end of the line that reports it.
fn push_line(text: &mut Vec<u8>, line: u32) -> Result<(), NoMemory>
    ensures { OnOk result (text.new.items ≡ text.old.items ++ at_line line) }
{
    push_field(text, b" line=", line as u64)?;
    text.extend_from_slice(b"\n")
}

// A word and a list of numbers, each after a blank, on a line of its own.
fn push_list_line(text: &mut Vec<u8>, word: &[u8], numbers: &[i128]) -> Result<(), NoMemory>
    ensures { OnOk result (text.new.items ≡ text.old.items ++ list_line word.now numbers.now) }
{
    text.extend_from_slice(word)?;
    push_numbers(text, numbers)?;
    text.extend_from_slice(b"\n")
}

fn push_lists(text: &mut Vec<u8>, kept: &[i128], computed: &[i128]) -> Result<(), NoMemory>
    ensures { OnOk result (text.new.items ≡ text.old.items ++ lists_text kept.now computed.now) }
{
    push_list_line(text, b"kept", kept)?;
    push_list_line(text, b"computed", computed)
}

// A coordination sequence as wide numbers.
fn wide_sizes(alloc: Global, sizes: &[u32]) -> Result<Vec<i128>, NoMemory>
    ensures { IfOk result (λ numbers. numbers.items ≡ map pos sizes.now) }
{
    let mut numbers = Vec::with_capacity(alloc, sizes.len())?;
    for size in sizes {
        numbers.push(*size as i128)?;
    }
    Ok(numbers)
}

// The line of a refusal, with vertices by their numbers.
fn push_refusal(alloc: Global, text: &mut Vec<u8>, refusal: &Refusal) -> Result<(), NoMemory>
    requires { refusal.now ≢ Refusal.NoMemory }
    ensures { OnOk result (text.new.items ≡ text.old.items ++ refused_text [] refusal.now) }
{
    let line = refused_line(alloc, refusal, &Names::new(alloc))?;
    text.extend_from_slice(&line)
}

fn push_sizes(
    alloc: Global,
    text: &mut Vec<u8>,
    kept: &[u32],
    computed: &[u32],
) -> Result<(), NoMemory>
    ensures { OnOk result (text.new.items ≡
        text.old.items ++ lists_text (map pos kept.now) (map pos computed.now)) }
{
    push_lists(
        text,
        &wide_sizes(alloc, kept)?,
        &wide_sizes(alloc, computed)?,
    )
}

fn fault_name(fault: &ArchiveFault) -> &'static [u8]
    ensures { result.now ≡ fault_name fault.now }
{
    match fault {
        ArchiveFault::BadLine(_) => b"1 BadLine",
        ArchiveFault::RepeatedName(_) => b"2 RepeatedName",
        ArchiveFault::EntryRefused(_, _) => b"3 EntryRefused",
        ArchiveFault::KeyDiffers { .. } => b"4 KeyDiffers",
        ArchiveFault::TooManyEntries => b"5 TooManyEntries",
        ArchiveFault::Version(_) => b"6 Version",
        ArchiveFault::CountDiffers { .. } => b"8 CountDiffers",
        ArchiveFault::ShellsDiffer { .. } => b"9 ShellsDiffer",
        ArchiveFault::NoMemory => b"",
    }
}

// What stands after the name of a fault whose numbers are counts.
fn push_counts(text: &mut Vec<u8>, line: u32, kept: u32, computed: u32) -> Result<(), NoMemory>
    ensures { OnOk result (text.new.items ≡ text.old.items ++ counts_text line kept computed) }
{
    push_field(text, b" line=", line as u64)?;
    push_field(text, b" kept=", kept as u64)?;
    push_field(text, b" computed=", computed as u64)?;
    text.extend_from_slice(b"\n")
}

fn push_class(text: &mut Vec<u8>, line: u32, class: u32) -> Result<(), NoMemory>
    ensures { OnOk result (text.new.items ≡ text.old.items ++ at_class line class) }
{
    push_field(text, b" line=", line as u64)?;
    push_field(text, b" class=", class as u64)?;
    text.extend_from_slice(b"\n")
}

fn push_details(alloc: Global, text: &mut Vec<u8>, fault: &ArchiveFault) -> Result<(), NoMemory>
    requires { IsPrintableFault fault.now }
    ensures { OnOk result (text.new.items ≡ text.old.items ++ fault_details fault.now) }
{
    match fault {
        ArchiveFault::BadLine(line)
        | ArchiveFault::RepeatedName(line)
        | ArchiveFault::Version(line) => push_line(text, *line),
        ArchiveFault::EntryRefused(line, refusal) => {
            push_line(text, *line)?;
            push_refusal(alloc, text, refusal)
        }
        ArchiveFault::KeyDiffers {
            line,
            kept,
            computed,
        } => {
            push_line(text, *line)?;
            push_lists(text, kept.numbers(), computed.numbers())
        }
        ArchiveFault::CountDiffers {
            line,
            kept,
            computed,
        } => push_counts(text, *line, *kept, *computed),
        ArchiveFault::ShellsDiffer {
            line,
            class,
            kept,
            computed,
        } => {
            push_class(text, *line, *class)?;
            push_sizes(alloc, text, kept.as_slice(), computed.as_slice())
        }
        ArchiveFault::TooManyEntries | ArchiveFault::NoMemory => text.extend_from_slice(b"\n"),
    }
}

/// The text of a fault of an archive.
pub fn archive_fault_text(alloc: Global, fault: &ArchiveFault) -> Result<Vec<u8>, NoMemory>
    requires { IsPrintableFault fault.now }
    ensures { IfOk result (λ text. text.items ≡ archive_fault_text fault.now) }
{
    let mut text = Vec::new(alloc);
    text.extend_from_slice(b"archive refused ")?;
    text.extend_from_slice(fault_name(fault))?;
    push_details(alloc, &mut text, fault)?;
    Ok(text)
}

/// The archive of these bytes, or the text of its fault; without bytes it is empty.
pub fn archive_in(
    alloc: Global,
    bytes: Option<Vec<u8>>,
) -> Result<Result<Archive, Vec<u8>>, NoMemory>
    requires { AreFew bytes }
    ensures { IfOk result (IsArchiveOrText bytes) }
{
    let Some(bytes) = bytes else {
        return Ok(Ok(Archive::empty(alloc)));
    };
    match Archive::read(alloc, bytes) {
        Ok(archive) => {
            archive.recall(); // that its entries are those of an archive
            Ok(Ok(archive))
        }
        Err(ArchiveFault::NoMemory) => Err(NoMemory),
        Err(fault) => {
            let text = archive_fault_text(alloc, &fault);
            drop(fault);
            Ok(Err(text?))
        }
    }
}
