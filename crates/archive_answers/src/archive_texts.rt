// What is reported of the entries of an archive.
ghost use Rattle.std.specs.Prelude.{◌≡◌, ◌++◌, IfOk, OnOk, length};
ghost use Rattle.coordination.specs.Sequences.{numbers_in};
ghost use Rattle.archive_text.specs.Entries.{entry_views};
ghost use Rattle.archive_answers.specs.ArchiveTexts.{add_fault_name, add_fault_text, group_lines, group_names, group_text, groups_text, migrate_fault_text, name_at};

use crate::NoMemory;
use line_text::push_field;
use net_archive::{AddFault, Entry};
use net_report::push_quoted;
use std::alloc::Global;

fn add_fault_name(fault: AddFault) -> &'static [u8]
    ensures { result.now ≡ add_fault_name fault }
{
    match fault {
        AddFault::NameTaken => b"1 NameTaken",
        AddFault::BadName => b"2 BadName",
        AddFault::Full => b"3 Full",
        AddFault::NoMemory => b"",
    }
}

/// Why the net of the block with this number is not added.
pub fn add_fault_text(alloc: Global, block: u32, fault: AddFault) -> Result<Vec<u8>, NoMemory>
    ensures { IfOk result (λ text. text.items ≡ add_fault_text block fault) }
{
    let mut text = Vec::new(alloc);
    push_field(&mut text, b"add refused ", block as u64)?;
    text.extend_from_slice(b" ")?;
    text.extend_from_slice(add_fault_name(fault))?;
    text.extend_from_slice(b"\n")?;
    Ok(text)
}

/// That the text in the newest format would have this length.
pub fn migrate_fault_text(alloc: Global, length: u64) -> Result<Vec<u8>, NoMemory>
    ensures { IfOk result (λ text. text.items ≡ migrate_fault_text length) }
{
    let mut text = Vec::new(alloc);
    push_field(&mut text, b"migrate refused 1 Full length=", length)?;
    text.extend_from_slice(b"\n")?;
    Ok(text)
}

// The name of the entry with this number, which is counted from 1.
fn name_at<'a>(entries: &'a [Entry], number: u32) -> &'a [u8]
    ensures { result.now ≡ name_at (entry_views entries.now) number }
{
    match entries.get(number.saturating_sub(1) as usize) {
        Some(entry) => &entry.name,
        None => b"",
    }
}

fn push_group_names(text: &mut Vec<u8>, entries: &[Entry], group: &[u32]) -> Result<(), NoMemory>
    ensures { OnOk result (text.new.items ≡
        text.old.items ++ group_names (entry_views entries.now) group.now) }
{
    for number in group {
        push_quoted(text, name_at(entries, *number))?;
    }
    Ok(())
}

fn push_group(text: &mut Vec<u8>, entries: &[Entry], group: &[u32]) -> Result<(), NoMemory>
    ensures { OnOk result (text.new.items ≡
        text.old.items ++ group_text (entry_views entries.now) group.now) }
{
    text.extend_from_slice(b"group")?;
    push_group_names(text, entries, group)?;
    text.extend_from_slice(b"\n")
}

fn push_groups(text: &mut Vec<u8>, entries: &[Entry], groups: &[Vec<u32>]) -> Result<(), NoMemory>
    ensures { OnOk result (text.new.items ≡
        text.old.items ++ group_lines (entry_views entries.now) (numbers_in groups.now)) }
{
    for group in groups {
        push_group(text, entries, group)?;
    }
    Ok(())
}

/// How many entries there are, and the names of the entries of each group.
pub fn groups_text(
    alloc: Global,
    entries: &[Entry],
    groups: &[Vec<u32>],
) -> Result<Vec<u8>, NoMemory>
    ensures { IfOk result (λ text.
        text.items ≡ groups_text (entry_views entries.now) (numbers_in groups.now)) }
{
    let mut text = Vec::new(alloc);
    push_field(&mut text, b"entries ", entries.len() as u64)?;
    text.extend_from_slice(b"\n")?;
    push_groups(&mut text, entries, groups)?;
    Ok(text)
}
