// Reads a text.
ghost use Rattle.std.specs.Prelude.{ℕ, List, ◌≡◌, ◌≢◌, ◌+◌, ◌≤◌, ◌++◌, ◌∷◌, [], length, IfErr, IfOk, MatchOption, MatchResult};
ghost use Rattle.line_text.specs.Lines.{IsAt};
ghost use Rattle.archive_text.specs.Entries.{EntryView, entry_view};
ghost use Rattle.archive_text.specs.Rows.{first_row};
ghost use Rattle.archive_text.specs.Texts.{rows_before, text_of, most_bytes};
ghost use Rattle.archive_text.specs.declared.version.Version.{Version};
ghost use Rattle.net_archive.specs.Faults.{AreEntries, HasFault, IsFaultOf, IsFirstLineFault};
ghost use Rattle.net_archive.specs.Steps.{AreMore, HasBegun, IsAfterName, IsFaultTold};

use crate::ArchiveFault;
use crate::adding::are_many;
use crate::judge::judge;
use archive_text::{Entries, Entry, Version, next_name, read_rest};
use line_text::Lines;
use std::alloc::Global;

// The version that a first line names.
fn version_of(line: &[u8]) -> Option<Version>
    ensures { MatchOption result ((v : Version) → line.now ≢ first_row v)
        (λ v. line.now ≡ first_row v) }
{
    if line == b"net_archive 1".as_slice() {
        Some(Version::One)
    } else if line == b"net_archive 2".as_slice() {
        Some(Version::Two)
    } else {
        None
    }
}

/// The version of a text, whose lines these are.
pub fn read_version(lines: &mut Lines<'_>, text: &[u8]) -> Result<Version, ArchiveFault>
    requires { IsAt text.now [] lines.old }
    ensures { MatchResult result (λ v. IsAt text.now (first_row v ∷ []) lines.new)
        (IsFirstLineFault text.now) }
{
    match lines.next() {
        Some(line) => match version_of(line) {
            Some(version) => Ok(version),
            None => Err(ArchiveFault::Version(1)),
        },
        None => match version_of(text) {
            Some(_) => Err(ArchiveFault::BadLine(1)),
            None => Err(ArchiveFault::Version(1)),
        },
    }
}

// The name with which the next entry begins, or the first fault.
fn begin_entry<'a>(lines: &mut Lines<'a>, entries: &Entries) -> Result<&'a [u8], ArchiveFault>
    requires good { AreEntries entries.now }
    requires left { lines.old.rest ≢ [] }
    ensures { (v : Version) (text : List ℕ) → IsAt text (rows_before v entries.now) lines.old →
        MatchResult result (λ name. HasBegun v text entries.now name.now lines.new)
        (HasFault v text) }
{
    let line = lines.number();
    let Some(name) = next_name(lines) else {
        return Err(ArchiveFault::BadLine(line));
    };
    if are_many(entries.as_slice()) {
        return Err(ArchiveFault::TooManyEntries);
    }
    if entries.has_name(name) {
        return Err(ArchiveFault::RepeatedName(line));
    }
    Ok(name)
}

// The rest of the entry of this name, which begins on this line, or the first fault.
fn finish_entry(
    lines: &mut Lines<'_>,
    version: Version,
    name: &[u8],
    line: u32,
    numbers: &mut Vec<i128>,
) -> Result<Entry, ArchiveFault>
    requires { IsAfterName name.now lines.old }
    ensures { (text : List ℕ) (entries : List EntryView) → AreEntries entries →
        HasBegun version text entries name.now lines.old →
        line ≡ length (rows_before version entries) + 1 →
        MatchResult result (λ e. AreMore version text entries (entry_view e) lines.new)
        (IsFaultTold version text) }
{
    let form = read_rest(lines, version, numbers)?;
    judge(*numbers.allocator(), name, line, version, form)
}

// The next entry, or the first fault.
fn read_entry(
    lines: &mut Lines<'_>,
    version: Version,
    entries: &Entries,
    numbers: &mut Vec<i128>,
) -> Result<Entry, ArchiveFault>
    requires good { AreEntries entries.now }
    requires left { lines.old.rest ≢ [] }
    requires number { lines.old.number ≡ length (rows_before version entries.now) + 1 }
    ensures { (text : List ℕ) → IsAt text (rows_before version entries.now) lines.old →
        MatchResult result
        (λ e. AreMore version text entries.now (entry_view e) lines.new)
        (IsFaultTold version text) }
{
    let line = lines.number();
    let name = begin_entry(lines, entries)?;
    finish_entry(lines, version, name, line, numbers)
}

/// The entries that are left of a text, or its first fault.
pub fn read_entries(
    alloc: Global,
    lines: &mut Lines<'_>,
    version: Version,
) -> Result<Entries, ArchiveFault>
    requires { lines.old.number ≡ 2 }
    ensures { (text : List ℕ) → IsAt text (first_row version ∷ []) lines.old →
        MatchResult result
        (λ entries. AreEntries entries × (text ≡ text_of version entries))
        (IsFaultTold version text) }
{
    let mut numbers = Vec::new(alloc);
    let mut entries = Entries::new(alloc);
    while !lines.is_empty() {
        let entry = read_entry(lines, version, &entries, &mut numbers)?;
        entries.push(entry)?;
    }
    Ok(entries)
}

/// What follows the first line of a text.
pub fn body_of(text: &[u8], version: Version) -> &[u8]
    ensures { (rest : List ℕ) → text.now ≡ first_row version ++ 10 ∷ rest → result.now ≡ rest }
{
    let first = match version {
        Version::One => b"net_archive 1\n".as_slice(),
        Version::Two => b"net_archive 2\n".as_slice(),
    };
    text.strip_prefix(first).unwrap_or(b"")
}

/// The version and the entries of a text, or its first fault.
pub fn read_text(alloc: Global, text: &[u8]) -> Result<(Version, Entries), ArchiveFault>
    requires { length text.now ≤ most_bytes }
    ensures read { IfOk result (λ both. text.now ≡ text_of both.0 both.1) }
    ensures entries { IfOk result (λ both. AreEntries both.1) }
    ensures fault { IfErr result (IsFaultOf text.now) }
{
    let mut lines = Lines::new(text);
    let version = read_version(&mut lines, text)?;
    let entries = read_entries(alloc, &mut lines, version)?;
    Ok((version, entries))
}
