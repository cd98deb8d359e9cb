// The union of an archive and of the items of a text, or of another archive.
ghost use Rattle.std.specs.Prelude.{All, IfOk, ◌≡◌, ◌≤◌, ◌<◌, IfErr, IsErrOf, length};
ghost use Rattle.keyline_import.specs.Items.{items_of, most_items};
ghost use Rattle.archive_text.specs.Entries.{entry_view, entry_views};
ghost use Rattle.net_report.specs.KindsTold.{AreKindsOfAll, AreKindsTold};
ghost use Rattle.net_archive.specs.Archives.{IsEntry, most_entries};
ghost use Rattle.archive_answers.specs.ItemEntries.{AreEntriesTold, HasNamedNet, IsEntryTold};
ghost use Rattle.archive_answers.specs.ArchiveBytes.{AreFew, IsArchiveIn, IsBadArchive, bytes_in, most_bytes};
ghost use Rattle.archive_answers.specs.Unions.{HasManyItems, IsUnionDue, IsUnionOfArchives, IsUnionOfItems, IsUnitedOrRefused, begins_archive};

use crate::{NoMemory, add_fault_text, archive_in, outcomes_of};
use archive_union::{UniteFault, unite};
use keyline_import::items;
use least_key::Kinds;
use net_archive::{Archive, Entry, entry_of};
use net_report::{Answer, Outcome, OutcomeBody, Silence, Status, are_accepted, report};
use std::alloc::Global;

// The entry of an item, under its name.
fn entry_told(alloc: Global, outcome: &Outcome<'_>, kinds: &Kinds) -> Result<Entry, NoMemory>
    requires named { HasNamedNet outcome.now }
    requires kinds { AreKindsTold outcome.now.body kinds.now }
    ensures told { IfOk result (λ e. IsEntryTold outcome.now (entry_view e)) }
    ensures entry { IfOk result (λ e. IsEntry (entry_view e)) }
{
    match (&outcome.body, outcome.name) {
        (OutcomeBody::Keyed(_, net), Some(name)) => entry_of(alloc, name, net, kinds),
        _ => unreachable!(),
    }
}

/// The entries of items, in their order. Beside each outcome stand kinds of the classes of its net.
#[tactic(auto, using(crate::proofs::ItemEntries::named_at))]
pub fn entries_of(
    alloc: Global,
    outcomes: &[Outcome<'_>],
    kinds: &[Kinds],
) -> Result<Vec<Entry>, NoMemory>
    requires named { All HasNamedNet outcomes.now }
    requires kinds { AreKindsOfAll outcomes.now kinds.now }
    ensures told { IfOk result (λ es. AreEntriesTold outcomes.now (entry_views es.items)) }
    ensures each { IfOk result (λ es. All (λ e. IsEntry (entry_view e)) es.items) }
{
    let mut entries = Vec::new(alloc);
    for (i, outcome) in outcomes.iter().enumerate() {
        entries.push(entry_told(alloc, outcome, &kinds[i])?)?;
    }
    Ok(entries)
}

// Whether the bytes begin as those of an archive do.
fn begins_archive(bytes: &[u8]) -> bool
    ensures { result ≡ begins_archive bytes.now }
{
    bytes.starts_with(b"net_archive ")
}

// The text of the union of an archive with entries, or why the first that cannot be added is not.
#[tactic(auto, using(crate::proofs::Unions::not_united_as))]
fn unite_entries(alloc: Global, archive: Archive, entries: Vec<Entry>) -> Result<Answer, NoMemory>
    requires each { All (λ e. IsEntry (entry_view e)) entries.items }
    requires few { length entries.items ≤ most_entries }
    ensures { IfOk result (λ a.
        IsUnitedOrRefused archive (entry_views entries.items) a.status a.text.items) }
{
    archive.recall(); // that its entries are those of an archive
    match unite(archive, entries) {
        Ok(whole) => Ok(Answer {
            status: Status::Done,
            text: whole.text()?,
        }),
        Err(UniteFault::NotAdded { number, fault }) => Ok(Answer {
            status: Status::AddRefused,
            text: add_fault_text(alloc, number, fault)?,
        }),
        Err(UniteFault::NoMemory) => Err(NoMemory),
    }
}

// The archive in a file, or the text of its fault.
fn archive_of(alloc: Global, file: &[u8]) -> Result<Result<Archive, Vec<u8>>, NoMemory>
    requires { length file.now ≤ most_bytes }
    ensures archive { IfOk result (λ read. IfOk read (IsArchiveIn (Some file.now))) }
    ensures fault { IfOk result (λ read.
        IfErr read (λ text. IsBadArchive (Some file.now) text.items)) }
{
    let bytes = Vec::from_slice(alloc, file)?;
    archive_in(alloc, Some(bytes))
}

// The union of the archive in a file with another: the first of the two that has a fault is
// reported.
#[tactic(auto, using(crate::proofs::Unions::of_archives))]
fn unite_archives(alloc: Global, file: &[u8], archive: Option<Vec<u8>>) -> Result<Answer, NoMemory>
    requires small { length file.now ≤ most_bytes }
    requires archive { AreFew archive }
    ensures { IfOk result (λ a.
        IsUnionOfArchives file.now (bytes_in archive) a.status a.text.items) }
{
    let given = match archive_of(alloc, file)? {
        Ok(given) => given,
        Err(text) => {
            return Ok(Answer {
                status: Status::BadArchive,
                text,
            });
        }
    };
    match archive_in(alloc, archive)? {
        Ok(archive) => unite_entries(alloc, archive, given.into_entries()),
        Err(text) => Ok(Answer {
            status: Status::BadArchive,
            text,
        }),
    }
}

// The union of an archive with the items of a file, or the report on them if one has no key.
#[tactic(auto, using(crate::proofs::Unions::items_united))]
fn unite_items(alloc: Global, file: &[u8], archive: Option<Vec<u8>>) -> Result<Answer, Silence>
    requires small { length file.now ≤ most_bytes }
    requires archive { AreFew archive }
    ensures due { IfOk result (λ a.
        IsUnionOfItems file.now (bytes_in archive) a.status a.text.items) }
    ensures many { IsErrOf result Silence.TooManyBlocks →
        most_items < length (items_of file.now) }
{
    let found = items(alloc, file)?;
    let archive = match archive_in(alloc, archive)? {
        Ok(archive) => archive,
        Err(text) => {
            drop(found);
            return Ok(Answer {
                status: Status::BadArchive,
                text,
            });
        }
    };
    let keyed = outcomes_of(alloc, found)?;
    if !are_accepted(&keyed.outcomes) {
        drop(archive);
        let text = report(alloc, &keyed.outcomes);
        drop(keyed);
        return Ok(Answer {
            status: Status::SomeRefused,
            text: text?,
        });
    }
    let entries = entries_of(alloc, keyed.outcomes.as_slice(), &keyed.kinds);
    drop(keyed);
    let entries = entries?;
    Ok(unite_entries(alloc, archive, entries)?)
}

/// What is due to a union, of the bytes of its file and of its archive.
pub fn union_of(alloc: Global, file: &[u8], archive: Option<Vec<u8>>) -> Result<Answer, Silence>
    requires small { length file.now ≤ most_bytes }
    requires archive { AreFew archive }
    ensures due { IfOk result (λ a.
        IsUnionDue file.now (bytes_in archive) a.status a.text.items) }
    ensures many { IsErrOf result Silence.TooManyBlocks → HasManyItems file.now }
{
    if begins_archive(file) {
        return Ok(unite_archives(alloc, file, archive)?);
    }
    unite_items(alloc, file, archive)
}
