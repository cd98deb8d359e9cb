// Adds the nets of blocks to an archive.
ghost use Rattle.std.specs.Prelude.{◌≡◌, ◌≢◌, ◌≤◌, [], true, All, IfOk, IfErr, OnOk, OnErr, MatchResult, length, option_copied};
ghost use Rattle.std.specs.List.{list_all};
ghost use Rattle.cgd_read.specs.Blocks.{IsReadBody, most_blocks};
ghost use Rattle.cgd_read.specs.Views.{block_view, views};
ghost use Rattle.least_key.specs.AnyNets.{net_view};
ghost use Rattle.least_key.specs.KeyedNets.{HasKinds};
ghost use Rattle.net_report.specs.KindsTold.{AreKindsOfAll};
ghost use Rattle.archive_text.specs.Entries.{EntryView};
ghost use Rattle.net_archive.specs.Adding.{IsAddFault, IsEntryOf};
ghost use Rattle.net_archive.specs.Archives.{IsArchive, with_entry};
ghost use Rattle.archive_answers.specs.ArchiveTexts.{add_fault_text};
ghost use Rattle.block_answers.specs.Outcomes.{AreOutcomesFrom, is_accepted, net_told};
ghost use Rattle.answers.specs.Due.{HasBecome, HasFirstOf, HasThoseBefore, IsAdded, IsAddedOrRefused, name_to_add};

use archive_answers::add_fault_text;
use block_answers::{Outcome, OutcomeBody, are_accepted, outcomes_of, report};
use cgd_read::Block;
use least_key::{Kinds, Net};
use net_archive::{AddFault, Archive};
use net_report::{Answer, Command, Status};
use std::alloc::{AllocError as NoMemory, Global};

// The block with this number, counted from 1, cannot be added.
#[derive(Clone, Copy, Debug)]
struct NotAdded {
    block: u32,
    fault: AddFault,
}

// The name under which a block is added: the one that is given, or its own, or the empty one.
fn name_to_add<'a>(given: Option<&'a [u8]>, block: &Block<'a>) -> &'a [u8]
    ensures { result.now ≡ name_to_add (option_copied given.entry) (block_view block.now) }
{
    given.or(block.name).unwrap_or(b"")
}

// The net that is reported of a block, with its key alone.
fn net_told<'a>(outcome: &'a Outcome<'_>) -> Option<&'a Net>
    ensures { option_copied result ≡ net_told outcome.now.body }
{
    match &outcome.body {
        OutcomeBody::Keyed(_, net) => Some(net),
        _ => None,
    }
}

// Adds the net of a block, under the name that is given or its own.
fn add_block(
    archive: &mut Archive,
    given: Option<&[u8]>,
    block: &Block<'_>,
    net: &Net,
    kinds: &Kinds,
) -> Result<(), AddFault>
    requires { HasKinds (net_view net.now) kinds.now }
    ensures added { OnOk result ((e : EntryView) ×
        IsEntryOf (name_to_add (option_copied given.entry) (block_view block.now))
        (net_view net.now) e × (archive.new ≡ with_entry archive.old e)) }
    ensures archive { IsArchive archive.new }
    ensures same { OnErr result (archive.new ≡ archive.old) }
    ensures fault { IfErr result (IsAddFault archive.old
        (name_to_add (option_copied given.entry) (block_view block.now)) (net_view net.now)) }
{
    let added = archive.add_with_kinds(name_to_add(given, block), net, kinds);
    archive.recall(); // that its entries are those of an archive
    added
}

// Adds the net of each block, the first under the name that is given.
fn add_all<'x>(
    archive: &mut Archive,
    given: Option<&[u8]>,
    found: &'x [Block<'_>],
    outcomes: &'x [Outcome<'_>],
    kinds: &[Kinds],
) -> Result<(), NotAdded>
    requires few { length found.now ≤ most_blocks }
    requires outcomes { AreOutcomesFrom [] Command.Key 1 (views found.now) outcomes.now }
    requires kinds { AreKindsOfAll outcomes.now kinds.now }
    requires accepted { list_all is_accepted outcomes.now ≡ true }
    ensures added { OnOk result
        (IsAdded (option_copied given.entry) (views found.now) archive.old archive.new) }
    ensures fault { IfErr result (λ n. n.fault ≢ AddFault.NoMemory → HasThoseBefore
        (option_copied given.entry) (views found.now) archive.old n.block n.fault archive.new) }
    ensures first { OnErr result
        (HasFirstOf (option_copied given.entry) (views found.now) archive.old archive.new) }
{
    archive.recall(); // that its entries are those of an archive
    let mut given = given;
    let mut number = 1u32;
    for (block, outcome) in found.iter().zip(outcomes) {
        if let Some(net) = net_told(outcome) {
            let place = number as usize - 1;
            if let Err(fault) = add_block(archive, given, block, net, &kinds[place]) {
                return Err(NotAdded {
                    block: number,
                    fault,
                });
            }
        }
        given = None;
        number += 1;
    }
    Ok(())
}

// The bytes of the name that is given.
fn given_bytes<'a>(name: Option<&'a str>) -> Option<&'a [u8]>
    ensures { option_copied result ≡ option_copied name.entry }
{
    name.map(|name| name.as_bytes())
}

// The text that reports why a block cannot be added.
fn refused_text(alloc: Global, refused: NotAdded) -> Result<Vec<u8>, NoMemory>
    ensures text { IfOk result (λ text. text.items ≡ add_fault_text refused.block refused.fault) }
    ensures told { OnOk result (refused.fault ≢ AddFault.NoMemory) }
{
    match refused.fault {
        AddFault::NoMemory => Err(NoMemory),
        fault => add_fault_text(alloc, refused.block, fault),
    }
}

// The text of the archive with the nets of these blocks, or why the first that cannot be added is
// not.
fn add_accepted<'x>(
    alloc: Global,
    archive: &mut Archive,
    given: Option<&[u8]>,
    found: &'x [Block<'_>],
    outcomes: &'x [Outcome<'_>],
    kinds: &[Kinds],
) -> Result<Answer, NoMemory>
    requires few { length found.now ≤ most_blocks }
    requires outcomes { AreOutcomesFrom [] Command.Key 1 (views found.now) outcomes.now }
    requires kinds { AreKindsOfAll outcomes.now kinds.now }
    requires accepted { list_all is_accepted outcomes.now ≡ true }
    ensures answer { IfOk result (λ a. IsAddedOrRefused (option_copied given.entry)
        (views found.now) archive.old a.status a.text.items) }
    ensures archive { MatchResult result
        (λ a. HasBecome (option_copied given.entry) (views found.now) archive.old a.status archive.new)
        (λ e. HasFirstOf (option_copied given.entry) (views found.now) archive.old archive.new) }
{
    match add_all(archive, given, found, outcomes, kinds) {
        Ok(()) => Ok(Answer {
            status: Status::Done,
            text: archive.text()?,
        }),
        Err(refused) => Ok(Answer {
            status: Status::AddRefused,
            text: refused_text(alloc, refused)?,
        }),
    }
}

/// The text of the archive with the nets of these blocks, which are added to it, or the report on
/// them if one has no key, or why the first that cannot be added is not.
#[tactic(auto, using(crate::proofs::Additions::none_are_first))]
pub fn add_blocks(
    alloc: Global,
    archive: &mut Archive,
    name: Option<&str>,
    found: &[Block<'_>],
) -> Result<Answer, NoMemory>
    requires graphs { All (λ block. IsReadBody block.body) found.now }
    requires few { length found.now ≤ most_blocks }
    ensures answer { IfOk result (λ a. IsAddedOrRefused (option_copied name.entry)
        (views found.now) archive.old a.status a.text.items) }
    // The archive has the nets of all blocks then; if one has no key, it is as it was; if one
    // cannot be added, it has those before it, and if memory is refused some of the first.
    ensures archive { MatchResult result
        (λ a. HasBecome (option_copied name.entry) (views found.now) archive.old a.status archive.new)
        (λ e. HasFirstOf (option_copied name.entry) (views found.now) archive.old archive.new) }
{
    archive.recall(); // that its entries are those of an archive
    let keyed = outcomes_of(alloc, found)?;
    if !are_accepted(&keyed.outcomes) {
        return Ok(Answer {
            status: Status::SomeRefused,
            text: report(alloc, &keyed.outcomes)?,
        });
    }
    add_accepted(
        alloc,
        archive,
        given_bytes(name),
        found,
        keyed.outcomes.as_slice(),
        &keyed.kinds,
    )
}
