// What is reported of many nets.
ghost use Rattle.std.specs.Prelude.{◌≡◌, ◌++◌, ◌≤◌, All, IfOk, OnOk, length, filter, option_copied};
ghost use Rattle.cgd_read.specs.Blocks.{IsReadBody, most_blocks};
ghost use Rattle.cgd_read.specs.Views.{views};
ghost use Rattle.block_answers.specs.Deciding.{key_told};
ghost use Rattle.block_answers.specs.Outcomes.{is_accepted};
ghost use Rattle.answers.specs.KeyLists.{IsPutIn, lists_in};
ghost use Rattle.answers.specs.Summaries.{AreSoManyKeys, IsSummaryAs, count_text, summary_text};

use block_answers::{Outcome, OutcomeBody, are_accepted, outcomes_of};
use cgd_read::Block;
use indexmap::IndexSet;
use line_text::push_field;
use net_report::{Answer, ending_of};
use std::alloc::{AllocError as NoMemory, Global};

// A count after its word, on a line of its own.
fn push_count(text: &mut Vec<u8>, word: &[u8], n: u64) -> Result<(), NoMemory>
    ensures { OnOk result (text.new.items ≡ text.old.items ++ count_text word.now n) }
{
    push_field(text, word, n)?;
    text.extend_from_slice(b"\n")
}

fn summary_text(alloc: Global, made: u64, accepted: u64, keys: u64) -> Result<Vec<u8>, NoMemory>
    ensures { IfOk result (λ text. text.items ≡ summary_text made accepted keys) }
{
    let mut text = Vec::new(alloc);
    push_count(&mut text, b"workload ", made)?;
    push_count(&mut text, b"accepted ", accepted)?;
    push_count(&mut text, b"keys ", keys)?;
    Ok(text)
}

// The key that is reported of a block.
fn key_told<'a>(outcome: &'a Outcome<'_>) -> Option<&'a [i128]>
    ensures { option_copied result ≡ key_told outcome.now.body }
{
    match &outcome.body {
        OutcomeBody::Keyed(_, net) | OutcomeBody::Identified(_, _, net, _, _) => {
            Some(net.key().numbers())
        }
        _ => None,
    }
}

// Puts a key last among the others, if it is not there.
fn put_key<'a>(keys: &mut IndexSet<&'a [i128]>, key: &'a [i128]) -> Result<(), NoMemory>
    ensures { OnOk result (IsPutIn (lists_in keys.old) key.now (lists_in keys.new)) }
{
    keys.insert(key)?;
    Ok(())
}

// The number of different keys that are reported.
fn count_keys(alloc: Global, outcomes: &[Outcome<'_>]) -> Result<u64, NoMemory>
    ensures { IfOk result (AreSoManyKeys outcomes.now) }
{
    let mut keys: IndexSet<&[i128]> = IndexSet::new(alloc);
    for outcome in outcomes {
        if let Some(key) = key_told(outcome) {
            put_key(&mut keys, key)?;
        }
    }
    Ok(keys.len() as u64)
}

// The number of blocks that are accepted.
fn count_accepted(outcomes: &[Outcome<'_>]) -> u64
    ensures { result ≡ length (filter is_accepted outcomes.now) }
{
    outcomes
        .iter()
        .filter(|outcome| outcome.body.is_accepted())
        .count() as u64
}

/// The summary on the blocks of a workload.
pub fn summary_of(alloc: Global, made: u32, found: &[Block<'_>]) -> Result<Answer, NoMemory>
    requires graphs { All (λ block. IsReadBody block.body) found.now }
    requires few { length found.now ≤ most_blocks }
    ensures { IfOk result (λ a. IsSummaryAs made (views found.now) a.status a.text.items) }
{
    let keyed = outcomes_of(alloc, found)?;
    let accepted = count_accepted(keyed.outcomes.as_slice());
    let keys = count_keys(alloc, keyed.outcomes.as_slice())?;
    Ok(Answer {
        status: ending_of(are_accepted(&keyed.outcomes)),
        text: summary_text(alloc, made as u64, accepted, keys)?,
    })
}
