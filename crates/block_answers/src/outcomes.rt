// The outcome of each block of a text for a command.
ghost use Rattle.std.specs.Prelude.{◌≡◌, ◌≤◌, [], All, IfOk, length};
ghost use Rattle.cgd_read.specs.Views.{block_view, body_view, views};
ghost use Rattle.cgd_read.specs.Blocks.{IsReadBody, most_blocks};
ghost use Rattle.net_report.specs.KindsTold.{AreKindsOfAll, AreKindsTold};
ghost use Rattle.net_report.specs.Reports.{IsPrintable};
ghost use Rattle.block_answers.specs.Deciding.{AreOutcomes};
ghost use Rattle.block_answers.specs.Outcomes.{IsAcceptedAs, IsOutcomeOf};

use crate::bodies::{body_of, keyed_body_of};
use cgd_read::Block;
use least_key::Kinds;
use net_archive::Archive;
use net_report::{Command, Judged, KeyedOutcomes, NoMemory, Outcome};
use std::alloc::Global;

/// What a command reports on the block with this number, beside an archive.
pub fn outcome_of<'a>(
    alloc: Global,
    command: Command,
    archive: &'a Archive,
    number: u32,
    block: &Block<'a>,
) -> Result<Judged<Outcome<'a>>, NoMemory>
    requires { IsReadBody block.now.body }
    ensures outcome { IfOk result (λ judged. IsOutcomeOf archive.now.entries command number
        (block_view block.now) judged.told) }
    ensures accepted { IfOk result (λ judged. IsAcceptedAs command (body_view block.now.body)
        judged.told.body judged.accepted) }
    ensures printable { IfOk result (λ judged. IsPrintable judged.told) }
{
    let body = body_of(alloc, command, archive, block)?;
    let outcome = Outcome {
        number,
        line: block.line,
        name: block.name,
        body: body.told,
    };
    outcome.recall(); // its numbers are printed whole
    Ok(Judged {
        accepted: body.accepted,
        told: outcome,
    })
}

/// What `key` reports on the block with this number, and kinds of the classes of its net.
pub fn keyed_outcome_of<'a>(
    alloc: Global,
    number: u32,
    block: &Block<'a>,
) -> Result<(Outcome<'a>, Kinds), NoMemory>
    requires { IsReadBody block.now.body }
    ensures outcome { IfOk result (λ keyed.
        IsOutcomeOf [] Command.Key number (block_view block.now) keyed.0) }
    ensures kinds { IfOk result (λ keyed. AreKindsTold keyed.0.body keyed.1) }
    ensures printable { IfOk result (λ keyed. IsPrintable keyed.0) }
{
    let (body, kinds) = keyed_body_of(alloc, block)?;
    let outcome = Outcome {
        number,
        line: block.line,
        name: block.name,
        body,
    };
    outcome.recall(); // its numbers are printed whole
    Ok((outcome, kinds))
}

/// What `key` reports on each block, and kinds of the classes of each net. All outcomes stand in
/// memory.
pub fn outcomes_of<'a>(alloc: Global, found: &[Block<'a>]) -> Result<KeyedOutcomes<'a>, NoMemory>
    requires graphs { All (λ block. IsReadBody block.body) found.now }
    requires few { length found.now ≤ most_blocks }
    ensures outcomes { IfOk result (λ keyed.
        AreOutcomes Command.Key [] (views found.now) keyed.outcomes) }
    ensures kinds { IfOk result (λ keyed. AreKindsOfAll keyed.outcomes keyed.kinds.items) }
    ensures printable { IfOk result (λ keyed. All IsPrintable keyed.outcomes) }
{
    let mut keyed = KeyedOutcomes::new(alloc);
    let mut number = 1u32;
    for block in found {
        let (outcome, kinds) = keyed_outcome_of(alloc, number, block)?;
        keyed.push(outcome, kinds)?;
        number += 1;
    }
    Ok(keyed)
}
