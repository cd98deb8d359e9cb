// The answer to `same`: the maps from the first net to the others, or the report on the blocks.
ghost use Rattle.std.specs.Prelude.{◌≡◌, ◌≤◌, length, map, IfOk, option_copied, All};
ghost use Rattle.cgd_read.specs.Blocks.{IsReadBody, most_blocks};
ghost use Rattle.cgd_read.specs.Views.{views};
ghost use Rattle.least_key.specs.AnyNets.{net_view};
ghost use Rattle.block_answers.specs.Outcomes.{net_told};
ghost use Rattle.map_answers.specs.Steps.{nets_told};
ghost use Rattle.map_answers.specs.Due.{IsSameAs};

use crate::NoMemory;
use block_answers::{Outcome, OutcomeBody, are_accepted, outcomes_of, report};
use cgd_read::Block;
use least_key::Net;
use net_certificate::maps_text_of;
use net_report::{Answer, Status};
use std::alloc::Global;

// The net that is reported of a block.
fn net_told<'a>(outcome: &'a Outcome<'_>) -> Option<&'a Net>
    ensures { option_copied result ≡ net_told outcome.now.body }
{
    match &outcome.body {
        OutcomeBody::Keyed(_, net) => Some(net),
        _ => None,
    }
}

/// The nets that are reported of blocks, lent.
pub fn nets_told<'a>(alloc: Global, outcomes: &'a [Outcome<'_>]) -> Result<Vec<&'a Net>, NoMemory>
    ensures nets { IfOk result (λ nets.
        map (λ n. net_view n.now) nets.items ≡ nets_told outcomes.now) }
    ensures few { IfOk result (λ nets. length nets.items ≤ length outcomes.now) }
{
    let mut nets = Vec::new(alloc);
    for outcome in outcomes {
        let Some(net) = net_told(outcome) else {
            continue;
        };
        nets.push(net)?;
    }
    Ok(nets)
}

/// The text of the maps from the net of the first block to those of the others, or the report on
/// the blocks if one of them is not accepted. The key of each block is sought once.
pub fn same_blocks(alloc: Global, found: &[Block<'_>]) -> Result<Answer, NoMemory>
    requires graphs { All (λ block. IsReadBody block.body) found.now }
    requires few { length found.now ≤ most_blocks }
    ensures { IfOk result (λ a. IsSameAs (views found.now) a.status a.text.items) }
{
    let keyed = outcomes_of(alloc, found)?;
    if !are_accepted(&keyed.outcomes) {
        return Ok(Answer {
            status: Status::SomeRefused,
            text: report(alloc, &keyed.outcomes)?,
        });
    }
    let nets = nets_told(alloc, keyed.outcomes.as_slice())?;
    Ok(Answer {
        status: Status::Done,
        text: maps_text_of(alloc, nets.as_slice())?,
    })
}
