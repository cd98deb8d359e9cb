// What is reported of a block.
ghost use Rattle.std.specs.Prelude.{◌≡◌, ◌++◌, IfOk};
ghost use Rattle.cgd_read.specs.Blocks.{IsReadBody};
ghost use Rattle.cgd_read.specs.Views.{block_view};
ghost use Rattle.net_report.specs.Reports.{IsPrintableBody, body_text};
ghost use Rattle.symmetry_answers.specs.Blocks.{IsBlockAdded};
ghost use Rattle.symmetry_answers.specs.Due.{IsBodyTold};

use crate::NoMemory;
use crate::nets::symmetry_lines;
use block_answers::{Judged, Outcome, OutcomeBody, keyed_outcome_of};
use cgd_read::Block;
use net_report::push_outcome;
use std::alloc::Global;

// What is reported if `key` reports this.
fn symmetry_body<'a>(
    alloc: Global,
    body: OutcomeBody<'a>,
) -> Result<Judged<OutcomeBody<'a>>, NoMemory>
    requires { IsPrintableBody body }
    ensures made { IfOk result (λ made.
        IsBodyTold body.entry made.accepted (body_text made.told)) }
    ensures printable { IfOk result (λ made. IsPrintableBody made.told) }
{
    match body {
        OutcomeBody::Keyed(size, net) => {
            let made = symmetry_lines(alloc, &net);
            drop(net);
            let lines = made?;
            Ok(Judged {
                told: OutcomeBody::Lines(size, lines.told),
                accepted: lines.accepted,
            })
        }
        body => Ok(Judged {
            told: body,
            accepted: false,
        }),
    }
}

/// Puts the text of the block with this number last, and shows whether the block was accepted.
pub fn tell_block(text: &mut Vec<u8>, number: u32, block: &Block<'_>) -> Result<bool, NoMemory>
    requires { IsReadBody block.now.body }
    ensures { IfOk result (λ accepted. IsBlockAdded number (block_view block.now) accepted
        text.old.items text.new.items) }
{
    let alloc = *text.allocator();
    let (keyed, _) = keyed_outcome_of(alloc, number, block)?;
    let made = symmetry_body(alloc, keyed.body)?;
    let outcome = Outcome {
        number: keyed.number,
        line: keyed.line,
        name: keyed.name,
        body: made.told,
    };
    let pushed = push_outcome(text, &outcome);
    drop(outcome);
    pushed?;
    Ok(made.accepted)
}
