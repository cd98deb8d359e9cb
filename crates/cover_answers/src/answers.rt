// The answer to `cover`: the covers of all blocks, or the report on them.
ghost use Rattle.std.specs.Prelude.{◌≡◌, ◌≤◌, All, IfOk, length, true, false};
ghost use Rattle.cgd_read.specs.Blocks.{IsReadBody, most_blocks};
ghost use Rattle.cgd_read.specs.Views.{views};
ghost use Rattle.net_report.specs.Reports.{IsPrintable, report_text};
ghost use Rattle.cover_answers.specs.Due.{IsCoveredAs};

use crate::NoMemory;
use crate::bodies::cover_block;
use cgd_read::Block;
use net_cover::Cell;
use net_report::{Answer, Outcomes, Status, report};
use std::alloc::Global;

// The covers if each block is covered, and else the report.
fn answer_of(
    alloc: Global,
    covers: Vec<u8>,
    all_covered: bool,
    outcomes: &Outcomes<'_>,
) -> Result<Answer, NoMemory>
    requires { All IsPrintable outcomes.now }
    ensures covered { IfOk result (λ a. all_covered ≡ true →
        (a.status ≡ Status.Done) × (a.text.items ≡ covers.items)) }
    ensures refused { IfOk result (λ a. all_covered ≡ false →
        (a.status ≡ Status.SomeRefused) × (a.text.items ≡ report_text outcomes.now)) }
{
    if all_covered {
        return Ok(Answer {
            status: Status::Done,
            text: covers,
        });
    }
    Ok(Answer {
        status: Status::SomeRefused,
        text: report(alloc, outcomes)?,
    })
}

/// The covers of the graphs of all blocks on a cell, one after the other, or the report on the
/// blocks if one of them is not covered. Each block is covered once.
pub fn cover_blocks(alloc: Global, cell: &Cell, found: &[Block<'_>]) -> Result<Answer, NoMemory>
    requires graphs { All (λ block. IsReadBody block.body) found.now }
    requires few { length found.now ≤ most_blocks }
    ensures { IfOk result (λ a.
        IsCoveredAs cell.now (views found.now) a.status a.text.items) }
{
    let mut covers = Vec::new(alloc);
    let mut outcomes = Outcomes::new(alloc);
    let mut all_covered = true;
    let mut number = 1u32;
    for block in found {
        let judged = cover_block(&mut covers, cell, number, block)?;
        outcomes.push(judged.told)?;
        all_covered &= judged.accepted;
        number += 1;
    }
    answer_of(alloc, covers, all_covered, &outcomes)
}
