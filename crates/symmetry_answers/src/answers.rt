// The answer to `symmetry`: the report on all blocks.
ghost use Rattle.std.specs.Prelude.{◌≤◌, All, IfOk, length};
ghost use Rattle.cgd_read.specs.Blocks.{IsReadBody, most_blocks};
ghost use Rattle.cgd_read.specs.Views.{views};
ghost use Rattle.symmetry_answers.specs.Due.{IsSymmetryAs};

use crate::NoMemory;
use crate::blocks::tell_block;
use cgd_read::Block;
use net_report::{Answer, ending_of};
use std::alloc::Global;

/// The operations and orbits of the net of each block, or what `key` reports of it. The text of a
/// block is written before the next block is looked at.
pub fn symmetry_of(alloc: Global, found: &[Block<'_>]) -> Result<Answer, NoMemory>
    requires graphs { All (λ block. IsReadBody block.body) found.now }
    requires few { length found.now ≤ most_blocks }
    ensures { IfOk result (λ a. IsSymmetryAs (views found.now) a.status a.text.items) }
{
    let mut text = Vec::new(alloc);
    let mut all_accepted = true;
    let mut number = 1u32;
    for block in found {
        all_accepted &= tell_block(&mut text, number, block)?;
        number += 1;
    }
    Ok(Answer {
        status: ending_of(all_accepted),
        text,
    })
}
