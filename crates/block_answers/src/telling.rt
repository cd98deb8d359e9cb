// The report on the blocks of a text, which are reported one by one.
ghost use Rattle.std.specs.Prelude.{◌≤◌, All, IfOk, length};
ghost use Rattle.cgd_read.specs.Views.{block_view, views};
ghost use Rattle.cgd_read.specs.Blocks.{IsReadBody, most_blocks};
ghost use Rattle.block_answers.specs.Reports.{IsReport, IsBlockTold};

use crate::outcomes::outcome_of;
use cgd_read::Block;
use net_archive::Archive;
use net_report::{Command, NoMemory, push_outcome};
use std::alloc::Global;

/// The texts of the outcomes of blocks, one after the other, and whether each block was accepted.
#[derive(Drop)]
pub struct Told {
    pub text: Vec<u8>,
    pub all_accepted: bool,
}

// Puts the text of the outcome of the block with this number last, for a command, beside an
// archive, and shows whether the block was accepted. The outcome is let go.
fn tell_block(
    text: &mut Vec<u8>,
    command: Command,
    archive: &Archive,
    number: u32,
    block: &Block<'_>,
) -> Result<bool, NoMemory>
    requires { IsReadBody block.now.body }
    ensures { IfOk result (λ accepted. IsBlockTold archive.now.entries command number
        (block_view block.now) accepted text.old.items text.new.items) }
{
    let judged = outcome_of(*text.allocator(), command, archive, number, block)?;
    let accepted = judged.accepted;
    let pushed = push_outcome(text, &judged.told);
    drop(judged);
    pushed?;
    Ok(accepted)
}

/// Writes what a command reports on each block, beside an archive. An outcome is let go once its
/// text is written.
pub fn tell_blocks(
    alloc: Global,
    command: Command,
    archive: &Archive,
    found: &[Block<'_>],
) -> Result<Told, NoMemory>
    requires graphs { All (λ block. IsReadBody block.body) found.now }
    requires few { length found.now ≤ most_blocks }
    ensures { IfOk result (λ told. IsReport command archive.now.entries
        (views found.now) told.all_accepted told.text.items) }
{
    archive.recall(); // each entry has the key of its graph
    let mut text = Vec::new(alloc);
    let mut all_accepted = true;
    let mut number = 1u32;
    for block in found {
        all_accepted &= tell_block(&mut text, command, archive, number, block)?;
        number += 1;
    }
    Ok(Told { text, all_accepted })
}
