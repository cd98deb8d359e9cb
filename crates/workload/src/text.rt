// The text of the workload.
ghost use Rattle.std.specs.Prelude.{◌≡◌, ◌++◌, ◌≤◌, IfOk, OnOk, length};
ghost use Rattle.workload.specs.BaseNets.{dimension};
ghost use Rattle.workload.specs.Workload.{block_text, edges_text, most_nets, most_text, workload};

use crate::NoMemory;
use crate::base::base_edges;
use crate::lines::{push_lines, push_number};
use std::alloc::Global;

// The dimension of base net `b`.
fn dimension(b: u32) -> u32
    ensures { result ≡ dimension b }
{
    if b < 3 { 2 } else { 3 }
}

fn push_edges(alloc: Global, text: &mut Vec<u8>, i: u32) -> Result<(), NoMemory>
    ensures { OnOk result (text.new.items ≡ text.old.items ++ edges_text i) }
{
    let edges = base_edges(alloc, i % 8)?;
    push_lines(text, dimension(i % 8), 1 + i / 8 % 4, i / 32 % 5, &edges)
}

#[tactic(auto, unfolding(crate::specs::Workload::block_text))]
fn push_block(alloc: Global, text: &mut Vec<u8>, i: u32) -> Result<(), NoMemory>
    ensures { OnOk result (text.new.items ≡ text.old.items ++ block_text i) }
{
    text.extend_from_slice(b"PERIODIC_GRAPH\nNAME w")?;
    push_number(text, i)?;
    text.extend_from_slice(b"\nEDGES\n")?;
    push_edges(alloc, text, i)?;
    text.extend_from_slice(b"END\n")
}

/// So many nets has a workload at most.
pub const MOST_NETS: u32 = 4096;

/// The text of nets 0 to `n` - 1.
pub fn workload_text(alloc: Global, n: u32) -> Result<Vec<u8>, NoMemory>
    requires { n ≤ most_nets }
    ensures text { IfOk result (λ text. text.items ≡ workload n) }
    ensures small { IfOk result (λ text. length text.items ≤ most_text) }
{
    let mut text = Vec::new(alloc);
    for i in 0..n {
        push_block(alloc, &mut text, i)?;
    }
    Ok(text)
}
