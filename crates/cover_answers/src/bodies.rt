// What is reported of a block on a cell, and the text of its cover.
ghost use Rattle.std.specs.Prelude.{◌≡◌, ◌≢◌, IfOk, OnOk, length, option_copied};
ghost use Rattle.periodic_net.specs.Limits.{IsSmall};
ghost use Rattle.cgd_read.specs.Blocks.{IsReadBody};
ghost use Rattle.cgd_read.specs.Graphs.{IsReadGraph};
ghost use Rattle.cgd_read.specs.Views.{Net, block_view, body_view, raw_view};
ghost use Rattle.quotient_graph.specs.AnyGraphs.{graph_view};
ghost use Rattle.quotient_graph.specs.Order.{AreRising};
ghost use Rattle.cover_answers.specs.Lines.{covered_text, refused_text};
ghost use Rattle.net_report.specs.Reports.{IsPrintable, IsPrintableBody};
ghost use Rattle.cover_answers.specs.Steps.{IsBlockAnswered, IsBodyAnswered};

use crate::{NoMemory, push_covered, push_graph, push_refused};
use cgd_read::{Block, Body, RawGraph};
use lists::Items;
use net_cover::{Cell, CoverFault, cover};
use net_report::{Judged, Outcome, OutcomeBody, Size};
use quotient_graph::{AnyGraph, from_raw};
use std::alloc::Global;

// What is reported of a graph that is covered: the sizes of its cover.
fn covered_body<'a>(
    alloc: Global,
    size: Size,
    cover: &AnyGraph,
) -> Result<OutcomeBody<'a>, NoMemory>
    ensures told { IfOk result (λ body. body ≡ OutcomeBody.Lines size
        (covered_text (graph_view cover.now).vertices (length (graph_view cover.now).edges))) }
    ensures rising { AreRising (graph_view cover.now).edges }
    ensures small { IsSmall (graph_view cover.now) }
{
    let own = Size::of(cover, 0);
    let mut line = Vec::new(alloc);
    push_covered(&mut line, own.vertices, own.edges)?;
    Ok(OutcomeBody::Lines(size, Items::from_vec(line)))
}

// What is reported of a graph that is not: the fault, if it is one.
fn refused_body<'a>(
    alloc: Global,
    size: Size,
    fault: CoverFault,
) -> Result<OutcomeBody<'a>, NoMemory>
    ensures told { IfOk result (λ body.
        body ≡ OutcomeBody.Lines size (refused_text fault)) }
    ensures some { OnOk result (fault ≢ CoverFault.NoMemory) }
{
    if fault == CoverFault::NoMemory {
        return Err(NoMemory);
    }
    let mut line = Vec::new(alloc);
    push_refused(&mut line, fault)?;
    Ok(OutcomeBody::Lines(size, Items::from_vec(line)))
}

// What is reported of a graph, and whether it is covered. Then its cover is put last under the
// name.
fn cover_net<'a>(
    covers: &mut Vec<u8>,
    cell: &Cell,
    name: Option<&[u8]>,
    raw: &RawGraph<'_>,
) -> Result<Judged<OutcomeBody<'a>>, NoMemory>
    requires { IsReadGraph (raw_view raw.now) }
    ensures answered { IfOk result (λ judged. IsBodyAnswered cell.now (option_copied name.entry)
        (Net (raw_view raw.now)) judged.accepted judged.told covers.old.items covers.new.items) }
    ensures printable { IfOk result (λ judged. IsPrintableBody judged.told) }
{
    cell.recall(); // that the rows are written so stands in this contract
    let alloc = *covers.allocator();
    let graph = from_raw(alloc, raw)?;
    let size = Size::of(&graph, raw.repeats);
    match cover(alloc, &graph, cell) {
        Ok(cover) => {
            push_graph(covers, name, &cover)?;
            let body = covered_body(alloc, size, &cover)?;
            Ok(Judged {
                told: body,
                accepted: true,
            })
        }
        Err(fault) => {
            let body = refused_body(alloc, size, fault)?;
            Ok(Judged {
                told: body,
                accepted: false,
            })
        }
    }
}

// What is reported of what a block holds, and whether it is covered. Then its cover is put last.
fn cover_body<'a>(
    covers: &mut Vec<u8>,
    cell: &Cell,
    block: &Block<'a>,
) -> Result<Judged<OutcomeBody<'a>>, NoMemory>
    requires { IsReadBody block.now.body }
    ensures answered { IfOk result (λ judged. IsBodyAnswered cell.now
        (option_copied block.now.name) (body_view block.now.body) judged.accepted judged.told
        covers.old.items covers.new.items) }
    ensures printable { IfOk result (λ judged. IsPrintableBody judged.told) }
{
    match &block.body {
        Body::Graph(raw) => cover_net(covers, cell, block.name, raw),
        Body::Unsupported(token) => Ok(OutcomeBody::Unsupported(token).judged()),
        Body::Malformed(fault) => Ok(OutcomeBody::Malformed(*fault).judged()),
    }
}

/// The outcome of the block with this number, and whether it is covered. Then its cover is put
/// last.
pub fn cover_block<'a>(
    covers: &mut Vec<u8>,
    cell: &Cell,
    number: u32,
    block: &Block<'a>,
) -> Result<Judged<Outcome<'a>>, NoMemory>
    requires { IsReadBody block.now.body }
    ensures answered { IfOk result (λ judged. IsBlockAnswered cell.now number
        (block_view block.now) judged.accepted judged.told covers.old.items covers.new.items) }
    ensures printable { IfOk result (λ judged. IsPrintable judged.told) }
{
    let body = cover_body(covers, cell, block)?;
    Ok(Judged {
        accepted: body.accepted,
        told: Outcome {
            number,
            line: block.line,
            name: block.name,
            body: body.told,
        },
    })
}
