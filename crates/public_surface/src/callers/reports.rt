// What is reported of blocks, and its texts.
ghost use Rattle.std.specs.Prelude.{◌<◌, All, length};
ghost use Rattle.net_report.specs.Refusals.{HasLine};
ghost use Rattle.net_report.specs.Reports.{IsPrintable};

use cgd_read::{BlockFault, Names};
use coordination::Sequences;
use least_key::Net;
use lists::Items;
use net_report::{
    AnyPlaced, NoMemory, Outcome, OutcomeBody, Outcomes, Refusal, Size, refused_line, report,
};
use quotient_graph::Placed;
use std::alloc::Global;

pub fn sizes(dim: u8, vertices: u32, edges: u32, repeats: u32) -> Size {
    Size {
        dim,
        vertices,
        edges,
        repeats,
    }
}

pub fn outcome_of<'a>(
    number: u32,
    line: u32,
    name: Option<&'a [u8]>,
    body: OutcomeBody<'a>,
) -> Outcome<'a> {
    Outcome {
        number,
        line,
        name,
        body,
    }
}

pub fn unsupported<'a>(token: &'a [u8]) -> OutcomeBody<'a> {
    OutcomeBody::Unsupported(token)
}

pub fn malformed<'a>(fault: BlockFault) -> OutcomeBody<'a> {
    OutcomeBody::Malformed(fault)
}

pub fn faulty<'a>(line: u32, number: u8, kind: &'a [u8]) -> OutcomeBody<'a> {
    OutcomeBody::Faulty { line, number, kind }
}

pub fn refused<'a>(size: Size, names: Names<'a>, refusal: Refusal) -> OutcomeBody<'a> {
    OutcomeBody::Refused(size, names, refusal)
}

pub fn checked<'a>(size: Size) -> OutcomeBody<'a> {
    OutcomeBody::Checked(size)
}

pub fn located<'a>(size: Size, names: Names<'a>, placed: AnyPlaced) -> OutcomeBody<'a> {
    OutcomeBody::Located(size, names, placed)
}

pub fn keyed<'a>(size: Size, net: Net) -> OutcomeBody<'a> {
    OutcomeBody::Keyed(size, net)
}

pub fn identified<'a>(
    size: Size,
    vertices: Names<'a>,
    net: Net,
    shells: Sequences,
    names: Names<'a>,
) -> OutcomeBody<'a> {
    OutcomeBody::Identified(size, vertices, net, shells, names)
}

pub fn lines<'a>(size: Size, bytes: Items<u8>) -> OutcomeBody<'a> {
    OutcomeBody::Lines(size, bytes)
}

pub fn size_of(body: &OutcomeBody<'_>) -> Option<Size> {
    match body {
        OutcomeBody::Unsupported(_) => None,
        OutcomeBody::Malformed(_) => None,
        OutcomeBody::Faulty { .. } => None,
        OutcomeBody::Refused(size, _, _) => Some(*size),
        OutcomeBody::Checked(size) => Some(*size),
        OutcomeBody::Located(size, _, _) => Some(*size),
        OutcomeBody::Keyed(size, _) => Some(*size),
        OutcomeBody::Identified(size, _, _, _, _) => Some(*size),
        OutcomeBody::Lines(size, _) => Some(*size),
    }
}

pub fn flat_place(placed: AnyPlaced) -> Result<Placed<2>, Placed<3>> {
    match placed {
        AnyPlaced::Flat(placed) => Ok(placed),
        AnyPlaced::Space(placed) => Err(placed),
    }
}

pub fn no_outcomes<'a>(alloc: Global) -> Outcomes<'a> {
    Outcomes::new(alloc)
}

pub fn push<'a>(outcomes: &mut Outcomes<'a>, item: Outcome<'a>) -> Result<(), NoMemory> {
    outcomes.push(item)
}

pub fn count(outcomes: &Outcomes<'_>) -> usize {
    outcomes.len()
}

pub fn outcome_at<'a, 'b>(outcomes: &'b Outcomes<'a>, i: usize) -> &'b Outcome<'a>
    requires { i < length outcomes.now }
{
    outcomes.at(i)
}

pub fn report_on(alloc: Global, outcomes: &Outcomes<'_>) -> Result<Vec<u8>, NoMemory>
    requires { All IsPrintable outcomes.now }
{
    report(alloc, outcomes)
}

pub fn line_of_refusal(
    alloc: Global,
    refusal: &Refusal,
    names: &Names<'_>,
) -> Result<Vec<u8>, NoMemory>
    requires { HasLine names.now refusal.now }
{
    refused_line(alloc, refusal, names)
}
