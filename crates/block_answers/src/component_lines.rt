// The lines that are reported of the components of a net.
ghost use Rattle.std.specs.Prelude.{◌≡◌, ◌≢◌, ◌≤◌, ◌++◌, length, All, IfOk, OnOk, true};
ghost use Rattle.periodic_net.specs.Graph.{IsGraph};
ghost use Rattle.quotient_graph.specs.AnyGraphs.{graph_view};
ghost use Rattle.net_components.specs.Faults.{IsPartFault, no_memory};
ghost use Rattle.net_components.specs.Parts.{AreParts};
ghost use Rattle.net_report.specs.Refusals.{HasLine, refused_text};
ghost use Rattle.block_answers.specs.Texts.{count_line, names_of, part_line};
ghost use Rattle.block_answers.specs.ComponentLines.{AreComponentsTold, ArePartsTold, ArePartsToldFrom, IsFaultTold, IsNamedPart, IsPartTold};

use crate::NoMemory;
use crate::component_faults::push_fault;
use cgd_read::Names;
use least_key::{Refusal, identify};
use line_text::push_field;
use lists::Items;
use net_components::{Part, PartFault, components};
use net_report::{Judged, push_key, push_refused};
use quotient_graph::AnyGraph;
use std::alloc::Global;

// The names of these vertices.
fn names_of<'a>(alloc: Global, names: &Names<'a>, vertices: &[u32]) -> Result<Names<'a>, NoMemory>
    requires { All (λ u. (1 ≤ u) × (u ≤ length names.now)) vertices.now }
    ensures { IfOk result (λ ns. ns ≡ names_of names.now vertices.now) }
{
    let mut found = Names::new(alloc);
    for u in vertices {
        found.push(*names.at(*u as usize - 1))?;
    }
    Ok(found)
}

fn push_part_line(
    text: &mut Vec<u8>,
    number: u64,
    vertices: u64,
    copies: u64,
) -> Result<(), NoMemory>
    ensures { OnOk result (text.new.items ≡
        text.old.items ++ part_line number vertices copies) }
{
    push_field(text, b"part ", number)?;
    push_field(text, b" vertices=", vertices)?;
    push_field(text, b" copies=", copies)?;
    text.extend_from_slice(b"\n")
}

// Why a part is refused, with the names of its vertices.
fn push_refusal(
    text: &mut Vec<u8>,
    names: &Names<'_>,
    vertices: &[u32],
    refusal: &Refusal,
) -> Result<(), NoMemory>
    requires named { All (λ u. (1 ≤ u) × (u ≤ length names.now)) vertices.now }
    requires line { HasLine (names_of names.now vertices.now) refusal.now }
    ensures { OnOk result (text.new.items ≡ text.old.items
        ++ refused_text (names_of names.now vertices.now) refusal.now) }
{
    let own = names_of(*text.allocator(), names, vertices)?;
    push_refused(text, &own, refusal)
}

// Whether a refusal is reported: running out of memory is not.
fn is_told(refusal: &Refusal) -> bool
    ensures { result ≡ true → refusal.now ≢ Refusal.NoMemory }
{
    !matches!(refusal, Refusal::NoMemory)
}

// Reports on a part: its line, and its key or why it is refused. Answers whether it has a key.
fn tell_part(
    text: &mut Vec<u8>,
    names: &Names<'_>,
    number: u64,
    part: &Part,
) -> Result<bool, NoMemory>
    requires { IsNamedPart names.now part.now }
    ensures { IfOk result (λ keyed. IsPartTold names.now number part.now keyed
        text.old.items text.new.items) }
{
    push_part_line(text, number, part.vertices.len() as u64, part.copies)?;
    match identify(*text.allocator(), part.graph.copy()?) {
        Ok(net) => {
            let pushed = push_key(text, net.key());
            drop(net);
            pushed?;
            Ok(true)
        }
        Err(refusal) => {
            if !is_told(&refusal) {
                return Err(NoMemory);
            }
            let pushed = push_refusal(text, names, part.vertices.as_slice(), &refusal);
            drop(refusal);
            pushed?;
            Ok(false)
        }
    }
}

// Reports on each part. Answers whether all have a key.
fn push_told(text: &mut Vec<u8>, names: &Names<'_>, parts: &[Part]) -> Result<bool, NoMemory>
    requires { All (IsNamedPart names.now) parts.now }
    ensures { IfOk result (λ accepted. ArePartsToldFrom names.now 1 parts.now accepted
        text.old.items text.new.items) }
{
    let mut accepted = true;
    let mut number = 1u64;
    for part in parts {
        accepted &= tell_part(text, names, number, part)?;
        number += 1;
    }
    Ok(accepted)
}

fn push_count_line(text: &mut Vec<u8>, count: u64) -> Result<(), NoMemory>
    ensures { OnOk result (text.new.items ≡ text.old.items ++ count_line count) }
{
    push_field(text, b"components ", count)?;
    text.extend_from_slice(b"\n")
}

// The dimension of a graph.
fn dimension_of(g: &AnyGraph) -> u8
    ensures value { result ≡ (graph_view g.now).dimension }
    ensures is_graph { IsGraph (graph_view g.now) }
{
    match g {
        AnyGraph::Flat(g) => g.dimension(),
        AnyGraph::Space(g) => g.dimension(),
    }
}

// What is reported of the parts of a net.
fn tell_parts(
    alloc: Global,
    names: &Names<'_>,
    g: &AnyGraph,
    parts: &[Part],
) -> Result<Judged<Items<u8>>, NoMemory>
    requires parts { AreParts (graph_view g.now) parts.now }
    requires names { length names.now ≡ (graph_view g.now).vertices }
    ensures { IfOk result (λ lines.
        ArePartsTold (graph_view g.now) names.now lines.accepted lines.told) }
{
    dimension_of(g);
    let mut text = Vec::new(alloc);
    push_count_line(&mut text, parts.len() as u64)?;
    let accepted = push_told(&mut text, names, parts)?;
    Ok(Judged {
        told: Items::from_vec(text),
        accepted,
    })
}

// Whether a fault is reported: running out of memory is not.
fn is_told_fault(fault: &PartFault) -> bool
    ensures { result ≡ true → fault.now ≢ no_memory }
{
    !matches!(fault, PartFault::NoMemory)
}

// What is reported of a net that is not divided into parts.
fn tell_fault(
    alloc: Global,
    names: &Names<'_>,
    g: &AnyGraph,
    fault: &PartFault,
) -> Result<Judged<Items<u8>>, NoMemory>
    requires fault { IsPartFault (graph_view g.now) fault.now }
    requires names { length names.now ≡ (graph_view g.now).vertices }
    ensures { IfOk result (λ lines.
        IsFaultTold (graph_view g.now) names.now lines.accepted lines.told) }
{
    if !is_told_fault(fault) {
        return Err(NoMemory);
    }
    let mut text = Vec::new(alloc);
    push_fault(&mut text, names, dimension_of(g), fault)?;
    Ok(Judged {
        told: Items::from_vec(text),
        accepted: false,
    })
}

/// The lines of the components of a net, whose vertices have these names. The net is accepted if
/// it is divided into parts that all have a key.
pub fn tell_components(
    alloc: Global,
    names: &Names<'_>,
    g: &AnyGraph,
) -> Result<Judged<Items<u8>>, NoMemory>
    requires { length names.now ≡ (graph_view g.now).vertices }
    ensures { IfOk result (λ lines.
        AreComponentsTold (graph_view g.now) names.now lines.accepted lines.told) }
{
    match components(alloc, g) {
        Ok(parts) => tell_parts(alloc, names, g, &parts),
        Err(fault) => tell_fault(alloc, names, g, &fault),
    }
}
