// The lines of the symmetries of a net.
ghost use Rattle.std.specs.Prelude.{◌≡◌, ◌≢◌, ◌++◌, [], OnOk};
ghost use Rattle.periodic_net.specs.Graph.{IsQuotientVertex};
ghost use Rattle.primitive_net.specs.Faults.{no_memory};
ghost use Rattle.symmetry_answers.specs.Texts.{cell_text, denominator_text, fault_text, place_text, placement_word, places_text, placing_text};

use crate::NoMemory;
use cgd_read::Names;
use graph_rows::push_parts;
use least_key::NetOf;
use line_text::{push_field, push_number};
use net_report::{push_arc, push_key, push_primitive, push_refused};
use primitive_net::PrimitiveFault;
use quotient_graph::Placed;

// Where a vertex of the primitive graph stands.
fn push_place<const D: usize>(
    text: &mut Vec<u8>,
    placed: &Placed<D>,
    c: u32,
) -> Result<(), NoMemory>
    requires { IsQuotientVertex placed.now.graph c }
    ensures { OnOk result (text.new.items ≡ text.old.items ++ place_text placed.now c) }
{
    push_field(text, b"at ", c as u64)?;
    text.extend_from_slice(b" ")?;
    push_parts(text, placed.graph().dimension(), &placed.at(c).to_triple())?;
    text.extend_from_slice(b"\n")
}

// Where each of them stands.
fn push_places<const D: usize>(text: &mut Vec<u8>, placed: &Placed<D>) -> Result<(), NoMemory>
    ensures { OnOk result (text.new.items ≡
        text.old.items ++ places_text placed.now placed.now.graph.vertices) }
{
    for i in 0..placed.graph().vertices() {
        push_place(text, placed, i + 1)?;
    }
    Ok(())
}

#[tactic(auto, unfolding(crate::specs::Texts::placement_word))]
fn push_placement_word(text: &mut Vec<u8>) -> Result<(), NoMemory>
    ensures { OnOk result (text.new.items ≡ text.old.items ++ placement_word) }
{
    text.extend_from_slice(b"placement D=")
}

// The common denominator of the positions.
fn push_denominator(text: &mut Vec<u8>, d0: i128) -> Result<(), NoMemory>
    ensures { OnOk result (text.new.items ≡ text.old.items ++ denominator_text d0) }
{
    push_placement_word(text)?;
    push_number(text, d0)?;
    text.extend_from_slice(b"\n")
}

/// The placement of a primitive graph.
pub fn push_placing<const D: usize>(text: &mut Vec<u8>, placed: &Placed<D>) -> Result<(), NoMemory>
    ensures { OnOk result (text.new.items ≡ text.old.items ++ placing_text placed.now) }
{
    push_denominator(text, placed.d0())?;
    push_places(text, placed)
}

/// The primitive graph of a net, its basis and its key.
pub fn push_cell<const D: usize>(text: &mut Vec<u8>, net: &NetOf<D>) -> Result<(), NoMemory>
    ensures { OnOk result (text.new.items ≡ text.old.items ++ cell_text net.now) }
{
    net.stable.placed().graph().recall();
    push_primitive(text, &net.primitive)?;
    push_key(text, &net.key)
}

/// Why the primitive graph of a net of dimension `dim` is not placed.
pub fn push_fault(
    text: &mut Vec<u8>,
    names: &Names<'_>,
    dim: u8,
    fault: &PrimitiveFault,
) -> Result<(), NoMemory>
    requires names { names.now ≡ [] }
    requires some { fault.now ≢ no_memory }
    ensures { OnOk result (text.new.items ≡ text.old.items ++ fault_text dim fault.now) }
{
    text.extend_from_slice(b"symmetry ")?;
    match fault {
        PrimitiveFault::WideShift { u, v, s } => {
            text.extend_from_slice(b"refused 1 WideShift")?;
            push_arc(text, names, dim, *u, *v, s)?;
            text.extend_from_slice(b"\n")
        }
        PrimitiveFault::Refused(refusal) => push_refused(text, names, refusal),
    }
}
