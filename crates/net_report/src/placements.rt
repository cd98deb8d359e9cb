// The lines of a placement.
ghost use Rattle.std.specs.Prelude.{◌≡◌, ◌++◌, OnOk, length};
ghost use Rattle.periodic_net.specs.Graph.{IsQuotientVertex};
ghost use Rattle.least_key.specs.AnyPlacements.{placed_view};
ghost use Rattle.net_report.specs.Placements.{position_text, positions_text, placement_word, denominator_text, placement_text};

use crate::NoMemory;
use crate::numbers::push_vertex;
use cgd_read::Names;
use graph_rows::push_parts;
use least_key::AnyPlaced;
use line_text::push_number;
use quotient_graph::Placed;

// Where a vertex stands.
fn push_position<const D: usize>(
    text: &mut Vec<u8>,
    names: &Names<'_>,
    placed: &Placed<D>,
    u: u32,
) -> Result<(), NoMemory>
    requires vertex { IsQuotientVertex placed.now.graph u }
    requires names { length names.now ≡ placed.now.graph.vertices }
    ensures { OnOk result (text.new.items ≡
        text.old.items ++ position_text names.now placed.now u) }
{
    text.extend_from_slice(b"at ")?;
    push_vertex(text, names, u)?;
    text.extend_from_slice(b" ")?;
    push_parts(text, placed.graph().dimension(), &placed.at(u).to_triple())?;
    text.extend_from_slice(b"\n")
}

// Where each vertex stands.
fn push_positions<const D: usize>(
    text: &mut Vec<u8>,
    names: &Names<'_>,
    placed: &Placed<D>,
) -> Result<(), NoMemory>
    requires { length names.now ≡ placed.now.graph.vertices }
    ensures { OnOk result (text.new.items ≡
        text.old.items ++ positions_text names.now placed.now placed.now.graph.vertices) }
{
    for i in 0..placed.graph().vertices() {
        push_position(text, names, placed, i + 1)?;
    }
    Ok(())
}

#[tactic(auto, unfolding(crate::specs::Placements::placement_word))]
fn push_placement_word(text: &mut Vec<u8>) -> Result<(), NoMemory>
    ensures { OnOk result (text.new.items ≡ text.old.items ++ placement_word) }
{
    text.extend_from_slice(b"placement D0=")
}

// The common denominator of the positions.
fn push_denominator(text: &mut Vec<u8>, d0: i128) -> Result<(), NoMemory>
    ensures { OnOk result (text.new.items ≡ text.old.items ++ denominator_text d0) }
{
    push_placement_word(text)?;
    push_number(text, d0)?;
    text.extend_from_slice(b"\n")
}

/// The lines of a placement.
pub(crate) fn push_placed<const D: usize>(
    text: &mut Vec<u8>,
    names: &Names<'_>,
    placed: &Placed<D>,
) -> Result<(), NoMemory>
    requires { length names.now ≡ placed.now.graph.vertices }
    ensures { OnOk result (text.new.items ≡ text.old.items ++ placement_text names.now placed.now) }
{
    push_denominator(text, placed.d0())?;
    push_positions(text, names, placed)
}

/// The lines of a placement in either dimension.
pub fn push_placement(
    text: &mut Vec<u8>,
    names: &Names<'_>,
    placed: &AnyPlaced,
) -> Result<(), NoMemory>
    requires { length names.now ≡ (placed_view placed.now).graph.vertices }
    ensures { OnOk result (text.new.items ≡
        text.old.items ++ placement_text names.now (placed_view placed.now)) }
{
    match placed {
        AnyPlaced::Flat(placed) => push_placed(text, names, placed),
        AnyPlaced::Space(placed) => push_placed(text, names, placed),
    }
}
