// Writes the lines of the edges of a net of a workload.
ghost use Rattle.std.specs.Prelude.{◌≡◌, ◌++◌, ◌<◌, ◌≤◌, IsTrue, OnOk};
ghost use Rattle.std.specs.Fmt.{decimal};
ghost use Rattle.std.specs.List.{list_all};
ghost use Rattle.workload.specs.BaseNets.{is_base_edge};
ghost use Rattle.workload.specs.Workload.{all_lines, edge_line, ends_text, part_text, place_lines, shift_text, third_text};

use crate::NoMemory;
use crate::cells::edge_at;
use crate::edge::Edge;
use itoa::Buffer;

/// Appends a number.
pub fn push_number(text: &mut Vec<u8>, n: u32) -> Result<(), NoMemory>
    ensures { OnOk result (text.new.items ≡ text.old.items ++ decimal n) }
{
    let mut buffer = Buffer::new();
    text.extend_from_slice(buffer.format(n).as_bytes())
}

// A part of a shift, after a blank.
#[tactic(auto, unfolding(crate::specs::Workload::part_text))]
fn push_part(text: &mut Vec<u8>, part: i32) -> Result<(), NoMemory>
    ensures { OnOk result (text.new.items ≡ text.old.items ++ part_text part) }
{
    let mut buffer = Buffer::new();
    text.extend_from_slice(b" ")?;
    text.extend_from_slice(buffer.format(part).as_bytes())
}

// The third part, if the net is not plane.
#[tactic(auto, unfolding(crate::specs::Workload::third_text))]
fn push_third(text: &mut Vec<u8>, dimension: u32, part: i32) -> Result<(), NoMemory>
    ensures { OnOk result (text.new.items ≡ text.old.items ++ third_text dimension part) }
{
    if dimension == 2 {
        return Ok(());
    }
    push_part(text, part)
}

fn push_ends(text: &mut Vec<u8>, e: Edge) -> Result<(), NoMemory>
    ensures { OnOk result (text.new.items ≡ text.old.items ++ ends_text e) }
{
    push_number(text, e.u)?;
    text.extend_from_slice(b" ")?;
    push_number(text, e.v)
}

fn push_shift(text: &mut Vec<u8>, dimension: u32, e: Edge) -> Result<(), NoMemory>
    ensures { OnOk result (text.new.items ≡ text.old.items ++ shift_text dimension e) }
{
    push_part(text, e.x)?;
    push_part(text, e.y)?;
    push_third(text, dimension, e.z)
}

#[tactic(auto, unfolding(crate::specs::Workload::edge_line))]
fn push_edge(text: &mut Vec<u8>, dimension: u32, e: Edge) -> Result<(), NoMemory>
    ensures { OnOk result (text.new.items ≡ text.old.items ++ edge_line dimension e) }
{
    push_ends(text, e)?;
    push_shift(text, dimension, e)?;
    text.extend_from_slice(b"\n")
}

// The lines of a base edge, one for each place.
fn push_places(text: &mut Vec<u8>, dimension: u32, m: u32, k: u32, e: &Edge) -> Result<(), NoMemory>
    requires cells { m ≤ 4 }
    requires shear { k < 5 }
    requires base { IsTrue (is_base_edge e.now) }
    ensures { OnOk result (text.new.items ≡
        text.old.items ++ place_lines dimension m k e.now) }
{
    for r in 0..m {
        push_edge(text, dimension, edge_at(m, k, e, r))?;
    }
    Ok(())
}

/// Appends the lines of all edges.
pub fn push_lines(
    text: &mut Vec<u8>,
    dimension: u32,
    m: u32,
    k: u32,
    edges: &[Edge],
) -> Result<(), NoMemory>
    requires cells { m ≤ 4 }
    requires shear { k < 5 }
    requires base { IsTrue (list_all is_base_edge edges.now) }
    ensures { OnOk result (text.new.items ≡
        text.old.items ++ all_lines dimension m k edges.now) }
{
    let mut left = edges;
    while let [e, others @ ..] = left {
        push_places(text, dimension, m, k, e)?;
        left = others;
    }
    Ok(())
}
