// The lines of a group: its operations, and its orbits of vertices and of edges.
ghost use Rattle.std.specs.Prelude.{◌≡◌, ◌++◌, OnOk};
ghost use Rattle.net_operations.specs.Groups.{transposed};
ghost use Rattle.symmetry_answers.specs.GroupTexts.{after_blank, count_text, edge_kinds_text, edge_orbit_text, edge_orbits_text, group_text, matrix_text, motion_text, motions_text, operations_text, third_text, vertex_kinds_text, vertex_orbit_text, vertex_orbits_text};

use crate::NoMemory;
use graph_rows::push_parts;
use line_text::push_field;
use net_operations::{EdgeOrbit, Group, Motion, VertexOrbit};
use standard_map::Cells;
use vecdim::Triple;

#[tactic(auto, unfolding(crate::specs::GroupTexts::after_blank))]
fn push_after_blank(text: &mut Vec<u8>, dim: u8, vector: &Triple) -> Result<(), NoMemory>
    ensures { OnOk result (text.new.items ≡ text.old.items ++ after_blank dim vector.now) }
{
    text.extend_from_slice(b" ")?;
    push_parts(text, dim, vector)
}

fn push_third(text: &mut Vec<u8>, dim: u8, vector: &Triple) -> Result<(), NoMemory>
    ensures { OnOk result (text.new.items ≡ text.old.items ++ third_text dim vector.now) }
{
    if dim == 2 {
        return Ok(());
    }
    push_after_blank(text, dim, vector)
}

// The matrix of rows, by its own rows: rows and columns are changed over.
fn matrix_of(rows: &Cells) -> Cells
    ensures { result ≡ transposed rows.now }
{
    let (a, b, c) = (&rows.first, &rows.second, &rows.third);
    Cells {
        first: Triple {
            x: a.x,
            y: b.x,
            z: c.x,
        },
        second: Triple {
            x: a.y,
            y: b.y,
            z: c.y,
        },
        third: Triple {
            x: a.z,
            y: b.z,
            z: c.z,
        },
    }
}

fn push_matrix(text: &mut Vec<u8>, dim: u8, matrix: &Cells) -> Result<(), NoMemory>
    ensures { OnOk result (text.new.items ≡ text.old.items ++ matrix_text dim matrix.now) }
{
    push_after_blank(text, dim, &matrix.first)?;
    push_after_blank(text, dim, &matrix.second)?;
    push_third(text, dim, &matrix.third)
}

// An operation: its matrix by rows, and its shift.
fn push_motion(text: &mut Vec<u8>, dim: u8, motion: &Motion) -> Result<(), NoMemory>
    ensures { OnOk result (text.new.items ≡ text.old.items ++ motion_text dim motion.now) }
{
    text.extend_from_slice(b"operation")?;
    push_matrix(text, dim, &matrix_of(&motion.rows))?;
    push_after_blank(text, dim, &motion.shift)?;
    text.extend_from_slice(b"\n")
}

fn push_motions(text: &mut Vec<u8>, dim: u8, motions: &[Motion]) -> Result<(), NoMemory>
    ensures { OnOk result (text.new.items ≡ text.old.items ++ motions_text dim motions.now) }
{
    for motion in motions {
        push_motion(text, dim, motion)?;
    }
    Ok(())
}

// An orbit of vertices: its least vertex, its size, and the order of the stabilizer of a vertex.
fn push_vertex_orbit(text: &mut Vec<u8>, orbit: &VertexOrbit) -> Result<(), NoMemory>
    ensures { OnOk result (text.new.items ≡ text.old.items ++ vertex_orbit_text orbit.now) }
{
    push_field(text, b"orbit ", orbit.least as u64)?;
    push_field(text, b" size=", orbit.size as u64)?;
    push_field(text, b" order=", orbit.order as u64)?;
    text.extend_from_slice(b"\n")
}

fn push_vertex_orbits(text: &mut Vec<u8>, orbits: &[VertexOrbit]) -> Result<(), NoMemory>
    ensures { OnOk result (text.new.items ≡ text.old.items ++ vertex_orbits_text orbits.now) }
{
    for orbit in orbits {
        push_vertex_orbit(text, orbit)?;
    }
    Ok(())
}

// An orbit of edges: its first edge, and its size.
fn push_edge_orbit<const D: usize>(
    text: &mut Vec<u8>,
    dim: u8,
    orbit: &EdgeOrbit<D>,
) -> Result<(), NoMemory>
    ensures { OnOk result (text.new.items ≡ text.old.items ++ edge_orbit_text dim orbit.now) }
{
    push_field(text, b"orbit ", orbit.edge.from as u64)?;
    push_field(text, b" ", orbit.edge.to as u64)?;
    push_after_blank(text, dim, &orbit.edge.shift.to_triple())?;
    push_field(text, b" size=", orbit.size as u64)?;
    text.extend_from_slice(b"\n")
}

fn push_edge_orbits<const D: usize>(
    text: &mut Vec<u8>,
    dim: u8,
    orbits: &[EdgeOrbit<D>],
) -> Result<(), NoMemory>
    ensures { OnOk result (text.new.items ≡ text.old.items ++ edge_orbits_text dim orbits.now) }
{
    for orbit in orbits {
        push_edge_orbit(text, dim, orbit)?;
    }
    Ok(())
}

// A count after its word, on a line of its own.
fn push_count(text: &mut Vec<u8>, word: &[u8], n: u64) -> Result<(), NoMemory>
    ensures { OnOk result (text.new.items ≡ text.old.items ++ count_text word.now n) }
{
    push_field(text, word, n)?;
    text.extend_from_slice(b"\n")
}

#[tactic(auto, unfolding(crate::specs::GroupTexts::operations_text))]
fn push_operations(text: &mut Vec<u8>, dim: u8, motions: &[Motion]) -> Result<(), NoMemory>
    ensures { OnOk result (text.new.items ≡ text.old.items ++ operations_text dim motions.now) }
{
    push_count(text, b"operations ", motions.len() as u64)?;
    push_motions(text, dim, motions)
}

#[tactic(auto, unfolding(crate::specs::GroupTexts::vertex_kinds_text))]
fn push_vertex_kinds(text: &mut Vec<u8>, orbits: &[VertexOrbit]) -> Result<(), NoMemory>
    ensures { OnOk result (text.new.items ≡ text.old.items ++ vertex_kinds_text orbits.now) }
{
    push_count(text, b"vertices ", orbits.len() as u64)?;
    push_vertex_orbits(text, orbits)
}

#[tactic(auto, unfolding(crate::specs::GroupTexts::edge_kinds_text))]
fn push_edge_kinds<const D: usize>(
    text: &mut Vec<u8>,
    dim: u8,
    orbits: &[EdgeOrbit<D>],
) -> Result<(), NoMemory>
    ensures { OnOk result (text.new.items ≡ text.old.items ++ edge_kinds_text dim orbits.now) }
{
    push_count(text, b"edges ", orbits.len() as u64)?;
    push_edge_orbits(text, dim, orbits)
}

/// The lines of the group of a net of dimension `dim`.
pub fn push_group<const D: usize>(
    text: &mut Vec<u8>,
    dim: u8,
    group: &Group<D>,
) -> Result<(), NoMemory>
    ensures { OnOk result (text.new.items ≡ text.old.items ++ group_text dim group.now) }
{
    push_operations(text, dim, &group.motions)?;
    push_vertex_kinds(text, &group.vertices)?;
    push_edge_kinds(text, dim, &group.edges)
}
