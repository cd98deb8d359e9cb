// The lines of a primitive graph.
ghost use Rattle.std.specs.Prelude.{◌≡◌, ◌≤◌, ◌++◌, OnOk};
ghost use Rattle.net_report.specs.Primitives.{bases_text, basis_text, edge_text, edges_text, primitive_text, sizes_text};

use crate::NoMemory;
use graph_rows::push_parts;
use line_text::push_field;
use primitive_cell::{PrimEdge, Primitive};
use vecdim::Vect;

fn push_sizes(text: &mut Vec<u8>, vertices: u64, edges: u64) -> Result<(), NoMemory>
    ensures { OnOk result (text.new.items ≡ text.old.items ++ sizes_text vertices edges) }
{
    push_field(text, b"primitive vertices=", vertices)?;
    push_field(text, b" edges=", edges)?;
    text.extend_from_slice(b"\n")
}

fn push_basis<const D: usize>(text: &mut Vec<u8>, v: &Vect<D>) -> Result<(), NoMemory>
    requires { D ≤ 255 }
    ensures { OnOk result (text.new.items ≡ text.old.items ++ basis_text D v.now) }
{
    text.extend_from_slice(b"basis ")?;
    push_parts(text, D as u8, &v.to_triple())?;
    text.extend_from_slice(b"\n")
}

fn push_bases<const D: usize>(text: &mut Vec<u8>, basis: &[Vect<D>]) -> Result<(), NoMemory>
    requires { D ≤ 255 }
    ensures { OnOk result (text.new.items ≡ text.old.items ++ bases_text D basis.now) }
{
    for v in basis {
        push_basis(text, v)?;
    }
    Ok(())
}

fn push_edge<const D: usize>(text: &mut Vec<u8>, edge: &PrimEdge<D>) -> Result<(), NoMemory>
    requires { D ≤ 255 }
    ensures { OnOk result (text.new.items ≡ text.old.items ++ edge_text D edge.now) }
{
    push_field(text, b"edge ", edge.u as u64)?;
    push_field(text, b" ", edge.v as u64)?;
    text.extend_from_slice(b" ")?;
    push_parts(text, D as u8, &edge.shift.to_triple())?;
    text.extend_from_slice(b"\n")
}

fn push_edges<const D: usize>(text: &mut Vec<u8>, edges: &[PrimEdge<D>]) -> Result<(), NoMemory>
    requires { D ≤ 255 }
    ensures { OnOk result (text.new.items ≡ text.old.items ++ edges_text D edges.now) }
{
    for edge in edges {
        push_edge(text, edge)?;
    }
    Ok(())
}

/// The sizes, the basis and the edges of a primitive graph.
pub fn push_primitive<const D: usize>(
    text: &mut Vec<u8>,
    primitive: &Primitive<D>,
) -> Result<(), NoMemory>
    requires { D ≤ 255 }
    ensures { OnOk result (text.new.items ≡ text.old.items ++ primitive_text primitive.now) }
{
    push_sizes(
        text,
        primitive.vertices as u64,
        primitive.edges.len() as u64,
    )?;
    push_bases(text, &primitive.basis)?;
    push_edges(text, &primitive.edges)
}
