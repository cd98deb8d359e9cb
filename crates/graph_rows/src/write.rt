// Writes the rows of a graph.
ghost use Rattle.std.specs.Prelude.{◌≡◌, ◌++◌, ◌∷◌, [], OnOk};
ghost use Rattle.integers.specs.Vectors.{parts};
ghost use Rattle.line_text.specs.Numbers.{list_text};
ghost use Rattle.line_text.specs.Lines.{rows_text};
ghost use Rattle.quotient_graph.specs.AnyGraphs.{graph_view};
ghost use Rattle.graph_rows.specs.Rows.{size_row, edge_row, edge_lines, graph_lines};

use crate::GraphSize;
use line_text::{push_number, push_numbers, push_row};
use quotient_graph::{AnyGraph, Arc, Graph};
use std::alloc::AllocError as NoMemory;
use vecdim::Triple;

/// The parts of a vector of this dimension, with blanks between them.
pub fn push_parts(text: &mut Vec<u8>, dim: u8, vector: &Triple) -> Result<(), NoMemory>
    ensures { OnOk result (text.new.items ≡ text.old.items ++ list_text (parts dim vector.now)) }
{
    push_number(text, vector.x)?;
    if dim == 2 {
        push_numbers(text, &[vector.y])
    } else {
        push_numbers(text, &[vector.y, vector.z])
    }
}

#[tactic(auto, unfolding(crate::specs::Rows::size_row))]
fn push_size(text: &mut Vec<u8>, size: GraphSize) -> Result<(), NoMemory>
    ensures { OnOk result (text.new.items ≡ text.old.items ++ rows_text (size_row size ∷ [])) }
{
    let numbers = [size.dim as i128, size.vertices as i128, size.edges as i128];
    push_row(text, b"graph", &numbers)
}

#[tactic(auto, unfolding(crate::specs::Rows::edge_row))]
fn push_edge<const D: usize>(text: &mut Vec<u8>, e: &Arc<D>) -> Result<(), NoMemory>
    ensures { OnOk result (text.new.items ≡ text.old.items ++ rows_text (edge_row D e.now ∷ [])) }
{
    let [u, v] = [e.from as i128, e.to as i128];
    let [x, y, z] = [e.shift.x as i128, e.shift.y as i128, e.shift.z as i128];
    if D == 2 {
        push_row(text, b"edge", &[u, v, x, y])
    } else {
        push_row(text, b"edge", &[u, v, x, y, z])
    }
}

fn push_edges<const D: usize>(text: &mut Vec<u8>, edges: &[Arc<D>]) -> Result<(), NoMemory>
    ensures { OnOk result (text.new.items ≡
        text.old.items ++ rows_text (edge_lines D edges.now)) }
{
    for e in edges {
        push_edge(text, e)?;
    }
    Ok(())
}

fn push_drawn<const D: usize>(text: &mut Vec<u8>, graph: &Graph<D>) -> Result<(), NoMemory>
    ensures { OnOk result (text.new.items ≡ text.old.items ++
        rows_text (graph_lines graph.now)) }
{
    let size = GraphSize {
        dim: graph.dimension(),
        vertices: graph.vertices(),
        edges: graph.edge_count(),
    };
    push_size(text, size)?;
    push_edges(text, graph.edges())
}

/// The rows of a graph.
pub fn push_graph(text: &mut Vec<u8>, graph: &AnyGraph) -> Result<(), NoMemory>
    ensures { OnOk result (text.new.items ≡
        text.old.items ++ rows_text (graph_lines (graph_view graph.now))) }
{
    match graph {
        AnyGraph::Flat(graph) => push_drawn(text, graph),
        AnyGraph::Space(graph) => push_drawn(text, graph),
    }
}
