// The block of a graph, as a text that is read.
ghost use Rattle.std.specs.Prelude.{◌≡◌, ◌++◌, OnOk, option_copied};
ghost use Rattle.line_text.specs.Numbers.{list_text};
ghost use Rattle.quotient_graph.specs.AnyGraphs.{graph_view};
ghost use Rattle.graph_rows.specs.Rows.{edge_numbers};
ghost use Rattle.cover_answers.specs.Blocks.{name_line, edge_line, edge_lines, graph_text};

use crate::NoMemory;
use line_text::push_wide_list;
use quotient_graph::{AnyGraph, Arc, Graph};

fn push_name(text: &mut Vec<u8>, name: Option<&[u8]>) -> Result<(), NoMemory>
    ensures { OnOk result (text.new.items ≡
        text.old.items ++ name_line (option_copied name.entry)) }
{
    match name {
        None => Ok(()),
        Some(name) => {
            text.extend_from_slice(b"NAME \"")?;
            text.extend_from_slice(name)?;
            text.extend_from_slice(b"\"\n")
        }
    }
}

// An edge without its line feed.
fn push_numbers<const D: usize>(text: &mut Vec<u8>, e: &Arc<D>) -> Result<(), NoMemory>
    ensures { OnOk result (text.new.items ≡
        text.old.items ++ list_text (edge_numbers D e.now)) }
{
    let [u, v] = [e.from as i128, e.to as i128];
    let [x, y, z] = [e.shift.x as i128, e.shift.y as i128, e.shift.z as i128];
    if D == 2 {
        push_wide_list(text, &[u, v, x, y])
    } else {
        push_wide_list(text, &[u, v, x, y, z])
    }
}

fn push_edge<const D: usize>(text: &mut Vec<u8>, e: &Arc<D>) -> Result<(), NoMemory>
    ensures { OnOk result (text.new.items ≡ text.old.items ++ edge_line D e.now) }
{
    push_numbers(text, e)?;
    text.extend_from_slice(b"\n")
}

fn push_edges<const D: usize>(text: &mut Vec<u8>, edges: &[Arc<D>]) -> Result<(), NoMemory>
    ensures { OnOk result (text.new.items ≡ text.old.items ++ edge_lines D edges.now) }
{
    for edge in edges {
        push_edge(text, edge)?;
    }
    Ok(())
}

fn push_edges_of<const D: usize>(text: &mut Vec<u8>, g: &Graph<D>) -> Result<(), NoMemory>
    ensures { OnOk result (text.new.items ≡
        text.old.items ++ edge_lines g.now.dimension g.now.edges) }
{
    g.recall();
    push_edges(text, g.edges())
}

fn push_any_edges(text: &mut Vec<u8>, g: &AnyGraph) -> Result<(), NoMemory>
    ensures { OnOk result (text.new.items ≡
        text.old.items ++ edge_lines (graph_view g.now).dimension (graph_view g.now).edges) }
{
    match g {
        AnyGraph::Flat(g) => push_edges_of(text, g),
        AnyGraph::Space(g) => push_edges_of(text, g),
    }
}

/// The block of a graph, under a name if it has one.
pub fn push_graph(text: &mut Vec<u8>, name: Option<&[u8]>, g: &AnyGraph) -> Result<(), NoMemory>
    ensures { OnOk result (text.new.items ≡
        text.old.items ++ graph_text (option_copied name.entry) (graph_view g.now)) }
{
    text.extend_from_slice(b"PERIODIC_GRAPH\n")?;
    push_name(text, name)?;
    text.extend_from_slice(b"EDGES\n")?;
    push_any_edges(text, g)?;
    text.extend_from_slice(b"END\n")
}
