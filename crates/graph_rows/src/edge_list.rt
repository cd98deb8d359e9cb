// Reads the edges of a graph.
ghost use Rattle.std.specs.Prelude.{ℕ, List, ◌≡◌, length, map, IfOk, MatchResult};
ghost use Rattle.line_text.specs.Faults.{IfBadLine};
ghost use Rattle.line_text.specs.Lines.{IsAt};
ghost use Rattle.cgd_read.specs.Spelling.{edge_of};
ghost use Rattle.quotient_graph.specs.EdgeLists.{AreEdgesOfGraph};
ghost use Rattle.graph_rows.specs.Forms.{IsSize};
ghost use Rattle.graph_rows.specs.Reading.{HasBadEdge, HasEdges};

use crate::GraphSize;
use crate::steps::next_edge;
use line_text::{Lines, RowFault};
use quotient_graph::RawEdge;

/// The edges that the size says, or the number of the first line that is no next edge.
pub fn read_edges(
    lines: &mut Lines<'_>,
    size: &GraphSize,
    numbers: &mut Vec<i128>,
) -> Result<Vec<RawEdge>, RowFault>
    requires { IsSize size.now }
    ensures edges { (text : List ℕ) (rows : List (List ℕ)) → IsAt text rows lines.old →
        MatchResult result
        (λ edges. HasEdges text rows size.now (map edge_of edges.items) lines.new)
        (IfBadLine (HasBadEdge text rows size.now)) }
    ensures form { IfOk result (λ edges.
        AreEdgesOfGraph size.now.dim size.now.vertices edges.items) }
    ensures whole { IfOk result (λ edges. length edges.items ≡ size.now.edges) }
{
    let mut edges = Vec::new(*numbers.allocator());
    let mut last = None;
    for _ in 0..size.edges {
        let line = lines.number();
        let Some(e) = next_edge(lines, size, last, numbers)? else {
            return Err(RowFault::BadLine(line));
        };
        edges.push(e)?;
        last = Some(e);
    }
    Ok(edges)
}
