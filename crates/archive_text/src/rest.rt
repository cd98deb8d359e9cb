// Reads the rows of an entry after its name.
ghost use Rattle.std.specs.Prelude.{ℕ, List, length, ◌≡◌, ◌≤◌, ◌++◌, ◌∷◌, [], true, IfOk, MatchResult};
ghost use Rattle.line_text.specs.Faults.{IfBadLine};
ghost use Rattle.line_text.specs.Lines.{IsAt};
ghost use Rattle.periodic_net.specs.Limits.{most_vertices};
ghost use Rattle.archive_text.specs.declared.version.Version.{Version};
ghost use Rattle.archive_text.specs.declared.version.Version.TheVariants.{Two};
ghost use Rattle.line_text.specs.Names.{is_name};
ghost use Rattle.archive_text.specs.Rows.{name_row};
ghost use Rattle.archive_text.specs.Reading.{AreShellsRead, HasBadLine, HasKeyed, HasForm};

use crate::Version;
use crate::shell_lists::read_lists;
use crate::steps::{next_count, next_end, next_key};
use coordination::Sequences;
use graph_rows::{GraphSize, next_size, read_edges};
use line_text::{Lines, RowFault};
use quotient_graph::{Key, RawEdge};

/// The graph of an entry and its key, with the line of the key.
#[derive(Debug, Drop)]
pub struct KeyedGraph {
    pub size: GraphSize,
    pub edges: Vec<RawEdge>,
    pub key: Key,
    pub key_line: u32,
}

/// What the rows of an entry after its name say. In version 1 there are no coordination sequences.
#[derive(Debug, Drop)]
pub struct Form {
    pub keyed: KeyedGraph,
    pub shells: Sequences,
}

// The graph and its key, or the number of the first line that may not follow.
fn read_keyed(lines: &mut Lines<'_>, numbers: &mut Vec<i128>) -> Result<KeyedGraph, RowFault>
    ensures { (v : Version) (text : List ℕ) (rows : List (List ℕ)) (name : List ℕ) →
        is_name name ≡ true → IsAt text (rows ++ name_row name ∷ []) lines.old →
        MatchResult result (HasKeyed text rows name lines.new)
        (IfBadLine (HasBadLine v text rows name)) }
{
    let size_line = lines.number();
    let Some(size) = next_size(lines, numbers)? else {
        return Err(RowFault::BadLine(size_line));
    };
    let edges = read_edges(lines, &size, numbers)?;
    let key_line = lines.number();
    let Some(key) = next_key(lines, numbers)? else {
        return Err(RowFault::BadLine(key_line));
    };
    Ok(KeyedGraph {
        size,
        edges,
        key,
        key_line,
    })
}

// The number of classes and the sequence of each, or the number of the first line that may not
// follow.
fn read_counted(lines: &mut Lines<'_>, numbers: &mut Vec<i128>) -> Result<Sequences, RowFault>
    ensures rest { AreShellsRead Two lines.old lines.new result }
    ensures few { IfOk result (λ lists. length lists ≤ most_vertices) }
{
    let line = lines.number();
    let Some(count) = next_count(lines, numbers)? else {
        return Err(RowFault::BadLine(line));
    };
    read_lists(lines, count, numbers)
}

// The coordination sequences of all classes in version 2, or the number of the first line that may
// not follow.
fn read_shells(
    lines: &mut Lines<'_>,
    version: Version,
    numbers: &mut Vec<i128>,
) -> Result<Sequences, RowFault>
    ensures rest { AreShellsRead version lines.old lines.new result }
    ensures few { IfOk result (λ lists. length lists ≤ most_vertices) }
{
    match version {
        Version::One => Ok(Sequences::new(*numbers.allocator())),
        Version::Two => read_counted(lines, numbers),
    }
}

/// What the rows of an entry after its name say, or the number of the first line that may not
/// follow.
pub fn read_rest(
    lines: &mut Lines<'_>,
    version: Version,
    numbers: &mut Vec<i128>,
) -> Result<Form, RowFault>
    ensures rest { (text : List ℕ) (rows : List (List ℕ)) (name : List ℕ) → is_name name ≡ true →
        IsAt text (rows ++ name_row name ∷ []) lines.old →
        MatchResult result (HasForm version text rows name lines.new)
        (IfBadLine (HasBadLine version text rows name)) }
    ensures few { IfOk result (λ f. length f.shells ≤ most_vertices) }
{
    let keyed = read_keyed(lines, numbers)?;
    let shells = read_shells(lines, version, numbers)?;
    let end_line = lines.number();
    if next_end(lines) {
        Ok(Form { keyed, shells })
    } else {
        Err(RowFault::BadLine(end_line))
    }
}
