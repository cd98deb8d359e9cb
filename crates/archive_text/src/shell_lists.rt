// Reads the coordination sequences of an entry, class by class.
ghost use Rattle.std.specs.Prelude.{ℕ, List, length, ◌≤◌, IfOk, MatchResult};
ghost use Rattle.line_text.specs.Faults.{IfBadLine};
ghost use Rattle.line_text.specs.Lines.{IsAt};
ghost use Rattle.archive_text.specs.Forms.{IsCount};
ghost use Rattle.archive_text.specs.Reading.{HasBadShells, HasShells};
ghost use Rattle.periodic_net.specs.Limits.{most_vertices};

use crate::steps::next_shells;
use coordination::Sequences;
use line_text::{Lines, RowFault};

/// The sequences of so many classes, or the number of the first line that has not those of the
/// next.
pub fn read_lists(
    lines: &mut Lines<'_>,
    count: u32,
    numbers: &mut Vec<i128>,
) -> Result<Sequences, RowFault>
    requires { IsCount count }
    ensures shells { (text : List ℕ) (rows : List (List ℕ)) → IsAt text rows lines.old →
        MatchResult result (λ lists. HasShells text rows count lists lines.new)
        (IfBadLine (HasBadShells text rows count)) }
    ensures few { IfOk result (λ lists. length lists ≤ most_vertices) }
{
    let mut lists = Sequences::new(*numbers.allocator());
    for done in 0..count {
        let line = lines.number();
        let Some(sizes) = next_shells(lines, done + 1, numbers)? else {
            return Err(RowFault::BadLine(line));
        };
        lists.push(sizes)?;
    }
    Ok(lists)
}
