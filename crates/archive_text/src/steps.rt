// Reads the rows of an entry, one by one.
ghost use Rattle.std.specs.Prelude.{ℕ, List, ◌≡◌, ◌++◌, ◌∷◌, [], true, IfOk, IfSome, IfNone};
ghost use Rattle.line_text.specs.Lines.{IsAt};
ghost use Rattle.line_text.specs.Names.{is_name};
ghost use Rattle.archive_text.specs.Rows.{name_row, key_row, count_row, shells_row, end_row};
ghost use Rattle.archive_text.specs.Forms.{IsKeyList, IsCount, AreSizes};
ghost use Rattle.archive_text.specs.Reading.{NoName, NoKey, NoCount, NoShells};

use crate::shells::{count_from, sizes_from};
use coordination::MOST_SHELLS;
use line_text::{Lines, is_name};
use periodic_net::MOST_EDGES;
use quotient_graph::Key;
use std::alloc::AllocError as NoMemory;

/// So many numbers has a key at most.
const MOST_NUMBERS: usize = 3 + 5 * MOST_EDGES;

/// So many numbers has the row of a number of classes.
const COUNT_NUMBERS: usize = 1;

/// So many numbers has the row of a coordination sequence at most: its class, and the sizes of its
/// shells.
const SHELLS_NUMBERS: usize = 1 + MOST_SHELLS as usize;

/// The name on the next line, where an entry begins there.
pub fn next_name<'a>(lines: &mut Lines<'a>) -> Option<&'a [u8]>
    // The row of a name was passed, which spells this name.
    ensures place { (text : List ℕ) (rows : List (List ℕ)) → IsAt text rows lines.old →
        IfSome result (λ name. IsAt text (rows ++ name_row name.now ∷ []) lines.new) }
    ensures line { IfSome result (λ name.
        lines.old.rest ≡ name_row name.now ++ 10 ∷ lines.new.rest) }
    ensures form { IfSome result (λ name. is_name name.now ≡ true) }
    // None comes only where no such row stands next.
    ensures none { IfNone result (NoName lines.old.rest) }
{
    match lines.next_inner(b"entry \"", b"\"") {
        Some(name) => { if is_name(name) { Some(name) } else { None } }
        None => None,
    }
}

fn key_from(numbers: &Vec<i128>) -> Result<Key, NoMemory>
    ensures { IfOk result (λ key. key ≡ numbers.now.items) }
{
    let copy = Vec::from_slice(*numbers.allocator(), numbers)?;
    Ok(Key::from_parts(copy))
}

/// The key on the next line.
pub fn next_key(lines: &mut Lines<'_>, numbers: &mut Vec<i128>) -> Result<Option<Key>, NoMemory>
    ensures place { (text : List ℕ) (rows : List (List ℕ)) → IsAt text rows lines.old →
        IfOk result (λ found. IfSome found (λ key.
        IsAt text (rows ++ key_row key ∷ []) lines.new)) }
    ensures form { IfOk result (λ found. IfSome found IsKeyList) }
    ensures none { IfOk result (λ found. IfNone found (NoKey lines.old.rest)) }
{
    if lines.next_row(b"key", MOST_NUMBERS, numbers)? && !numbers.is_empty() {
        Ok(Some(key_from(numbers)?))
    } else {
        Ok(None)
    }
}

/// The number of classes on the next line.
pub fn next_count(lines: &mut Lines<'_>, numbers: &mut Vec<i128>) -> Result<Option<u32>, NoMemory>
    ensures place { (text : List ℕ) (rows : List (List ℕ)) → IsAt text rows lines.old →
        IfOk result (λ found. IfSome found (λ n. IsAt text (rows ++ count_row n ∷ []) lines.new)) }
    ensures form { IfOk result (λ found. IfSome found IsCount) }
    ensures none { IfOk result (λ found. IfNone found (NoCount lines.old.rest)) }
{
    if lines.next_row(b"primitive", COUNT_NUMBERS, numbers)? {
        Ok(count_from(numbers))
    } else {
        Ok(None)
    }
}

/// The coordination sequence of a class on the next line.
pub fn next_shells(
    lines: &mut Lines<'_>,
    class: u32,
    numbers: &mut Vec<i128>,
) -> Result<Option<Vec<u32>>, NoMemory>
    requires { IsCount class }
    ensures place { (text : List ℕ) (rows : List (List ℕ)) → IsAt text rows lines.old →
        IfOk result (λ found. IfSome found (λ sizes.
        IsAt text (rows ++ shells_row class sizes.items ∷ []) lines.new)) }
    ensures form { IfOk result (λ found. IfSome found (λ sizes. AreSizes sizes.items)) }
    ensures none { IfOk result (λ found. IfNone found (NoShells class lines.old.rest)) }
{
    if lines.next_row(b"shells", SHELLS_NUMBERS, numbers)? {
        sizes_from(*numbers.allocator(), class, numbers)
    } else {
        Ok(None)
    }
}

/// Whether the next line ends the entry.
pub fn next_end(lines: &mut Lines<'_>) -> bool
    ensures place { (text : List ℕ) (rows : List (List ℕ)) → IsAt text rows lines.old →
        result ≡ true → IsAt text (rows ++ end_row ∷ []) lines.new }
    ensures line { result ≡ true → lines.old.rest ≡ end_row ++ 10 ∷ lines.new.rest }
    ensures none { (rest : List ℕ) → lines.old.rest ≡ end_row ++ 10 ∷ rest → result ≡ true }
{
    lines.next_is(b"end")
}
