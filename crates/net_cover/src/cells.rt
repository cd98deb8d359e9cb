// Reads the word that spells a unit cell: its rows as numbers with commas between them.
ghost use Rattle.std.specs.Prelude.{◌≡◌, ◌+◌, ◌<◌, pos, None, length, IfOk, IfSome};
ghost use Rattle.integers.specs.Vectors.{vector, zero_vector, IsWithin};
ghost use Rattle.periodic_net.specs.Limits.{most_shift};
ghost use Rattle.net_cover.specs.Cells.{CellView, cell_view};
ghost use Rattle.net_cover.specs.CellWords.{row_in, AreNumbersOf, SpellsCell};
ghost use Rattle.net_cover.specs.Reading.{cell_of};

use crate::numbers::read_joined;
use crate::{Cell, NoMemory};
use periodic_net::MOST_SHIFT;
use std::alloc::Global;
use vecdim::Triple;

// The cell of dimension 2 with these rows, if their parts are small.
fn flat_cell(a: Triple, b: Triple) -> Option<Cell>
    requires first { a.z ≡ pos 0 }
    requires second { b.z ≡ pos 0 }
    ensures cell { IfSome result (λ R. R ≡ cell_view 2 a b zero_vector) }
    ensures small { IfSome result (λ R. IsWithin most_shift a × IsWithin most_shift b) }
    ensures none { result ≡ None → ¬ (IsWithin most_shift a × IsWithin most_shift b) }
{
    if a.is_within(MOST_SHIFT as u64) && b.is_within(MOST_SHIFT as u64) {
        Some(Cell {
            dim: 2,
            a,
            b,
            c: Triple { x: 0, y: 0, z: 0 },
        })
    } else {
        None
    }
}

// The same of dimension 3.
fn space_cell(a: Triple, b: Triple, c: Triple) -> Option<Cell>
    ensures cell { IfSome result (λ R. R ≡ cell_view 3 a b c) }
    ensures small { IfSome result (λ R. IsWithin most_shift a
        × IsWithin most_shift b × IsWithin most_shift c) }
    ensures none { result ≡ None → ¬ (IsWithin most_shift a
        × IsWithin most_shift b × IsWithin most_shift c) }
{
    let [first, second, third] = [
        a.is_within(MOST_SHIFT as u64),
        b.is_within(MOST_SHIFT as u64),
        c.is_within(MOST_SHIFT as u64),
    ];
    if first && second && third {
        Some(Cell { dim: 3, a, b, c })
    } else {
        None
    }
}

// A row with these parts.
fn row(x: i128, y: i128, z: i128) -> Triple
    ensures { result ≡ vector x y z }
{
    Triple { x, y, z }
}

// The cell of 4 numbers.
fn flat_from(numbers: &[i128]) -> Option<Cell>
    ensures cell { IfSome result (AreNumbersOf numbers.now) }
    ensures none { result ≡ None → (R : CellView) → R.dimension ≡ 2 →
        ¬ AreNumbersOf numbers.now R }
{
    let [ax, ay, bx, by] = numbers else {
        return None;
    };
    flat_cell(row(*ax, *ay, 0), row(*bx, *by, 0))
}

// The row with the three parts from a place on.
fn row_at(numbers: &[i128], at: usize) -> Triple
    requires { at + 2 < length numbers.now }
    ensures { result ≡ row_in numbers.now at }
{
    Triple {
        x: numbers[at],
        y: numbers[at + 1],
        z: numbers[at + 2],
    }
}

// The cell of 9 numbers.
fn space_from(numbers: &[i128]) -> Option<Cell>
    ensures cell { IfSome result (AreNumbersOf numbers.now) }
    ensures none { result ≡ None → (R : CellView) → R.dimension ≡ 3 →
        ¬ AreNumbersOf numbers.now R }
{
    if numbers.len() != 9 {
        return None;
    }
    let a = row_at(numbers, 0);
    let b = row_at(numbers, 3);
    let c = row_at(numbers, 6);
    space_cell(a, b, c)
}

// The cell of these numbers.
fn cell_from(numbers: &[i128]) -> Option<Cell>
    ensures cell { IfSome result (AreNumbersOf numbers.now) }
    ensures none { result ≡ None → (R : CellView) → ¬ AreNumbersOf numbers.now R }
{
    match flat_from(numbers) {
        Some(cell) => Some(cell),
        None => space_from(numbers),
    }
}

/// So many numbers spell a cell at most.
const MOST_NUMBERS: usize = 9;

// The cell that a word spells.
fn find_cell(alloc: Global, word: &[u8]) -> Result<Option<Cell>, NoMemory>
    ensures cell { IfOk result (λ o. IfSome o (SpellsCell word.now)) }
    ensures none { IfOk result (λ o. o ≡ None → (R : CellView) → ¬ SpellsCell word.now R) }
{
    let mut numbers = Vec::new(alloc);
    if read_joined(alloc, word, MOST_NUMBERS, &mut numbers)? {
        Ok(cell_from(&numbers))
    } else {
        Ok(None)
    }
}

/// The cell that a word spells: the parts of its rows, row by row, with commas between them.
#[tactic(auto, using(crate::proofs::CellRows::is_read))]
pub fn cell_of(alloc: Global, word: &[u8]) -> Result<Option<Cell>, NoMemory>
    ensures cell { IfOk result (λ o. IfSome o (SpellsCell word.now)) }
    ensures none { IfOk result (λ o. o ≡ None → (R : CellView) → ¬ SpellsCell word.now R) }
    ensures read { IfOk result (λ o. o ≡ cell_of word.now) }
{
    find_cell(alloc, word)
}
