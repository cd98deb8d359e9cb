// Reads numbers with commas between them.
ghost use Rattle.std.specs.Prelude.{ℤ, List, ◌∷◌, ◌≡◌, ◌≤◌, length, All, IfOk, Ok, true};
ghost use Rattle.line_text.specs.Numbers.{IsWide, marked_text};
ghost use Rattle.net_cover.specs.CellWords.{comma};

use crate::NoMemory;
use line_text::read_numbers;
use std::alloc::Global;

/// Whether the word is one number or more, and so many at most, with commas between them; they take
/// the place of those that were held.
pub fn read_joined(
    alloc: Global,
    word: &[u8],
    most: usize,
    numbers: &mut Vec<i128>,
) -> Result<bool, NoMemory>
    ensures spelling { result ≡ Ok true →
        comma ∷ word.now ≡ marked_text comma numbers.new.items }
    ensures every { IfOk result (λ read. (zs : List ℤ) → All IsWide zs → length zs ≤ most →
        comma ∷ word.now ≡ marked_text comma zs → (read ≡ true) × (numbers.new.items ≡ zs)) }
{
    // With a comma before the word each number stands after one.
    let mut text = Vec::new(alloc);
    text.push(b',')?;
    text.extend_from_slice(word)?;
    read_numbers(&text, b',', most, numbers)
}
