// Reads lines of a word and numbers, and cuts words from a line.
ghost use Rattle.std.specs.Prelude.{ℕ, ℤ, List, ◌++◌, ◌≡◌, ◌≢◌, ◌<◌, ◌≤◌, length, All, IfOk, Ok, true, MatchOption, IfSome};
ghost use Rattle.line_text.specs.Numbers.{IsWide, marked_text, row_text};

use crate::cuts::cut;
use crate::numbers::read_number;
use std::alloc::AllocError as NoMemory;

/// Whether the text is so many numbers at most, each after one mark; they take the place of those
/// that were held. The mark is a byte below the minus, so that no number has it.
pub fn read_numbers(
    text: &[u8],
    mark: u8,
    most: usize,
    numbers: &mut Vec<i128>,
) -> Result<bool, NoMemory>
    requires { mark < 45 }
    ensures spelling { result ≡ Ok true → text.now ≡ marked_text mark numbers.new.items }
    ensures wide { result ≡ Ok true → All IsWide numbers.new.items }
    ensures few { result ≡ Ok true → length numbers.new.items ≤ most }
    ensures every { IfOk result (λ read. (zs : List ℤ) → All IsWide zs → length zs ≤ most →
        text.now ≡ marked_text mark zs → (read ≡ true) × (numbers.new.items ≡ zs)) }
{
    numbers.clear();
    let mut rest = text;
    while let [first, others @ ..] = rest {
        if *first != mark {
            return Ok(false);
        }
        if numbers.len() == most {
            return Ok(false);
        }
        let (field, after) = cut(others, mark);
        match read_number(field) {
            Some(n) => numbers.push(n)?,
            None => return Ok(false),
        }
        rest = after;
    }
    Ok(true)
}

fn after_word<'a>(line: &'a [u8], word: &[u8]) -> Option<&'a [u8]>
    ensures { MatchOption result ((rest : List ℕ) → line.now ≢ word.now ++ rest)
        (λ rest. line.now ≡ word.now ++ rest.now) }
{
    line.strip_prefix(word)
}

/// Whether the line is a word and then so many numbers at most; these take the place of those that
/// were held.
pub fn read_row(
    line: &[u8],
    word: &[u8],
    most: usize,
    numbers: &mut Vec<i128>,
) -> Result<bool, NoMemory>
    ensures spelling { result ≡ Ok true → line.now ≡ row_text word.now numbers.new.items }
    ensures wide { result ≡ Ok true → All IsWide numbers.new.items }
    ensures few { result ≡ Ok true → length numbers.new.items ≤ most }
    ensures every { IfOk result (λ read. (zs : List ℤ) → All IsWide zs → length zs ≤ most →
        line.now ≡ row_text word.now zs → (read ≡ true) × (numbers.new.items ≡ zs)) }
{
    match after_word(line, word) {
        Some(rest) => read_numbers(rest, b' ', most, numbers),
        None => Ok(false),
    }
}

fn before_word<'a>(line: &'a [u8], word: &[u8]) -> Option<&'a [u8]>
    ensures { MatchOption result ((front : List ℕ) → line.now ≢ front ++ word.now)
        (λ front. line.now ≡ front.now ++ word.now) }
{
    line.strip_suffix(word)
}

/// What stands between two words on the line, where it begins with the one and then ends with the
/// other.
pub fn inner<'a>(line: &'a [u8], first: &[u8], last: &[u8]) -> Option<&'a [u8]>
    ensures found { IfSome result (λ x. line.now ≡ first.now ++ (x.now ++ last.now)) }
    ensures every { (x : List ℕ) → line.now ≡ first.now ++ (x ++ last.now) →
        MatchOption result ⊥ (λ f. f.now ≡ x) }
{
    match after_word(line, first) {
        Some(rest) => before_word(rest, last),
        None => None,
    }
}
