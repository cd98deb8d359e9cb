// What the numbers of a `shells` row say: a coordination sequence.
ghost use Rattle.std.specs.Prelude.{ℕ, pos, ◌≡◌, List, [], ◌∷◌, All, map, IfSome, IfNone, IfOk, Some};
ghost use Rattle.archive_text.specs.Rows.{shells_numbers};
ghost use Rattle.archive_text.specs.Forms.{AreSizes, IsCount, IsShort};

use graph_rows::between;
use periodic_net::MOST_VERTICES;
use std::alloc::{AllocError as NoMemory, Global};

/// The number of classes that the number of its row says.
pub fn count_from(numbers: &[i128]) -> Option<u32>
    ensures found { IfSome result (λ n. numbers.now ≡ pos n ∷ []) }
    ensures form { IfSome result IsCount }
    ensures every { (n : ℕ) → IsCount n → numbers.now ≡ pos n ∷ [] → result ≡ Some n }
{
    let [n] = numbers else {
        return None;
    };
    between(*n, 1, MOST_VERTICES as u32)
}

// The number, if it has 32 bits.
fn short(n: &i128) -> Option<u32>
    ensures found { IfSome result (λ k. n.now ≡ pos k) }
    ensures form { IfSome result IsShort }
    ensures every { (k : ℕ) → IsShort k → n.now ≡ pos k → result ≡ Some k }
{
    let value = *n;
    if value < 0 || value > u32::MAX as i128 {
        None
    } else {
        Some(value as u32)
    }
}

// The numbers, if all have 32 bits.
fn short_numbers(alloc: Global, numbers: &[i128]) -> Result<Option<Vec<u32>>, NoMemory>
    ensures found { IfOk result (λ read. IfSome read (λ sizes. numbers.now ≡ map pos sizes.items)) }
    ensures form { IfOk result (λ read. IfSome read (λ sizes. All IsShort sizes.items)) }
    ensures none { IfOk result (λ read. (sizes : List ℕ) → All IsShort sizes →
        numbers.now ≡ map pos sizes → IfNone read ⊥) }
{
    let mut sizes = Vec::with_capacity(alloc, numbers.len())?;
    let mut left = numbers;
    while let [n, others @ ..] = left {
        match short(n) {
            Some(size) => sizes.push(size)?,
            None => return Ok(None),
        }
        left = others;
    }
    Ok(Some(sizes))
}

/// The sizes that the numbers of a `shells` row say, if they are those of a class.
pub fn sizes_from(alloc: Global, class: u32, numbers: &[i128]) -> Result<Option<Vec<u32>>, NoMemory>
    ensures found { IfOk result (λ read.
        IfSome read (λ sizes. numbers.now ≡ shells_numbers class sizes.items)) }
    ensures form { IfOk result (λ read. IfSome read (λ sizes. AreSizes sizes.items)) }
    ensures none { IfOk result (λ read. (sizes : List ℕ) → AreSizes sizes →
        numbers.now ≡ shells_numbers class sizes → IfNone read ⊥) }
{
    let [first, others @ ..] = numbers else {
        return Ok(None);
    };
    if *first == class as i128 && others.len() <= 10 {
        short_numbers(alloc, others)
    } else {
        Ok(None)
    }
}
