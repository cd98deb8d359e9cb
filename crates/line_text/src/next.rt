// Lines of a form that is asked for.
ghost use Rattle.std.specs.Prelude.{ℕ, ℤ, List, ◌≡◌, ◌++◌, ◌∷◌, [], All, IfOk, Ok, true, IfSome, MatchOption, ◌<◌, ◌≤◌, length};
ghost use Rattle.line_text.specs.Numbers.{IsWide, row_text};
ghost use Rattle.line_text.specs.Lines.{HasNo, IsAt};

use crate::lines::Lines;
use crate::rows::{inner, read_row};
use std::alloc::AllocError as NoMemory;

impl<'a> Lines<'a> {
    /// Whether the next line is a word and then so many numbers at most; these take the place of
    /// those that were held.
    pub fn next_row(
        &mut self,
        word: &[u8],
        most: usize,
        numbers: &mut Vec<i128>,
    ) -> Result<bool, NoMemory>
        requires { HasNo 10 word.now }
        // The row was passed, and it is the one that the word and the numbers spell.
        ensures place { (text : List ℕ) (rows : List (List ℕ)) → IsAt text rows self.old →
            result ≡ Ok true →
            IsAt text (rows ++ row_text word.now numbers.new.items ∷ []) self.new }
        ensures wide { result ≡ Ok true → All IsWide numbers.new.items }
        ensures few { result ≡ Ok true → length numbers.new.items ≤ most }
        ensures shorter { result ≡ Ok true → length self.new.rest < length self.old.rest }
        // Whatever row of this word stands next is found.
        ensures every { IfOk result (λ read. (zs : List ℤ) (rest : List ℕ) → All IsWide zs →
            length zs ≤ most → self.old.rest ≡ row_text word.now zs ++ 10 ∷ rest →
            (read ≡ true) × (numbers.new.items ≡ zs)) }
    {
        match self.next() {
            Some(line) => read_row(line, word, most, numbers),
            None => Ok(false),
        }
    }

    /// What stands between two words on the next line, where it begins with the one and then ends
    /// with the other.
    pub fn next_inner(&mut self, first: &[u8], last: &[u8]) -> Option<&'a [u8]>
        ensures place { (text : List ℕ) (rows : List (List ℕ)) → IsAt text rows self.old →
            IfSome result (λ x.
            IsAt text (rows ++ (first.now ++ (x.now ++ last.now)) ∷ []) self.new) }
        ensures line { IfSome result (λ x.
            self.old.rest ≡ (first.now ++ (x.now ++ last.now)) ++ 10 ∷ self.new.rest) }
        ensures every { (x rest : List ℕ) → HasNo 10 (first.now ++ (x ++ last.now)) →
            self.old.rest ≡ (first.now ++ (x ++ last.now)) ++ 10 ∷ rest →
            MatchOption result ⊥ (λ f. f.now ≡ x) }
    {
        match self.next() {
            Some(line) => inner(line, first, last),
            None => None,
        }
    }

    /// Whether the next line is this one.
    pub fn next_is(&mut self, row: &[u8]) -> bool
        requires { HasNo 10 row.now }
        ensures place { (text : List ℕ) (rows : List (List ℕ)) → IsAt text rows self.old →
            result ≡ true → IsAt text (rows ++ row.now ∷ []) self.new }
        ensures line { result ≡ true → self.old.rest ≡ row.now ++ 10 ∷ self.new.rest }
        ensures every { (rest : List ℕ) → self.old.rest ≡ row.now ++ 10 ∷ rest → result ≡ true }
    {
        match self.next() {
            Some(line) => line == row,
            None => false,
        }
    }
}
