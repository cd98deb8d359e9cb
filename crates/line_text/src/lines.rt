// One cursor over the lines of a text.
ghost use Rattle.std.specs.Prelude.{ℕ, List, ◌≡◌, ◌==◌, [], ◌∷◌, ◌++◌, ◌+◌, ◌<◌, ◌≤◌, length, IfSome, IfNone, MatchOption};
ghost use Rattle.line_text.specs.Lines.{longest_lines, last_line, HasNo, IsAt};

use crate::cuts::cut;
use std::marker::Model;

/// The lines of a text that are left. Contracts see the bytes that are left, and the number of the
/// next line.
#[derive(Debug, Drop)]
pub struct Lines<'a> {
    rest: &'a [u8],
    number: u32,
}

impl<'a> Model for Lines<'a> {
    ghost use Rattle.std.specs.Prelude.{length, ◌+◌, ◌≤◌};
    ghost use Rattle.line_text.specs.Lines.{Place, last_line};

    ghost Value = { Place };

    ghost view = { λ l. record { rest = l.rest.now; number = l.number } };

    ghost invariant = { λ l. l.number + length l.rest.now ≤ last_line };
}

impl<'a> Lines<'a> {
    /// All lines of a text.
    pub fn new(text: &'a [u8]) -> Lines<'a>
        requires { length text.now ≤ longest_lines }
        ensures rest { result.rest ≡ text.now }
        ensures number { result.number ≡ 1 }
    {
        Lines {
            rest: text,
            number: 1,
        }
    }

    /// The number of the next line.
    pub fn number(&self) -> u32
        ensures number { result ≡ self.now.number }
        ensures within { result ≤ last_line }
    {
        self.number
    }

    /// Whether no byte is left.
    pub fn is_empty(&self) -> bool
        ensures { result ≡ (length self.now.rest == 0) }
    {
        self.rest.is_empty()
    }

    /// The next line without its line feed. The cursor stays if none is left, or if the last
    /// one has no line feed.
    pub fn next(&mut self) -> Option<&'a [u8]>
        // The next line, without its line feed, and its number.
        ensures line { IfSome result (λ line. self.old.rest ≡ line.now ++ 10 ∷ self.new.rest) }
        ensures number { IfSome result (λ line. self.new.number ≡ self.old.number + 1) }
        // The rows that were passed are one more.
        ensures place { (text : List ℕ) (rows : List (List ℕ)) → IsAt text rows self.old →
            IfSome result (λ line. IsAt text (rows ++ line.now ∷ []) self.new) }
        // Less is left; and if there is no whole line nothing is passed.
        ensures shorter { IfSome result (λ line. length self.new.rest < length self.old.rest) }
        ensures still { IfNone result (self.new ≡ self.old) }
        // Whatever line stands next is found.
        ensures every { (line rest : List ℕ) → HasNo 10 line → self.old.rest ≡ line ++ 10 ∷ rest →
            MatchOption result ⊥ (λ found. (found.now ≡ line) × (self.new.rest ≡ rest)) }
    {
        match cut(self.rest, b'\n') {
            (line, [_, rest @ ..]) => {
                self.rest = rest;
                self.number += 1;
                Some(line)
            }
            _ => None,
        }
    }
}
