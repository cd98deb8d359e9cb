// One cursor over the bytes of a text.
ghost use Rattle.std.specs.Prelude.{ℕ, List, ◌≡◌, ◌≤◌, ◌∷◌, [], length, All, IfSome, IfNone};
ghost use Rattle.cgd_lex.specs.Pieces.{Piece, IsCut, cut_of};
ghost use Rattle.cgd_lex.specs.Tokens.{tokens_of};
ghost use Rattle.cgd_lex.specs.Forms.{HasItsForm};
ghost use Rattle.cgd_lex.specs.Places.{IsSliceOf, IsOnLine, AreInOrder};
ghost use Rattle.cgd_lex.specs.Limits.{longest_text};
ghost use Rattle.cgd_lex.specs.Views.{token_view};

use crate::part::first_part;
use crate::token::Token;
use std::marker::Model;

/// Seen as the tokens that are left.
#[derive(Debug, Drop)]
pub struct Lexer<'a> {
    rest: &'a [u8],
    at: usize,
    line: u32,
}

impl<'a> Model for Lexer<'a> {
    ghost use Rattle.std.specs.Prelude.{List, length, ◌+◌, ◌≤◌};
    ghost use Rattle.cgd_lex.specs.Limits.{longest_text};
    ghost use Rattle.cgd_lex.specs.Tokens.{TokenView, tokens_from};

    ghost Value = { List TokenView };

    ghost view = { λ l. tokens_from l.at l.line l.rest.now };

    ghost invariant = { λ l. (l.at + length l.rest.now ≤ longest_text) × (l.line ≤ l.at + 1) };
}

impl<'a> Lexer<'a> {
    /// Begins at the start of a text. It takes no memory.
    pub fn new(text: &'a [u8]) -> Lexer<'a>
        requires { length text.now ≤ longest_text }

        // The tokens of the definition: slices of the text, in order, each on its line.
        ensures tokens { result ≡ tokens_of text.now }
        ensures few { length result ≤ length text.now }
        ensures slices { All (IsSliceOf text.now) result }
        ensures order { AreInOrder 0 result }
        ensures forms { All HasItsForm result }
        ensures lines { All (IsOnLine text.now) result }

        // The tokens of a line come from its cut: each line has one, and only one.
        ensures cut { (line : List ℕ) → IsCut (cut_of line) line }
        ensures only_cut { (line : List ℕ) (pieces : List Piece) →
            IsCut pieces line → pieces ≡ cut_of line }
    {
        Lexer {
            rest: text,
            at: 0,
            line: 1,
        }
    }

    // Passes over a space, if one is next.
    #[inline(always)]
    fn skip_space(&mut self)
        ensures { self.new ≡ self.old }
    {
        if let [b' ', rest @ ..] = self.rest {
            self.rest = rest;
            self.at += 1;
        }
    }

    /// The next token, and None exactly at the end. It takes no memory.
    #[inline(always)]
    pub fn next(&mut self) -> Option<Token<'a>>
        ensures token { IfSome result (λ token. self.old ≡ token_view token ∷ self.new) }
        ensures end { IfNone result ((self.old ≡ []) × (self.new ≡ [])) }
    {
        self.skip_space();
        while let Some(part) = first_part(self.rest) {
            let start = self.at;
            let line = self.line;
            self.rest = part.rest;
            self.at += part.text.len();
            if part.ends_line {
                self.line += 1;
            }
            if let Some(kind) = part.kind {
                return Some(Token {
                    kind,
                    text: part.text,
                    start,
                    line,
                });
            }
        }
        None
    }
}
