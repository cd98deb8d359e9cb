// What the first token makes of a line.
ghost use Rattle.std.specs.Prelude.{◌≡◌};
ghost use Rattle.keyline_import.specs.Lines.{kind_of_word, kind_of, is_end, begins_item};

use cgd_lex::{Token, TokenKind, is_keyword};

/// What the first token makes of a line.
#[derive(Clone, Copy, PartialEq, Eq)]
pub enum LineKind {
    Key,
    Id,
    End,
    /// It is passed over.
    Other,
}

/// The start of a line: its number, counted from 1, and its kind.
#[derive(Clone, Copy)]
pub struct Head {
    pub number: u32,
    pub kind: LineKind,
}

fn kind_of_word(word: &[u8]) -> LineKind
    ensures { result ≡ kind_of_word word.now }
{
    if is_keyword("key", word) {
        LineKind::Key
    } else if is_keyword("id", word) {
        LineKind::Id
    } else if is_keyword("end", word) {
        LineKind::End
    } else {
        LineKind::Other
    }
}

impl LineKind {
    /// The kind of a line that begins with this token.
    pub fn of(first: &Token<'_>) -> LineKind
        ensures { result ≡ kind_of first.now.kind first.now.text.now }
    {
        match first.kind {
            TokenKind::Word => kind_of_word(first.text),
            _ => LineKind::Other,
        }
    }

    /// Whether it ends an item.
    pub fn is_end(self) -> bool
        ensures { result ≡ is_end self }
    {
        matches!(self, LineKind::End)
    }

    /// Whether it begins an item, where it stands outside one.
    pub fn begins_item(self) -> bool
        ensures { result ≡ begins_item self }
    {
        matches!(self, LineKind::Key | LineKind::Id)
    }
}
