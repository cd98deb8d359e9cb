// Lines and what they say.
ghost use Rattle.std.specs.Prelude.{◌≡◌, ◌||◌, ◌<◌, ◌+◌, map, Some, None, IfSome, is_none};
ghost use Rattle.std.specs.Option.{option_copied};
ghost use Rattle.cgd_lex.specs.Views.{token_view};
ghost use Rattle.cgd_lex.specs.Words.{is_quoted};
ghost use Rattle.cgd_read.specs.Lines.{is_strange, is_name_word, is_edges_word, kind_of_word, kind_of, part_or_zero};
ghost use Rattle.cgd_read.specs.Spelling.{IsSmallPart};
ghost use Rattle.std.specs.Char.{to_ascii_lowercase};
ghost use Rattle.cgd_lex.specs.Limits.{longest_text};
ghost use Rattle.cgd_read.specs.Views.{fields_view};
ghost use Rattle.cgd_read.specs.Reading.{no_fields, with_field, with_part, IsSmallFields};

use crate::values::part;
use cgd_lex::{Token, TokenKind, is_keyword, name_in};

/// What the first token makes of a line.
#[derive(Clone, Copy, PartialEq, Eq)]
pub enum LineKind {
    Opening,
    Name,
    Edges,
    End,
    /// A word that is no keyword.
    Unknown,
    /// It begins with a field.
    Bare,
    /// It begins with a bad token.
    Broken,
}

/// The fields of a line: its tokens after the keyword, or all where it begins with none.
#[derive(Clone, Copy)]
pub struct Fields<'a> {
    pub size: u32,
    /// The name on a name line.
    pub name: Option<&'a [u8]>,
    /// Whether there is a Word or a Bad.
    pub has_strange: bool,
    /// Whether there is a Quoted after the second place.
    pub has_late_quote: bool,
    /// Whether a part of the shift is out of the limits.
    pub has_far_part: bool,
    pub u: &'a [u8],
    pub v: &'a [u8],
    pub x: i32,
    pub y: i32,
    pub z: i32,
}

/// A line that has a token, with its number, counted from 1.
#[derive(Clone, Copy)]
pub struct Line<'a> {
    pub number: u32,
    pub kind: LineKind,
    /// The first token.
    pub first: &'a [u8],
    pub fields: Fields<'a>,
}

fn is_strange(kind: TokenKind) -> bool
    ensures { result ≡ is_strange kind }
{
    match kind {
        TokenKind::Word | TokenKind::Bad => true,
        _ => false,
    }
}

fn is_quoted(kind: TokenKind) -> bool
    ensures { result ≡ is_quoted kind }
{
    match kind {
        TokenKind::Quoted => true,
        _ => false,
    }
}

fn is_name_word(word: &[u8]) -> bool
    ensures { result ≡ is_name_word word.now }
{
    is_keyword("name", word) || is_keyword("id", word)
}

fn is_edges_word(word: &[u8]) -> bool
    ensures { result ≡ is_edges_word word.now }
{
    is_keyword("edges", word)
        || (is_keyword("edge", word) || (is_keyword("bonds", word) || is_keyword("bond", word)))
}

fn kind_of_word(word: &[u8]) -> LineKind
    ensures { result ≡ kind_of_word word.now }
{
    if is_keyword("periodic_graph", word) {
        LineKind::Opening
    } else if is_name_word(word) {
        LineKind::Name
    } else if is_edges_word(word) {
        LineKind::Edges
    } else if is_keyword("end", word) {
        LineKind::End
    } else {
        LineKind::Unknown
    }
}

impl LineKind {
    /// The kind of a line that begins with this token.
    #[inline(always)]
    pub fn of(first: &Token<'_>) -> LineKind
        ensures { result ≡ kind_of first.now.kind first.now.text.now }
    {
        match first.kind {
            TokenKind::Word => kind_of_word(first.text),
            TokenKind::Whole | TokenKind::Quoted => LineKind::Bare,
            TokenKind::Newline | TokenKind::Bad => LineKind::Broken,
        }
    }
}

fn or_zero(part: Option<i32>) -> i32
    requires { IfSome part IsSmallPart }
    ensures value { result ≡ part_or_zero part }
    ensures small { IsSmallPart result }
{
    part.unwrap_or(0)
}

impl<'a> Fields<'a> {
    pub fn none() -> Self
        ensures fields { fields_view result ≡ no_fields }
        ensures small { IsSmallFields (fields_view result) }
    {
        Fields {
            size: 0,
            name: None,
            has_strange: false,
            has_late_quote: false,
            has_far_part: false,
            u: &[],
            v: &[],
            x: 0,
            y: 0,
            z: 0,
        }
    }

    fn has_strange_with(&self, kind: TokenKind) -> bool
        ensures { result ≡ (self.now.has_strange || is_strange kind) }
    {
        self.has_strange || is_strange(kind)
    }

    fn has_late_quote_with(&self, kind: TokenKind) -> bool
        ensures { result ≡ (self.now.has_late_quote || is_quoted kind) }
    {
        self.has_late_quote || is_quoted(kind)
    }

    fn has_far_part_with(&self, part: Option<i32>) -> bool
        ensures { result ≡ (self.now.has_far_part || is_none part) }
    {
        self.has_far_part || part.is_none()
    }

    // Adds a part of a shift, or a field after them.
    #[inline(always)]
    fn add_part(&mut self, token: &Token<'a>)
        requires { IsSmallFields (fields_view self.old) }
        ensures fields { fields_view self.new ≡
            with_part (fields_view self.old) (token_view token.now) }
        ensures small { IsSmallFields (fields_view self.new) }
    {
        let part = part(token.text);
        let number = or_zero(part);
        self.name = None;
        self.has_late_quote = self.has_late_quote_with(token.kind);
        self.has_far_part = self.has_far_part_with(part);
        match self.size {
            2 => self.x = number,
            3 => self.y = number,
            4 => self.z = number,
            _ => {}
        }
    }

    /// Adds a field. From the third on it is also read as a number, in any line.
    #[inline(always)]
    pub fn add(&mut self, token: &Token<'a>)
        requires room { self.old.size < longest_text }
        requires small { IsSmallFields (fields_view self.old) }
        ensures fields { fields_view self.new ≡
            with_field (fields_view self.old) (token_view token.now) }
        ensures small { IsSmallFields (fields_view self.new) }
        ensures size { self.new.size ≡ self.old.size + 1 }
    {
        self.has_strange = self.has_strange_with(token.kind);
        match self.size {
            0 => {
                self.name = name_in(token);
                self.u = token.text;
            }
            1 => {
                self.name = None;
                self.v = token.text;
            }
            _ => self.add_part(token),
        }
        self.size += 1;
    }
}
