// What a text is made of.

/// What a token is.
#[derive(Clone, Copy, Debug, PartialEq, Eq)]
pub enum TokenKind {
    /// A run of bytes up to a blank, a quote, a `#` or a control byte, which is no Whole.
    Word,
    /// An optional sign, and then one digit or more.
    Whole,
    /// From a quote to the next one, in one line.
    Quoted,
    /// The end of a line.
    Newline,
    /// A control byte, or a quote without its partner, up to the end of the line.
    Bad,
}

/// A token of a text, and where it stands.
#[derive(Clone, Copy, Debug, PartialEq, Eq)]
pub struct Token<'a> {
    pub kind: TokenKind,
    /// The slice of the source at `start`, quotes included.
    pub text: &'a [u8],
    /// How many bytes stand before it.
    pub start: usize,
    /// Numbered from 1; a Newline has the number of the line that it ends.
    pub line: u32,
}
