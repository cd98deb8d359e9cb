// The tokens of a text, line by line.
ghost use Rattle.std.specs.Prelude.{◌≡◌, ◌∷◌, ◌≤◌, ◌<◌, [], length, MatchOption, IfSome, IfNone};
ghost use Rattle.cgd_lex.specs.Lines.{is_newline, filled_lines, rest_of_line, after_line};
ghost use Rattle.cgd_lex.specs.Views.{token_view};

use crate::{Lexer, Token, TokenKind};

fn is_newline(kind: TokenKind) -> bool
    ensures { result ≡ is_newline kind }
{
    match kind {
        TokenKind::Newline => true,
        _ => false,
    }
}

/// The first token of the next line that has one.
#[inline(always)]
pub fn next_first<'a>(lexer: &mut Lexer<'a>) -> Option<Token<'a>>
    ensures lines { MatchOption result (filled_lines lexer.old ≡ [])
        (λ first. filled_lines lexer.old ≡ (token_view first ∷ rest_of_line lexer.new)
        ∷ filled_lines (after_line lexer.new)) }
    ensures shorter { IfSome result (λ first. length lexer.new < length lexer.old) }
    ensures end { IfNone result (lexer.new ≡ []) }
{
    while let Some(token) = lexer.next() {
        if !is_newline(token.kind) {
            return Some(token);
        }
    }
    None
}

/// The next token of a line. At its end its Newline is passed over.
#[inline(always)]
pub fn next_on_line<'a>(lexer: &mut Lexer<'a>) -> Option<Token<'a>>
    ensures tokens { MatchOption result (rest_of_line lexer.old ≡ [])
        (λ token. rest_of_line lexer.old ≡ token_view token ∷ rest_of_line lexer.new) }
    ensures after { MatchOption result (after_line lexer.old ≡ lexer.new)
        (λ token. after_line lexer.old ≡ after_line lexer.new) }
    ensures shorter { IfSome result (λ token. length lexer.new < length lexer.old) }
    ensures no_longer { length lexer.new ≤ length lexer.old }
{
    let token = lexer.next()?;
    if is_newline(token.kind) {
        return None;
    }
    Some(token)
}
