// Reads lines from the tokens that are left.
ghost use Rattle.std.specs.Prelude.{◌≡◌, ◌∷◌, ◌<◌, ◌≤◌, ◌+◌, [], length, fold, MatchOption, IfSome, IfNone, if◌then◌else◌};
ghost use Rattle.cgd_lex.specs.Limits.{longest_text};
ghost use Rattle.cgd_lex.specs.Lines.{rest_of_line, after_line};
ghost use Rattle.cgd_lex.specs.Views.{token_view};
ghost use Rattle.cgd_read.specs.Lines.{token_lines, line_with, is_bare};
ghost use Rattle.cgd_read.specs.Views.{fields_view, line_view};
ghost use Rattle.cgd_read.specs.Reading.{no_fields, with_field, IsSmallFields, IsFlat};

use crate::line::{Fields, Line, LineKind};
use cgd_lex::{Lexer, Token, next_first, next_on_line};

// The rest of a line, after these fields.
#[inline(always)]
fn read_fields<'a>(lexer: &mut Lexer<'a>, start: Fields<'a>) -> Fields<'a>
    requires room { start.size + length lexer.old ≤ longest_text }
    requires small { IsSmallFields (fields_view start) }
    ensures fields { fields_view result ≡
        fold with_field (fields_view start.entry) (rest_of_line lexer.old) }
    ensures after { lexer.new ≡ after_line lexer.old }
    ensures shorter { length lexer.new ≤ length lexer.old }
    ensures small { IsSmallFields (fields_view result) }
{
    let mut fields = start;
    while let Some(token) = next_on_line(lexer) {
        fields.add(&token);
    }
    fields
}

// The fields of a line that has only its first token yet.
#[inline(always)]
fn first_field<'a>(kind: LineKind, first: &Token<'a>) -> Fields<'a>
    ensures fields { fields_view result ≡
        (if is_bare kind then with_field no_fields (token_view first.now) else no_fields) }
    ensures small { IsSmallFields (fields_view result) }
    ensures size { result.size ≤ 1 }
{
    match kind {
        LineKind::Bare => {
            let mut fields = Fields::none();
            fields.add(first);
            fields
        }
        _ => Fields::none(),
    }
}

#[inline(always)]
fn read_line<'a>(lexer: &mut Lexer<'a>, first: &Token<'a>) -> Line<'a>
    requires room { length lexer.old < longest_text }
    ensures line { line_view result ≡ line_with (token_view first.now) (rest_of_line lexer.old) }
    ensures after { lexer.new ≡ after_line lexer.old }
    ensures shorter { length lexer.new ≤ length lexer.old }
    ensures small { IsSmallFields (fields_view result.fields) }
    ensures flat { IsFlat (fields_view result.fields) }
{
    let kind = LineKind::of(first);
    Line {
        number: first.line,
        kind,
        first: first.text,
        fields: read_fields(lexer, first_field(kind, first)),
    }
}

/// The next line that has a token, up to its end.
#[inline(always)]
pub fn next_line<'a>(lexer: &mut Lexer<'a>) -> Option<Line<'a>>
    requires { length lexer.old ≤ longest_text }
    // The first of the lines that are left, or none if none is left.
    ensures lines { MatchOption result (token_lines lexer.old ≡ [])
        (λ line. token_lines lexer.old ≡ line_view line ∷ token_lines lexer.new) }
    ensures shorter { IfSome result (λ line. length lexer.new < length lexer.old) }
    // Then all tokens are passed.
    ensures end { IfNone result (lexer.new ≡ []) }
    // What the fields keep is within the limits, and without dimension 3 has no third part.
    ensures small { IfSome result (λ line. IsSmallFields (fields_view line.fields)) }
    ensures flat { IfSome result (λ line. IsFlat (fields_view line.fields)) }
{
    let first = next_first(lexer)?;
    Some(read_line(lexer, &first))
}
