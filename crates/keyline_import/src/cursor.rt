// Reads lines from the tokens that are left.
ghost use Rattle.std.specs.Prelude.{◌≡◌, ◌≢◌, ◌∷◌, ◌<◌, ◌≤◌, ◌↔◌, [], length, MatchOption, IfSome, IfNone, IsTrue};
ghost use Rattle.std.specs.Option.{option_copied};
ghost use Rattle.cgd_lex.specs.Lines.{rest_of_line, after_line};
ghost use Rattle.cgd_lex.specs.Views.{token_view};
ghost use Rattle.cgd_lex.specs.Words.{name_in};
ghost use Rattle.keyline_import.specs.Names.{if_name, name_of_fields};
ghost use Rattle.keyline_import.specs.Lines.{lines_in};
ghost use Rattle.keyline_import.specs.Reading.{line_view};

use crate::line::{Head, LineKind};
use cgd_lex::{Lexer, Token, name_in, next_first, next_on_line};
use line_text::is_name;

/// Passes over the rest of a line.
pub fn pass_line(lexer: &mut Lexer<'_>)
    ensures after { lexer.new ≡ after_line lexer.old }
    ensures shorter { length lexer.new ≤ length lexer.old }
{
    while let Some(_) = next_on_line(lexer) {}
}

/// The start of the next line that has a token.
pub fn next_head(lexer: &mut Lexer<'_>) -> Option<Head>
    ensures lines { MatchOption result (lines_in lexer.old ≡ [])
        (λ head. lines_in lexer.old ≡ line_view head (rest_of_line lexer.new)
        ∷ lines_in (after_line lexer.new)) }
    ensures shorter { IfSome result (λ head. length lexer.new < length lexer.old) }
    ensures end { IfNone result (lexer.new ≡ []) }
{
    let first = next_first(lexer)?;
    Some(Head {
        number: first.line,
        kind: LineKind::of(&first),
    })
}

// Whether a line goes on; what is left of it is passed over.
fn goes_on(lexer: &mut Lexer<'_>) -> bool
    ensures more { IsTrue result ↔ rest_of_line lexer.old ≢ [] }
    ensures after { lexer.new ≡ after_line lexer.old }
    ensures shorter { length lexer.new ≤ length lexer.old }
{
    match next_on_line(lexer) {
        None => false,
        Some(_) => {
            pass_line(lexer);
            true
        }
    }
}

// The name that a token gives, if it gives one.
fn name_of<'a>(token: &Token<'a>) -> Option<&'a [u8]>
    ensures { option_copied result ≡ if_name (name_in (token_view token.now)) }
{
    let bytes = name_in(token)?;
    if is_name(bytes) { Some(bytes) } else { None }
}

/// The name that the rest of a line gives, if it gives one.
pub fn read_name<'a>(lexer: &mut Lexer<'a>) -> Option<&'a [u8]>
    ensures name { option_copied result ≡ name_of_fields (rest_of_line lexer.old) }
    ensures after { lexer.new ≡ after_line lexer.old }
    ensures shorter { length lexer.new ≤ length lexer.old }
{
    let token = next_on_line(lexer)?;
    if goes_on(lexer) {
        return None;
    }
    name_of(&token)
}
