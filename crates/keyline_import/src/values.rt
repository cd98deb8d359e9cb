// The numbers of key lines.
ghost use Rattle.std.specs.Prelude.{◌≡◌};
ghost use Rattle.cgd_lex.specs.Views.{token_view};
ghost use Rattle.keyline_import.specs.Values.{number_of};

use cgd_lex::{Token, TokenKind, number_up_to};
use periodic_net::MOST_VERTICES;

/// The number that a token is, if it is a whole number from -512 to 512.
pub fn number_of(token: &Token<'_>) -> Option<i32>
    ensures { result ≡ number_of (token_view token.now) }
{
    match token.kind {
        TokenKind::Whole => number_up_to(token.text, MOST_VERTICES as u32),
        _ => None,
    }
}
