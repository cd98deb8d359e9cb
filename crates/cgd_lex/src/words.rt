// Names, keywords and numbers, as tokens give them.
ghost use Rattle.std.specs.Prelude.{◌≡◌, ◌≤◌, ◌<◌, ◌^◌, map, fold, min, IfSome};
ghost use Rattle.std.specs.Option.{option_copied};
ghost use Rattle.std.specs.Char.{to_ascii_lowercase};
ghost use Rattle.cgd_lex.specs.Views.{token_view};
ghost use Rattle.cgd_lex.specs.Words.{inner, unquoted, name_in, is_keyword, whole_value, magnitude_up_to, number_up_to, next_capped, IsUpTo};

use crate::{Token, TokenKind};

// A text without its first and last byte.
fn inner(text: &[u8]) -> &[u8]
    ensures { result.now ≡ inner text.now }
{
    match text {
        [_, between @ .., _] => between,
        _ => &[],
    }
}

/// The bytes of a token, without the quotes round them.
pub fn unquoted<'a>(token: &Token<'a>) -> &'a [u8]
    ensures { result.now ≡ unquoted (token_view token.now) }
{
    match token.kind {
        TokenKind::Quoted => inner(token.text),
        _ => token.text,
    }
}

/// The name that a token gives: any token but a bad one does, and quotes are no part of it.
pub fn name_in<'a>(token: &Token<'a>) -> Option<&'a [u8]>
    ensures { option_copied result ≡ name_in (token_view token.now) }
{
    match token.kind {
        TokenKind::Bad => None,
        _ => Some(unquoted(token)),
    }
}

/// Whether the word is this keyword, in any case of its letters. Keywords are written small.
pub fn is_keyword(keyword: &'static str, word: &[u8]) -> bool
    requires { map to_ascii_lowercase keyword.now ≡ keyword.now }
    ensures { result ≡ is_keyword keyword.now word.now }
{
    word.eq_ignore_ascii_case(keyword.as_bytes())
}

fn next_value(cap: u32, value: u32, digit: u8) -> u32
    requires { cap ≤ 2 ^ 16 }
    ensures { result ≡ next_capped cap value digit }
{
    (value.min(cap) * 10 + digit.saturating_sub(b'0') as u32).min(cap)
}

fn in_turn(cap: u32, digits: &[u8]) -> u32
    requires { cap ≤ 2 ^ 16 }
    ensures { result ≡ fold (next_capped cap) 0 digits.now }
{
    digits
        .iter()
        .fold(0, |value, digit| next_value(cap, value, *digit))
}

// The value of the digits, if it is at most the cap, and otherwise the cap.
fn capped_value(cap: u32, digits: &[u8]) -> u32
    requires { cap ≤ 2 ^ 16 }
    ensures { result ≡ min cap (whole_value digits.now) }
{
    in_turn(cap, digits)
}

fn magnitude(digits: &[u8], most: u32) -> Option<u32>
    requires { most < 2 ^ 16 }
    ensures value { result ≡ magnitude_up_to most digits.now }
    ensures small { IfSome result (λ n. n ≤ most) }
{
    let value = capped_value(most + 1, digits);
    if value == most + 1 { None } else { Some(value) }
}

/// The value of a sign or none and then digits, of which there may be any number, if it is from
/// -`most` to `most`.
pub fn number_up_to(text: &[u8], most: u32) -> Option<i32>
    requires { most < 2 ^ 16 }
    ensures value { result ≡ number_up_to most text.now }
    ensures small { IfSome result (IsUpTo most) }
{
    match text {
        [] => None,
        [b'-', digits @ ..] => magnitude(digits, most).map(|n| -(n as i32)),
        [b'+', digits @ ..] => magnitude(digits, most).map(|n| n as i32),
        _ => magnitude(text, most).map(|n| n as i32),
    }
}
