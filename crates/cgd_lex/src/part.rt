// The first part of a text: a token, a blank or a comment.
ghost use Rattle.std.specs.Prelude.{◌≡◌, ◌≢◌, ◌+◌, ◌∷◌, ◌≤◌, [], length, MatchOption, IfSome, Some};
ghost use Rattle.cgd_lex.specs.Pieces.{first_piece, run_bytes, other_bytes, line_feed};
ghost use Rattle.cgd_lex.specs.Tokens.{kind_of_piece, kind_of_run, first_line};
ghost use Rattle.cgd_lex.specs.Views.{IsPartOf};

use crate::bytes::{
    digit_count, is_blank_byte, is_control_byte, is_run_end, is_whole_run, line_length, quoted,
    run_length,
};
use crate::token::TokenKind;

/// The first part, and the text after it.
#[derive(Drop)]
pub(crate) struct Part<'a> {
    pub kind: Option<TokenKind>,
    pub ends_line: bool,
    pub text: &'a [u8],
    pub rest: &'a [u8],
}

// The kind of the run that begins with `first`, and how many bytes it takes after it.
fn measure_run(first: u8, others: &[u8]) -> (TokenKind, usize)
    ensures kind { result.0 ≡ kind_of_run (first ∷ run_bytes (first_line others.now)) }
    ensures size { result.1 ≡ length (run_bytes (first_line others.now)) }
    ensures within { result.1 ≤ length others.now }
{
    let size = run_length(others);
    if is_whole_run(first, &others[..size]) {
        (TokenKind::Whole, size)
    } else {
        (TokenKind::Word, size)
    }
}

// How many bytes a run takes after its first, if it has digits alone. Most runs do, and then no
// byte is looked at twice.
fn digits_after(first: u8, others: &[u8]) -> Option<usize>
    ensures kind { IfSome result (λ size.
        kind_of_piece (first_piece first (first_line others.now)) ≡ Some TokenKind.Whole) }
    ensures size { IfSome result (λ size.
        size ≡ length (other_bytes (first_piece first (first_line others.now)))) }
    ensures within { IfSome result (λ size. size ≤ length others.now) }
{
    if first.is_ascii_digit() {
        let size = digit_count(others);
        if is_run_end(others, size) {
            return Some(size);
        }
    }
    None
}

// The kind of the token that begins with `first`, if there is one, and how many bytes the part
// takes after it.
fn measure(first: u8, others: &[u8]) -> (Option<TokenKind>, usize)
    requires { first ≢ line_feed }
    ensures kind { result.0 ≡ kind_of_piece (first_piece first (first_line others.now)) }
    ensures size { result.1 ≡ length (other_bytes (first_piece first (first_line others.now))) }
    ensures within { result.1 ≤ length others.now }
{
    if let Some(size) = digits_after(first, others) {
        return (Some(TokenKind::Whole), size);
    }
    if is_blank_byte(first) {
        return (None, 0);
    }
    if first == b'#' {
        return (None, line_length(others));
    }
    if first == b'"' {
        let (closed, size) = quoted(others);
        return if closed {
            (Some(TokenKind::Quoted), size)
        } else {
            (Some(TokenKind::Bad), size)
        };
    }
    if is_control_byte(first) {
        return (Some(TokenKind::Bad), 0);
    }
    let (kind, size) = measure_run(first, others);
    (Some(kind), size)
}

fn part_in_line<'a>(text: &'a [u8], first: u8, others: &'a [u8]) -> Part<'a>
    requires whole { text.now ≡ first ∷ others.now }
    requires other { first ≢ line_feed }
    ensures part { IsPartOf text.now result }
    ensures size { length text.now ≡ length result.text.now + length result.rest.now }
    ensures some { 1 ≤ length result.text.now }
{
    let (kind, size) = measure(first, others);
    Part {
        kind,
        ends_line: false,
        text: &text[..size + 1],
        rest: &others[size..],
    }
}

/// The first part of a text, if the text has any byte.
pub(crate) fn first_part<'a>(text: &'a [u8]) -> Option<Part<'a>>
    ensures part { MatchOption result (text.now ≡ []) (IsPartOf text.now) }
    ensures size { IfSome result (λ part.
        length text.now ≡ length part.text.now + length part.rest.now) }
    ensures some { IfSome result (λ part. 1 ≤ length part.text.now) }
{
    match text {
        [] => None,
        [b'\n', rest @ ..] => Some(Part {
            kind: Some(TokenKind::Newline),
            ends_line: true,
            text: &text[..1],
            rest,
        }),
        [first, others @ ..] => Some(part_in_line(text, *first, others)),
    }
}
