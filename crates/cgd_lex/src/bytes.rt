// Tests of bytes, and searches that end at the end of a line.
ghost use Rattle.std.specs.Prelude.{◌≡◌, ◌+◌, ◌∷◌, ◌≤◌, ◌==◌, ◌||◌, length, position};
ghost use Rattle.std.specs.Prelude.{not, slice_index_or};
ghost use Rattle.std.specs.List.{prefix_len, list_all};
ghost use Rattle.std.specs.Char.{is_ascii_digit};
ghost use Rattle.cgd_lex.specs.Pieces.{is_blank, is_control, is_run_byte, ends_run, line_feed, quote};
ghost use Rattle.cgd_lex.specs.Tokens.{are_digits, is_sign, is_whole, first_line, is_closed, quoted_size};

pub(crate) fn is_blank_byte(b: u8) -> bool
    ensures { result ≡ is_blank b }
{
    b == b'\t' || b == b'\x0b' || b == b'\x0c' || b == b'\r' || b == b' '
}

pub(crate) fn is_control_byte(b: u8) -> bool
    ensures { result ≡ is_control b }
{
    !is_blank_byte(b) && (b < 32 || b == 127)
}

fn ends_run_byte(b: u8) -> bool
    ensures { result ≡ ends_run b }
{
    is_blank_byte(b) || b == b'#' || b == b'"' || is_control_byte(b)
}

fn run_end(bytes: &[u8]) -> Option<usize>
    ensures { result ≡ position ends_run bytes.now }
{
    bytes.iter().position(|b| ends_run_byte(*b))
}

fn line_end(bytes: &[u8]) -> Option<usize>
    ensures { result ≡ position (λ x. x == line_feed) bytes.now }
{
    bytes.iter().position(|b| *b == b'\n')
}

fn quote_end(bytes: &[u8]) -> Option<usize>
    ensures { result ≡ position (λ x. x == quote || x == line_feed) bytes.now }
{
    bytes.iter().position(|b| *b == b'"' || *b == b'\n')
}

fn digits_end(bytes: &[u8]) -> Option<usize>
    ensures { result ≡ position (λ x. not (is_ascii_digit x)) bytes.now }
{
    bytes.iter().position(|b| !b.is_ascii_digit())
}

/// How many digits the bytes begin with.
pub(crate) fn digit_count(bytes: &[u8]) -> usize
    ensures count { result ≡ prefix_len is_ascii_digit bytes.now }
    ensures within { result ≤ length bytes.now }
{
    digits_end(bytes).unwrap_or(bytes.len())
}

/// Whether no run goes on at a place, as past the last byte.
pub(crate) fn is_run_end(bytes: &[u8], at: usize) -> bool
    ensures { result ≡ ends_run (slice_index_or bytes.now at 32) }
{
    match bytes.get(at) {
        None => true,
        Some(b) => ends_run_byte(*b),
    }
}

fn only_digits(bytes: &[u8]) -> bool
    ensures { result ≡ list_all is_ascii_digit bytes.now }
{
    bytes.iter().all(|b| b.is_ascii_digit())
}

fn some_digits(bytes: &[u8]) -> bool
    ensures { result ≡ are_digits bytes.now }
{
    !bytes.is_empty() && only_digits(bytes)
}

fn is_sign_byte(b: u8) -> bool
    ensures { result ≡ is_sign b }
{
    b == b'+' || b == b'-'
}

/// Whether a run that begins with `first` is a sign or none and then one digit or more.
pub(crate) fn is_whole_run(first: u8, others: &[u8]) -> bool
    ensures { result ≡ is_whole (first ∷ others.now) }
{
    if is_sign_byte(first) {
        some_digits(others)
    } else {
        first.is_ascii_digit() && only_digits(others)
    }
}

/// How many of the bytes go on with a run.
pub(crate) fn run_length(bytes: &[u8]) -> usize
    ensures length { result ≡ prefix_len is_run_byte (first_line bytes.now) }
    ensures within { result ≤ length bytes.now }
{
    run_end(bytes).unwrap_or(bytes.len())
}

/// How many of the bytes stand before the end of the line.
pub(crate) fn line_length(bytes: &[u8]) -> usize
    ensures length { result ≡ length (first_line bytes.now) }
    ensures within { result ≤ length bytes.now }
{
    line_end(bytes).unwrap_or(bytes.len())
}

/// Whether a quoted text is closed in its line, and how many bytes it takes after its first quote.
pub(crate) fn quoted(bytes: &[u8]) -> (bool, usize)
    ensures closed { result.0 ≡ is_closed (first_line bytes.now) }
    ensures size { result.1 ≡ quoted_size (first_line bytes.now) }
    ensures within { result.1 ≤ length bytes.now }
{
    match quote_end(bytes) {
        None => (false, bytes.len()),
        Some(end) => {
            if bytes[end] == b'"' {
                (true, end + 1)
            } else {
                (false, end)
            }
        }
    }
}
