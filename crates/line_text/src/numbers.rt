// Reads a number in decimal, in its one spelling.
ghost use Rattle.std.specs.Prelude.{ℤ, ◌≡◌, Some, IfSome};
ghost use Rattle.std.specs.Fmt.{signed_decimal};
ghost use Rattle.std.specs.Str.{bytes_eq};
ghost use Rattle.line_text.specs.Numbers.{IsWide};

use itoa::Buffer;

fn parsed_number(bytes: &[u8]) -> Option<i128>
    ensures { (z : ℤ) → IsWide z → bytes.now ≡ signed_decimal z → result ≡ Some z }
{
    match str::from_utf8(bytes) {
        Ok(text) => text.parse::<i128>().ok(),
        Err(_) => None,
    }
}

fn spells(bytes: &[u8], n: i128) -> bool
    ensures { result ≡ bytes_eq bytes.now (signed_decimal n) }
{
    let mut buffer = Buffer::new();
    match i64::try_from(n) {
        Ok(short) => bytes == buffer.format(short).as_bytes(),
        Err(_) => bytes == buffer.format(n).as_bytes(),
    }
}

/// The number that these bytes spell in decimal, without needless signs and zeros.
pub fn read_number(bytes: &[u8]) -> Option<i128>
    ensures spelling { IfSome result (λ n. bytes.now ≡ signed_decimal n) }
    ensures wide { IfSome result IsWide }
    ensures every { (z : ℤ) → IsWide z → bytes.now ≡ signed_decimal z → result ≡ Some z }
{
    match parsed_number(bytes) {
        Some(n) => { if spells(bytes, n) { Some(n) } else { None } }
        None => None,
    }
}
