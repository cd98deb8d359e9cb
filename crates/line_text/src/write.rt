// Writes numbers in decimal, alone, in lists, and as rows.
ghost use Rattle.std.specs.Prelude.{◌≡◌, ◌++◌, ◌∷◌, [], OnOk};
ghost use Rattle.std.specs.Fmt.{decimal, signed_decimal};
ghost use Rattle.line_text.specs.Numbers.{field_text, list_text, numbers_text, row_text};
ghost use Rattle.line_text.specs.Lines.{rows_text};

use itoa::Buffer;
use std::alloc::AllocError as NoMemory;

/// A number in decimal. Digits of one that fits 64 bits take no wide divisions.
pub fn push_number(text: &mut Vec<u8>, n: i128) -> Result<(), NoMemory>
    ensures { OnOk result (text.new.items ≡ text.old.items ++ signed_decimal n) }
{
    let mut buffer = Buffer::new();
    match i64::try_from(n) {
        Ok(short) => text.extend_from_slice(buffer.format(short).as_bytes()),
        Err(_) => text.extend_from_slice(buffer.format(n).as_bytes()),
    }
}

/// A number without a sign, in decimal.
pub fn push_count(text: &mut Vec<u8>, n: u64) -> Result<(), NoMemory>
    ensures { OnOk result (text.new.items ≡ text.old.items ++ decimal n) }
{
    let mut buffer = Buffer::new();
    text.extend_from_slice(buffer.format(n).as_bytes())
}

/// A number after its label.
pub fn push_field(text: &mut Vec<u8>, label: &[u8], n: u64) -> Result<(), NoMemory>
    ensures { OnOk result (text.new.items ≡ text.old.items ++ field_text label.now n) }
{
    text.extend_from_slice(label)?;
    push_count(text, n)
}

/// Each number after a blank.
pub fn push_numbers(text: &mut Vec<u8>, numbers: &[i128]) -> Result<(), NoMemory>
    ensures { OnOk result (text.new.items ≡ text.old.items ++ numbers_text numbers.now) }
{
    let mut left = numbers;
    while let [x, others @ ..] = left {
        text.push(b' ')?;
        push_number(text, *x)?;
        left = others;
    }
    Ok(())
}

/// Numbers with blanks between them.
pub fn push_wide_list(text: &mut Vec<u8>, numbers: &[i128]) -> Result<(), NoMemory>
    ensures { OnOk result (text.new.items ≡ text.old.items ++ list_text numbers.now) }
{
    match numbers {
        [] => Ok(()),
        [x, others @ ..] => {
            push_number(text, *x)?;
            push_numbers(text, others)
        }
    }
}

/// A word, and each number after a blank, as a line.
pub fn push_row(text: &mut Vec<u8>, word: &[u8], numbers: &[i128]) -> Result<(), NoMemory>
    ensures { OnOk result
        (text.new.items ≡ text.old.items ++ rows_text (row_text word.now numbers.now ∷ [])) }
{
    text.extend_from_slice(word)?;
    push_numbers(text, numbers)?;
    text.extend_from_slice(b"\n")
}

/// What stands between two words, as a line.
pub fn push_inner(
    text: &mut Vec<u8>,
    first: &[u8],
    inner: &[u8],
    last: &[u8],
) -> Result<(), NoMemory>
    ensures { OnOk result (text.new.items ≡
        text.old.items ++ rows_text ((first.now ++ (inner.now ++ last.now)) ∷ [])) }
{
    text.extend_from_slice(first)?;
    text.extend_from_slice(inner)?;
    text.extend_from_slice(last)?;
    text.extend_from_slice(b"\n")
}
