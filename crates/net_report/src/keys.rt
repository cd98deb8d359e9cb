// The line of a key.
ghost use Rattle.std.specs.Prelude.{◌≡◌, ◌++◌, All, OnOk};
ghost use Rattle.line_text.specs.Numbers.{IsWide};
ghost use Rattle.net_report.specs.Keys.{key_text};

use crate::NoMemory;
use line_text::push_wide_list;
use quotient_graph::Key;

/// The numbers of a key.
pub fn push_key(text: &mut Vec<u8>, key: &Key) -> Result<(), NoMemory>
    ensures { OnOk result (text.new.items ≡ text.old.items ++ key_text key.now) }
{
    text.extend_from_slice(b"key ")?;
    push_wide_list(text, key.numbers())?;
    text.extend_from_slice(b"\n")
}

// A number has 128 bits, as its type says.
fn recall_number(number: i128)
    ensures { IsWide number }
{
    let _number = number;
}

/// Recalls that each number of a key has 128 bits, as its type says.
pub fn recall_key(key: &Key)
    ensures { All IsWide key.now }
{
    for number in key.numbers() {
        recall_number(*number);
    }
}
