// The line of a coordination sequence.
ghost use Rattle.std.specs.Prelude.{◌≡◌, ◌++◌, OnOk};
ghost use Rattle.net_report.specs.Sequences.{shells_text, sizes_after};

use crate::NoMemory;
use line_text::push_field;

// The sizes, each after a blank.
fn push_sizes_after(text: &mut Vec<u8>, sizes: &[u32]) -> Result<(), NoMemory>
    ensures { OnOk result (text.new.items ≡ text.old.items ++ sizes_after sizes.now) }
{
    for n in sizes {
        push_field(text, b" ", *n as u64)?;
    }
    Ok(())
}

/// The coordination sequence of a class: the sizes of the shells of a vertex.
pub fn push_shells(text: &mut Vec<u8>, class: u64, sizes: &[u32]) -> Result<(), NoMemory>
    ensures { OnOk result (text.new.items ≡ text.old.items ++ shells_text class sizes.now) }
{
    push_field(text, b"shells ", class)?;
    push_sizes_after(text, sizes)?;
    text.extend_from_slice(b"\n")
}
