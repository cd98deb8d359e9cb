// Numbers of 64 bits, and vertices.
ghost use Rattle.std.specs.Prelude.{◌≡◌, ◌++◌, OnOk};
ghost use Rattle.line_text.specs.Numbers.{list_text, numbers_text};
ghost use Rattle.net_report.specs.Numbers.{IsNamed, vertex_text};

use crate::NoMemory;
use cgd_read::Names;
use line_text::{push_count, push_number, push_numbers};

// The numbers, each after a blank.
fn push_numbers_after(text: &mut Vec<u8>, numbers: &[i64]) -> Result<(), NoMemory>
    ensures { OnOk result (text.new.items ≡ text.old.items ++ numbers_text numbers.now) }
{
    for x in numbers {
        push_numbers(text, &[*x as i128])?;
    }
    Ok(())
}

/// Numbers of 64 bits with blanks between them.
pub fn push_list(text: &mut Vec<u8>, numbers: &[i64]) -> Result<(), NoMemory>
    ensures { OnOk result (text.new.items ≡ text.old.items ++ list_text numbers.now) }
{
    match numbers {
        [] => Ok(()),
        [x, others @ ..] => {
            push_number(text, *x as i128)?;
            push_numbers_after(text, others)
        }
    }
}

/// The name of a vertex, or its number if there are no names.
pub fn push_vertex(text: &mut Vec<u8>, names: &Names<'_>, u: u32) -> Result<(), NoMemory>
    requires { IsNamed names.now u }
    ensures { OnOk result (text.new.items ≡ text.old.items ++ vertex_text names.now u) }
{
    if names.is_empty() {
        push_count(text, u as u64)
    } else {
        text.extend_from_slice(names.at(u as usize - 1))
    }
}
