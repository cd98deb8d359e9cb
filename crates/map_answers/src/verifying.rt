// The answer to the command `verify`.
ghost use Rattle.std.specs.Prelude.{◌≡◌, ◌≤◌, ◌++◌, length, IfOk, OnOk};
ghost use Rattle.net_certificate.specs.Texts.{most_bytes};
ghost use Rattle.map_answers.specs.DueToVerify.{IsDueToVerify, bad_line_text};

use line_text::push_number;
use net_certificate::{MapsFault, check_maps};
use net_report::{Answer, Status, ending_of};
use std::alloc::{AllocError as NoMemory, Global};

// The text of a first bad line.
fn bad_line_text(alloc: Global, line: u32) -> Result<Vec<u8>, NoMemory>
    ensures { IfOk result (λ text. text.items ≡ bad_line_text line) }
{
    let mut text = Vec::new(alloc);
    text.extend_from_slice(b"maps refused line=")?;
    push_number(&mut text, i128::from(line))?;
    text.extend_from_slice(b"\n")?;
    Ok(text)
}

/// What is due to `verify`, of the bytes of its file.
pub fn verify_answer(alloc: Global, file: &[u8]) -> Result<Answer, NoMemory>
    requires { length file.now ≤ most_bytes }
    ensures { IfOk result (λ a. IsDueToVerify file.now a.status a.text.items) }
{
    match check_maps(alloc, file) {
        Ok(checked) => Ok(Answer {
            status: ending_of(checked.refused == 0),
            text: checked.text,
        }),
        Err(MapsFault::Bad { line }) => Ok(Answer {
            status: Status::BadMap,
            text: bad_line_text(alloc, line)?,
        }),
        Err(MapsFault::NoMemory) => Err(NoMemory),
    }
}
