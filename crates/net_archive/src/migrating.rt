// The text of an archive in the newest version.
ghost use Rattle.std.specs.Prelude.{◌≡◌, ◌≤◌, All, IfOk, IfErr, length};
ghost use Rattle.archive_text.specs.Entries.{entry_view, entry_views};
ghost use Rattle.archive_text.specs.Texts.{text_of, most_bytes};
ghost use Rattle.net_archive.specs.Archives.{IsEntry};
ghost use Rattle.net_archive.specs.Migrating.{IsTooLong};

use crate::MigrateFault;
use archive_text::{Entry, MOST_BYTES, Version, push_entry, push_first};
use std::alloc::{AllocError as NoMemory, Global};

// The rows of the entries in version 2, after the first line.
fn rows_in_two(alloc: Global, entries: &[Entry]) -> Result<Vec<u8>, NoMemory>
    requires { All (λ entry. IsEntry (entry_view entry)) entries.now }
    ensures { IfOk result (λ text. text.items ≡ text_of Version.Two (entry_views entries.now)) }
{
    let mut text = Vec::new(alloc);
    push_first(&mut text, Version::Two)?;
    for entry in entries {
        push_entry(&mut text, Version::Two, entry)?;
    }
    Ok(text)
}

/// The text of these entries in version 2, or that it is too long.
pub fn newest_text(alloc: Global, entries: &[Entry]) -> Result<Vec<u8>, MigrateFault>
    requires { All (λ entry. IsEntry (entry_view entry)) entries.now }
    ensures text { IfOk result (λ text.
        text.items ≡ text_of Version.Two (entry_views entries.now)) }
    ensures fits { IfOk result (λ text. length text.items ≤ most_bytes) }
    ensures fault { IfErr result (IsTooLong (text_of Version.Two (entry_views entries.now))) }
{
    let text = rows_in_two(alloc, entries)?;
    if text.len() > MOST_BYTES {
        return Err(MigrateFault::Full {
            length: text.len() as u64,
        });
    }
    Ok(text)
}
