// The rows of an archive whose entries are regrouped.
ghost use Rattle.std.specs.Prelude.{◌≡◌, All, map, IfOk};
ghost use Rattle.line_text.specs.Lines.{rows_text};
ghost use Rattle.archive_text.specs.Entries.{entry_view, entry_views};
ghost use Rattle.archive_text.specs.Regrouped.{regrouped};
ghost use Rattle.archive_text.specs.Texts.{entry_lines};
ghost use Rattle.net_archive.specs.Archives.{IsEntry};

use archive_text::{Entry, Version, lent_in_groups, push_entry};
use std::alloc::{AllocError as NoMemory, Global};

// The rows of entries that are lent, one after the other.
fn rows_of_all(alloc: Global, version: Version, entries: &[&Entry]) -> Result<Vec<u8>, NoMemory>
    requires { All (λ entry. IsEntry (entry_view entry.now)) entries.now }
    ensures { IfOk result (λ rows.
        rows.items ≡ rows_text (entry_lines version (map (λ e. entry_view e.now) entries.now))) }
{
    let mut rows = Vec::new(alloc);
    for entry in entries {
        push_entry(&mut rows, version, entry)?;
    }
    Ok(rows)
}

/// The rows of these entries, with those that have equal keys together.
pub fn rows_in_groups(
    alloc: Global,
    version: Version,
    entries: &[Entry],
) -> Result<Vec<u8>, NoMemory>
    requires { All (λ entry. IsEntry (entry_view entry)) entries.now }
    ensures { IfOk result (λ rows.
        rows.items ≡ rows_text (entry_lines version (regrouped (entry_views entries.now)))) }
{
    let lent = lent_in_groups(alloc, entries)?;
    rows_of_all(alloc, version, &lent)
}
