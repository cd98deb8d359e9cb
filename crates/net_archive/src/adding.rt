// The steps of adding a net to an archive.
ghost use Rattle.std.specs.Prelude.{◌≡◌, ◌↔◌, ◌≤◌, ◌<◌, ◌+◌, ◌++◌, ◌∷◌, [], true, IsTrue, IfOk, OnOk, OnErr, length};
ghost use Rattle.line_text.specs.Lines.{rows_text};
ghost use Rattle.least_key.specs.AnyNets.{net_view};
ghost use Rattle.least_key.specs.KeyedNets.{HasKinds};
ghost use Rattle.archive_text.specs.Entries.{entry_view};
ghost use Rattle.archive_text.specs.Texts.{entry_lines, most_bytes};
ghost use Rattle.line_text.specs.Names.{is_name};
ghost use Rattle.net_archive.specs.Adding.{IsEntryOf};
ghost use Rattle.net_archive.specs.Archives.{IsEntry, most_entries};

use archive_text::{Entries, Entry, MOST_BYTES, Version, push_entry};
use least_key::{Kinds, Net};
use std::alloc::{AllocError as NoMemory, Global};

/// So many entries has an archive at most.
const MOST_ENTRIES: usize = 4096;

/// The bytes of the first line, with its line feed.
const FIRST_LINE_BYTES: usize = 14;

/// The entry of a net under a name. Its coordination sequences are counted once for each of these
/// kinds of its classes.
pub fn entry_of(alloc: Global, name: &[u8], net: &Net, kinds: &Kinds) -> Result<Entry, NoMemory>
    requires { HasKinds (net_view net.now) kinds.now }
    ensures entry { IfOk result (λ e. IsEntryOf name.now (net_view net.now) (entry_view e)) }
    ensures is_entry { is_name name.now ≡ true → IfOk result (λ e. IsEntry (entry_view e)) }
{
    let shells = net.sequences(alloc, kinds)?;
    let graph = net.copy_graph()?;
    let name = Vec::from_slice(alloc, name)?;
    let key = net.key().copy()?;
    Ok(Entry {
        name,
        graph,
        key,
        shells,
    })
}

/// The rows of an entry.
pub fn rows_of(alloc: Global, version: Version, entry: &Entry) -> Result<Vec<u8>, NoMemory>
    requires { IsEntry (entry_view entry.now) }
    ensures { IfOk result (λ rows.
        rows.items ≡ rows_text (entry_lines version (entry_view entry.now ∷ []))) }
{
    let mut rows = Vec::new(alloc);
    push_entry(&mut rows, version, entry)?;
    Ok(rows)
}

/// Whether there are as many entries as there may be.
pub fn are_many(entries: &[Entry]) -> bool
    ensures { IsTrue result ↔ most_entries ≤ length entries.now }
{
    entries.len() >= MOST_ENTRIES
}

/// Whether the text would be too long with these rows after the others.
pub fn is_too_long(body: &[u8], rows: &[u8]) -> bool
    requires { length body.now ≤ most_bytes }
    ensures { IsTrue result ↔ most_bytes < FIRST_LINE_BYTES + length body.now + length rows.now }
{
    rows.len() > MOST_BYTES || FIRST_LINE_BYTES + body.len() + rows.len() > MOST_BYTES
}

/// Puts an entry and its rows last, or changes neither.
pub fn append(
    entries: &mut Entries,
    body: &mut Vec<u8>,
    entry: Entry,
    rows: &[u8],
) -> Result<(), NoMemory>
    ensures entries { OnOk result (entries.new ≡ entries.old ++ entry_view entry ∷ []) }
    ensures body { OnOk result (body.new.items ≡ body.old.items ++ rows.now) }
    ensures same_entries { OnErr result (entries.new ≡ entries.old) }
    ensures same_body { OnErr result (body.new.items ≡ body.old.items) }
{
    let size = body.len();
    body.extend_from_slice(rows)?;
    match entries.push(entry) {
        Ok(()) => Ok(()),
        Err(refused) => {
            body.truncate(size);
            Err(refused)
        }
    }
}
