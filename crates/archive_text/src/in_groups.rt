// Entries that are lent, with those that have equal keys together, and their fingerprints.
ghost use Rattle.std.specs.Prelude.{◌≡◌, map, length, IfOk};
ghost use Rattle.archive_text.specs.Entries.{entry_view, entry_views};
ghost use Rattle.archive_text.specs.Fingerprints.{key_print, name_print};
ghost use Rattle.archive_text.specs.Regrouped.{regrouped};

use crate::prints::{key_print, name_print};
use crate::regroup::regroup;
use crate::{Entry, NoMemory, PlaceIndex};
use std::alloc::Global;

// All entries, lent.
fn lent_all<'a>(alloc: Global, entries: &'a [Entry]) -> Result<Vec<&'a Entry>, NoMemory>
    ensures views { IfOk result (λ lent.
        map (λ e. entry_view e.now) lent.items ≡ entry_views entries.now) }
    ensures count { IfOk result (λ lent. length lent.items ≡ length entries.now) }
{
    let mut lent = Vec::new(alloc);
    for entry in entries {
        lent.push(entry)?;
    }
    Ok(lent)
}

/// The entries, lent. Those with equal keys stand together, in their old order, and the groups in
/// the order of their first entries.
pub fn lent_in_groups<'a>(alloc: Global, entries: &'a [Entry]) -> Result<Vec<&'a Entry>, NoMemory>
    ensures { IfOk result (λ lent.
        map (λ e. entry_view e.now) lent.items ≡ regrouped (entry_views entries.now)) }
{
    let mut grouped = Vec::with_capacity(alloc, entries.len())?;
    let mut lent = lent_all(alloc, entries)?;
    regroup(&mut lent, &mut grouped);
    Ok(grouped)
}

// The fingerprints of the names of these entries.
fn name_index(alloc: Global, entries: &[&Entry]) -> Result<PlaceIndex, NoMemory>
    ensures { IfOk result (λ names.
        names ≡ map (λ e. name_print (entry_view e.now).name) entries.now) }
{
    let mut names = PlaceIndex::new(alloc);
    for entry in entries {
        names.push(name_print(&entry.name))?;
    }
    Ok(names)
}

// The fingerprints of their keys.
fn key_index(alloc: Global, entries: &[&Entry]) -> Result<PlaceIndex, NoMemory>
    ensures { IfOk result (λ keys.
        keys ≡ map (λ e. key_print (entry_view e.now).key) entries.now) }
{
    let mut keys = PlaceIndex::new(alloc);
    for entry in entries {
        keys.push(key_print(entry.key.numbers()))?;
    }
    Ok(keys)
}

/// The fingerprints of the names and of the keys of these entries, with those that have equal keys
/// together.
pub fn indexes_in_groups(
    alloc: Global,
    entries: &[Entry],
) -> Result<(PlaceIndex, PlaceIndex), NoMemory>
    ensures names { IfOk result (λ both.
        both.0 ≡ map (λ e. name_print e.name) (regrouped (entry_views entries.now))) }
    ensures keys { IfOk result (λ both.
        both.1 ≡ map (λ e. key_print e.key) (regrouped (entry_views entries.now))) }
{
    let lent = lent_in_groups(alloc, entries)?;
    let names = name_index(alloc, &lent)?;
    let keys = key_index(alloc, &lent)?;
    Ok((names, keys))
}
