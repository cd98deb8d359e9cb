// Groups of entries with equal keys.
ghost use Rattle.std.specs.Prelude.{◌≡◌, ◌<◌, ◌^◌, length, slice_get, IfOk};
ghost use Rattle.archive_text.specs.Entries.{entry_views};
ghost use Rattle.archive_text.specs.Groups.{numbers_at};

use crate::matches_of::has_key;
use crate::{Entry, NoMemory};
use quotient_graph::Key;
use std::alloc::Global;

// The number of the first entry at these places that has the key.
pub fn first_number(entries: &[Entry], places: &[u32], key: &Key) -> Option<u32>
    requires { length entries.now < 2 ^ 32 }
    ensures { result ≡ slice_get (numbers_at (entry_views entries.now) key.now places.now) 0 }
{
    let mut left = places;
    while let [place, others @ ..] = left {
        if let Some(entry) = entries.get(*place as usize)
            && has_key(entry, key)
        {
            return Some(*place + 1);
        }
        left = others;
    }
    None
}

// The numbers of the entries at these places that have the key.
pub fn numbers_at(
    alloc: Global,
    entries: &[Entry],
    places: &[u32],
    key: &Key,
) -> Result<Vec<u32>, NoMemory>
    requires { length entries.now < 2 ^ 32 }
    ensures { IfOk result (λ numbers.
        numbers.items ≡ numbers_at (entry_views entries.now) key.now places.now) }
{
    let mut numbers = Vec::new(alloc);
    let mut left = places;
    while let [place, others @ ..] = left {
        if let Some(entry) = entries.get(*place as usize)
            && has_key(entry, key)
        {
            numbers.push(*place + 1)?;
        }
        left = others;
    }
    Ok(numbers)
}
