// The entries at some places that have a name or a key.
ghost use Rattle.std.specs.Prelude.{◌≡◌, ◌∷◌, [], MatchOption};
ghost use Rattle.std.specs.List.{list_any};
ghost use Rattle.std.specs.Str.{bytes_eq};
ghost use Rattle.archive_text.specs.Entries.{entry_views};
ghost use Rattle.archive_text.specs.Lookups.{entries_at, names_of, names_with, same_key};

use crate::Entry;
use quotient_graph::Key;
use std::marker::Model;

/// The names of the entries with a key that are left.
#[derive(Debug, Drop)]
pub struct Matches<'a, 'k> {
    entries: &'a [Entry],
    places: &'a [u32],
    key: &'k Key,
}

impl<'a, 'k> Model for Matches<'a, 'k> {
    ghost use Rattle.std.specs.Prelude.{ℕ, List};

    ghost Value = { List (List ℕ) };

    ghost use Rattle.archive_text.specs.Entries.{entry_views};
    ghost use Rattle.archive_text.specs.Lookups.{entries_at, names_with};

    ghost view = { λ m.
        names_with m.key.now (entries_at (entry_views m.entries.now) m.places.now) };
}

// Whether the entry has this key.
pub fn has_key(entry: &Entry, key: &Key) -> bool
    ensures { result ≡ same_key entry.now.key key.now }
{
    entry.key.numbers() == key.numbers()
}

// Whether one of the entries at these places has this name.
pub fn has_name_at(entries: &[Entry], places: &[u32], name: &[u8]) -> bool
    ensures { result ≡ list_any (bytes_eq name.now)
        (names_of (entries_at (entry_views entries.now) places.now)) }
{
    let mut left = places;
    while let [place, others @ ..] = left {
        if let Some(entry) = entries.get(*place as usize)
            && name == entry.name.as_slice()
        {
            return true;
        }
        left = others;
    }
    false
}

impl<'a, 'k> Matches<'a, 'k> {
    // The names of those at these places that have the key.
    pub(crate) fn new(entries: &'a [Entry], places: &'a [u32], key: &'k Key) -> Matches<'a, 'k>
        ensures { result ≡
            names_with key.now (entries_at (entry_views entries.now) places.now) }
    {
        Matches {
            entries,
            places,
            key,
        }
    }

    /// The next name, and None if and only if all were given.
    pub fn next(&mut self) -> Option<&'a [u8]>
        ensures { MatchOption result (self.old ≡ []) (λ name. self.old ≡ name.now ∷ self.new) }
    {
        while let [place, others @ ..] = self.places {
            self.places = others;
            if let Some(entry) = self.entries.get(*place as usize)
                && has_key(entry, self.key)
            {
                return Some(&entry.name);
            }
        }
        None
    }
}
