// The list of entries, which are found by name and by key through fingerprints.
ghost use Rattle.std.specs.Prelude.{◌≡◌, ◌+◌, ◌<◌, ◌++◌, ◌∷◌, ◌↔◌, [], ℕ, List, length, IsTrue, Contains, IfNone, IfSome, IfOk, OnOk, OnErr};
ghost use Rattle.archive_text.specs.Entries.{entry_view, entry_views};
ghost use Rattle.archive_text.specs.Groups.{AreGroups, IsGroupFrom, numbers_in};
ghost use Rattle.archive_text.specs.Lookups.{names_of, names_with};
ghost use Rattle.archive_text.specs.Regrouped.{regrouped};

use crate::groups_of::{first_number, numbers_at};
use crate::in_groups::indexes_in_groups;
use crate::matches_of::{Matches, has_name_at};
use crate::prints::{key_print, name_print};
use crate::regroup::regroup;
use crate::{Entry, NoMemory, PlaceIndex};
use quotient_graph::Key;
use std::alloc::Global;
use std::marker::Model;

/// So many entries with one key are a group.
const FEWEST: usize = 2;

/// Entries in order, fewer than 2^32, which are found by name and by key through fingerprints.
/// Contracts see the list of what each entry has.
#[derive(Debug, Drop)]
pub struct Entries {
    items: Vec<Entry>,
    names: PlaceIndex,
    keys: PlaceIndex,
}

impl Model for Entries {
    ghost use Rattle.std.specs.Prelude.{List};
    ghost use Rattle.archive_text.specs.Entries.{EntryView, entry_views};
    ghost use Rattle.archive_text.specs.Lookups.{AreIndexed};

    ghost Value = { List EntryView };

    ghost view = { λ s. entry_views s.items.items };

    ghost invariant = { λ s. AreIndexed (entry_views s.items.items) s.names s.keys };
}

impl Entries {
    /// No entry.
    pub fn new(alloc: Global) -> Self
        ensures { result ≡ [] }
    {
        Entries {
            items: Vec::new(alloc),
            names: PlaceIndex::new(alloc),
            keys: PlaceIndex::new(alloc),
        }
    }

    /// Puts an entry last. A refusal leaves the list as it was.
    pub fn push(&mut self, entry: Entry) -> Result<(), NoMemory>
        ensures ok { OnOk result (self.new ≡ self.old ++ entry_view entry ∷ []) }
        ensures err { OnErr result (self.new ≡ self.old) }
    {
        if self.items.len() >= u32::MAX as usize {
            return Err(NoMemory);
        }
        self.items.reserve(1)?;
        self.names.push(name_print(&entry.name))?;
        if let Err(refused) = self.keys.push(key_print(entry.key.numbers())) {
            let _ = self.names.pop();
            return Err(refused);
        }
        match self.items.push(entry) {
            Ok(()) => Ok(()),
            Err(_) => unreachable!(),
        }
    }

    /// The entries in their order.
    pub fn as_slice(&self) -> &[Entry]
        ensures { entry_views result.now ≡ self.now }
    {
        &self.items
    }

    /// The entries in their order, given away.
    pub fn into_vec(self) -> Vec<Entry>
        ensures { entry_views result.items ≡ self }
    {
        self.items
    }

    /// Whether an entry has this name.
    pub fn has_name(&self, name: &[u8]) -> bool
        ensures { IsTrue result ↔ Contains (names_of self.now) name.now }
    {
        let places = self.names.places(name_print(name));
        has_name_at(&self.items, places, name)
    }

    /// The names of the entries with a key, in their order. They are lent from the list alone.
    pub fn lookup<'a, 'k>(&'a self, key: &'k Key) -> Matches<'a, 'k>
        ensures { result ≡ names_with key.now self.now }
    {
        let places = self.keys.places(key_print(key.numbers()));
        Matches::new(&self.items, places, key)
    }

    /// Puts entries with equal keys together, in their old order, and the groups in the order of
    /// their first entries. A refusal changes nothing.
    pub fn regroup(&mut self) -> Result<(), NoMemory>
        ensures ok { OnOk result (self.new ≡ regrouped self.old) }
        ensures err { OnErr result (self.new ≡ self.old) }
    {
        let alloc = *self.items.allocator();
        let mut grouped = Vec::with_capacity(alloc, self.items.len())?;
        let (names, keys) = indexes_in_groups(alloc, &self.items)?;
        regroup(&mut self.items, &mut grouped);
        self.items = grouped;
        self.names = names;
        self.keys = keys;
        Ok(())
    }

    // The group whose first entry stands at this place, if one begins there.
    fn group_from(&self, place: usize) -> Result<Option<Vec<u32>>, NoMemory>
        requires { place < length self.now }
        ensures none { IfOk result (λ found. IfNone found
            ((group : List ℕ) → ¬ IsGroupFrom self.now (place + 1) group)) }
        ensures some { IfOk result (λ found. IfSome found
            (λ group. IsGroupFrom self.now (place + 1) group.items)) }
    {
        let key = &self.items[place].key;
        let places = self.keys.places(key_print(key.numbers()));
        let Some(first) = first_number(&self.items, places, key) else {
            return Ok(None);
        };
        if first as usize != place + 1 {
            return Ok(None);
        }
        let numbers = numbers_at(*self.items.allocator(), &self.items, places, key)?;
        if numbers.len() < FEWEST {
            return Ok(None);
        }
        Ok(Some(numbers))
    }

    /// The groups of two or more entries with equal keys, as rising entry numbers from 1, in the
    /// order of their first members.
    pub fn duplicates(&self) -> Result<Vec<Vec<u32>>, NoMemory>
        ensures { IfOk result (λ groups. AreGroups self.now (numbers_in groups.items)) }
    {
        let mut groups = Vec::new(*self.items.allocator());
        for place in 0..self.items.len() {
            if let Some(group) = self.group_from(place)? {
                groups.push(group)?;
            }
        }
        Ok(groups)
    }
}
