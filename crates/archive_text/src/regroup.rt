// Puts entries with equal keys together.
ghost use Rattle.std.specs.Prelude.{◌≡◌, ◌<◌, ◌≤◌, [], map, length, position};
ghost use Rattle.std.specs.Vec.{vec_capacity};
ghost use Rattle.archive_text.specs.Entries.{EntryView};
ghost use Rattle.archive_text.specs.Lookups.{same_key};
ghost use Rattle.archive_text.specs.Regrouped.{regrouped, next_place};

use crate::Entry;
use quotient_graph::Key;

/// What stands for an entry, and shows its key.
pub trait Keyed {
    ghost entry: { Self → EntryView };

    fn key(&self) -> &Key
        ensures { result.now ≡ (entry self.now).key };
}

impl Keyed for Entry {
    ghost use Rattle.archive_text.specs.Entries.{entry_view};

    ghost entry = { entry_view };

    fn key(&self) -> &Key {
        &self.key
    }
}

impl<'a> Keyed for &'a Entry {
    ghost use Rattle.archive_text.specs.Entries.{entry_view};

    ghost entry = { λ e. entry_view e.now };

    fn key(&self) -> &Key {
        &self.key
    }
}

fn has_key<T: Keyed>(item: &T, key: &Key) -> bool
    ensures { result ≡ same_key (T.entry item.now).key key.now }
{
    item.key().numbers() == key.numbers()
}

// The place of the first item with this key, if there is one.
fn place_with<T: Keyed>(items: &[T], key: &Key) -> Option<usize>
    ensures { result ≡ position (λ item. same_key (T.entry item).key key.now) items.now }
{
    items.iter().position(|item| has_key(item, key))
}

// The place of the item that comes next: it has the key of the last one, or else it is the first.
fn next_place<T: Keyed>(grouped: &[T], left: &[T]) -> usize
    requires { 0 < length left.now }
    ensures next { result ≡ next_place (map T.entry grouped.now) (map T.entry left.now) }
    ensures within { result < length left.now }
{
    match grouped {
        [] => 0,
        [.., last] => place_with(left, last.key()).unwrap_or(0),
    }
}

/// Moves all items to another list with room for them, so that those with equal keys stand
/// together, in their old order, and the groups in the order of their first members.
pub fn regroup<T: Keyed>(items: &mut Vec<T>, grouped: &mut Vec<T>)
    requires empty { grouped.old.items ≡ [] }
    requires room { length items.old.items ≤ vec_capacity grouped.old }
    ensures grouped { map T.entry grouped.new.items ≡ regrouped (map T.entry items.old.items) }
    ensures moved { items.new.items ≡ [] }
{
    while !items.is_empty() {
        let place = next_place(grouped, items);
        let item = items.remove(place);
        match grouped.push(item) {
            Ok(()) => {}
            Err(_) => unreachable!(),
        }
    }
}
