// A list of values that contracts see as a list.
ghost use Rattle.std.specs.Prelude.{◌≡◌, ◌++◌, ◌∷◌, ◌<◌, ◌↔◌, [], length, slice_get, Some, OnOk, OnErr, IfOk, IsTrue};
ghost use Rattle.std.specs.Slice.Iter.{iter_rest};

use crate::NoMemory;
use std::alloc::Global;
use std::marker::Model;
use std::slice;

/// Values in their order. Contracts see the list.
#[derive(Debug, Drop)]
pub struct Items<T> {
    items: Vec<T>,
}

impl<T> Model for Items<T> {
    ghost use Rattle.std.specs.Prelude.{List};
    ghost use Rattle.std.specs.Coded.{coded_list};

    ghost Value = { List T };

    ghost coded = { coded_list T.code };

    ghost view = { λ list. list.items.items };
}

impl<T> Items<T> {
    /// No value.
    pub fn new(alloc: Global) -> Self
        ensures { result ≡ [] }
    {
        Items {
            items: Vec::new(alloc),
        }
    }

    /// The values of a vector, in its order.
    pub fn from_vec(items: Vec<T>) -> Self
        ensures { result ≡ items.items }
    {
        Items { items }
    }

    /// Puts a value last. If memory is refused it is dropped.
    pub fn push(&mut self, item: T) -> Result<(), NoMemory>
    where
        T: Drop,
        ensures ok { OnOk result (self.new ≡ self.old ++ item ∷ []) }
        ensures err { OnErr result (self.new ≡ self.old) }
    {
        self.items.push(item)?;
        Ok(())
    }

    pub fn len(&self) -> usize
        ensures { result ≡ length self.now }
    {
        self.items.len()
    }

    pub fn is_empty(&self) -> bool
        ensures { IsTrue result ↔ self.now ≡ [] }
    {
        self.items.is_empty()
    }

    /// The value at a place, counted from 0.
    pub fn at(&self, i: usize) -> &T
        requires { i < length self.now }
        ensures { slice_get self.now i ≡ Some result.now }
    {
        &self.items[i]
    }

    /// The values in their order.
    pub fn as_slice(&self) -> &[T]
        ensures { result.now ≡ self.now }
    {
        &self.items
    }

    pub fn iter(&self) -> slice::Iter<'_, T>
        ensures { iter_rest result ≡ self.now }
    {
        self.items.iter()
    }
}

impl<T: Copy> Items<T> {
    /// The values of a slice, in its order.
    pub fn from_slice(alloc: Global, items: &[T]) -> Result<Self, NoMemory>
        ensures { IfOk result (λ list. list ≡ items.now) }
    {
        let items = Vec::from_slice(alloc, items)?;
        Ok(Items { items })
    }
}

impl<'a, T> IntoIterator for &'a Items<T> {
    type Item = &'a T;

    type IntoIter = slice::Iter<'a, T>;

    ghost into_iter_gives = { λ list items. iter_rest items ≡ list.now };

    fn into_iter(self) -> Self::IntoIter {
        self.iter()
    }
}
