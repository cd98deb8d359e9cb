// A list of lists of numbers.
ghost use Rattle.std.specs.Prelude.{◌≡◌, ◌++◌, ◌∷◌, ◌<◌, ◌↔◌, [], ℕ, List, map, length, slice_get, Some, OnOk, OnErr, IfOk, IsTrue};
ghost use Rattle.std.specs.Slice.Iter.{iter_rest};

use crate::NoMemory;
use std::alloc::Global;
use std::marker::Model;
use std::slice;

/// What holds numbers, one after the other.
pub trait Numbers {
    ghost numbers: { Self → List ℕ };
}

impl<'a> Numbers for &'a [u8] {
    ghost numbers = { λ bytes. bytes.now };
}

impl Numbers for Vec<u32> {
    ghost numbers = { λ vector. vector.items };
}

/// Lists of numbers in their order: texts, or vectors. Contracts see a list of lists of numbers.
#[derive(Debug, Drop)]
pub struct NumberLists<T: Numbers> {
    items: Vec<T>,
}

impl<T: Numbers> Model for NumberLists<T> {
    ghost use Rattle.std.specs.Prelude.{ℕ, List, map};

    ghost Value = { List (List ℕ) };

    ghost view = { λ lists. map T.numbers lists.items.items };
}

impl<T: Numbers> NumberLists<T> {
    /// No list.
    pub fn new(alloc: Global) -> Self
        ensures { result ≡ [] }
    {
        NumberLists {
            items: Vec::new(alloc),
        }
    }

    /// Puts a list last. If memory is refused it is dropped.
    pub fn push(&mut self, item: T) -> Result<(), NoMemory>
    where
        T: Drop,
        ensures ok { OnOk result (self.new ≡ self.old ++ T.numbers item ∷ []) }
        ensures err { OnErr result (self.new ≡ self.old) }
    {
        self.items.push(item)?;
        Ok(())
    }

    pub fn len(&self) -> usize
        ensures { result ≡ length self.now }
    {
        self.items.len()
    }

    pub fn is_empty(&self) -> bool
        ensures { IsTrue result ↔ self.now ≡ [] }
    {
        self.items.is_empty()
    }

    /// The lists in their order.
    pub fn as_slice(&self) -> &[T]
        ensures { map T.numbers result.now ≡ self.now }
    {
        &self.items
    }

    pub fn iter(&self) -> slice::Iter<'_, T>
        ensures { map T.numbers (iter_rest result) ≡ self.now }
    {
        self.items.iter()
    }
}

impl<T: Numbers + Copy> NumberLists<T> {
    /// The lists of a slice, in its order.
    pub fn from_slice(alloc: Global, items: &[T]) -> Result<Self, NoMemory>
        ensures { IfOk result (λ lists. lists ≡ map T.numbers items.now) }
    {
        let items = Vec::from_slice(alloc, items)?;
        Ok(NumberLists { items })
    }

    /// An equal list, of the same slices.
    pub fn copy(&self) -> Result<Self, NoMemory>
        ensures { IfOk result (λ lists. lists ≡ self.now) }
    {
        NumberLists::from_slice(*self.items.allocator(), &self.items)
    }
}

impl<'a> NumberLists<&'a [u8]> {
    /// The text at a place, counted from 0.
    pub fn at(&self, i: usize) -> &&'a [u8]
        requires { i < length self.now }
        ensures { slice_get self.now i ≡ Some result.now.now }
    {
        &self.items[i]
    }
}

impl NumberLists<Vec<u32>> {
    /// The numbers at a place, counted from 0.
    pub fn at(&self, i: usize) -> &[u32]
        requires { i < length self.now }
        ensures { slice_get self.now i ≡ Some result.now }
    {
        &self.items[i]
    }
}

impl<'a, T: Numbers> IntoIterator for &'a NumberLists<T> {
    type Item = &'a T;

    type IntoIter = slice::Iter<'a, T>;

    ghost into_iter_gives = { λ lists items. map T.numbers (iter_rest items) ≡ lists.now };

    fn into_iter(self) -> Self::IntoIter {
        self.iter()
    }
}
