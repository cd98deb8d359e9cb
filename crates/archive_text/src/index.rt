// A list of numbers with the places of each.
ghost use Rattle.std.specs.Prelude.{◌≡◌, ◌≢◌, ℕ, ◌++◌, ◌∷◌, [], nat_eq, IfNone, OnOk, OnErr};
ghost use Rattle.std.specs.HashMap.{get};
ghost use Rattle.std.specs.Option.{option_to_list};
ghost use Rattle.archive_text.specs.Places.{listed, places_of, without_last};

use crate::NoMemory;
use std::alloc::Global;
use std::collections::HashMap;
use std::marker::Model;

/// A list of at most 2^32 numbers, which gives the places of each. Contracts see the list.
#[derive(Debug, Drop)]
pub struct PlaceIndex {
    values: Vec<u64>,
    places: HashMap<u64, Vec<u32>>,
}

impl Model for PlaceIndex {
    ghost use Rattle.std.specs.Prelude.{ℕ, List};

    ghost Value = { List ℕ };

    ghost use Rattle.archive_text.specs.Places.{ArePlaces};

    ghost view = { λ x. x.values.items };

    ghost invariant = { λ x. ArePlaces x.values.items x.places };
}

// Puts a place last among those of a value.
fn put_place(
    alloc: Global,
    places: &mut HashMap<u64, Vec<u32>>,
    value: u64,
    place: u32,
) -> Result<(), NoMemory>
    ensures put { OnOk result (listed (get nat_eq places.new value) ≡
        listed (get nat_eq places.old value) ++ place ∷ []) }
    ensures others { (v : ℕ) → v ≢ value → get nat_eq places.new v ≡ get nat_eq places.old v }
    ensures err { OnErr result (listed (get nat_eq places.new value) ≡
        listed (get nat_eq places.old value)) }
{
    match places.get_mut(&value) {
        Some(of_value) => of_value.push(place)?,
        None => {
            let mut of_value = Vec::with_capacity(alloc, 1)?;
            of_value.push(place)?;
            places.insert(value, of_value)?;
        }
    }
    Ok(())
}

// Takes away the last place of a value.
fn drop_place(places: &mut HashMap<u64, Vec<u32>>, value: u64)
    ensures dropped { listed (get nat_eq places.new value) ≡
        without_last (listed (get nat_eq places.old value)) }
    ensures others { (v : ℕ) → v ≢ value → get nat_eq places.new v ≡ get nat_eq places.old v }
{
    if let Some(of_value) = places.get_mut(&value) {
        let _ = of_value.pop();
    }
}

impl PlaceIndex {
    /// No number.
    pub fn new(alloc: Global) -> Self
        ensures { result ≡ [] }
    {
        PlaceIndex {
            values: Vec::new(alloc),
            places: HashMap::new(alloc),
        }
    }

    /// Puts a number last. A refusal leaves the list as it was.
    pub fn push(&mut self, value: u64) -> Result<(), NoMemory>
        ensures ok { OnOk result (self.new ≡ self.old ++ value ∷ []) }
        ensures err { OnErr result (self.new ≡ self.old) }
    {
        let Ok(place) = u32::try_from(self.values.len()) else {
            return Err(NoMemory);
        };
        self.values.reserve(1)?;
        put_place(*self.values.allocator(), &mut self.places, value, place)?;
        match self.values.push(value) {
            Ok(()) => Ok(()),
            Err(_) => unreachable!(),
        }
    }

    /// Takes the last number away, if there is one.
    pub fn pop(&mut self) -> Option<u64>
        ensures last { self.old ≡ self.new ++ option_to_list result }
        ensures none { IfNone result (self.new ≡ []) }
    {
        let value = self.values.pop()?;
        drop_place(&mut self.places, value);
        Some(value)
    }

    /// The places of a number, counted from 0, in rising order.
    pub fn places(&self, value: u64) -> &[u32]
        ensures { result.now ≡ places_of self.now value }
    {
        match self.places.get(&value) {
            Some(places) => places,
            None => &[],
        }
    }
}
