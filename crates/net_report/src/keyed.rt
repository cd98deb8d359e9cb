// Outcomes whose keys are asked for, with kinds of the classes of their nets.
ghost use Rattle.std.specs.Prelude.{◌≡◌, ◌++◌, ◌∷◌, [], OnOk};

use crate::{NoMemory, Outcome, Outcomes};
use least_key::Kinds;
use std::alloc::Global;

/// The outcomes of blocks or of items under `key`, in their order. Beside each stand kinds of the
/// classes of its net, if it has one: by them coordination sequences are counted.
#[derive(Drop)]
pub struct KeyedOutcomes<'a> {
    pub outcomes: Outcomes<'a>,
    pub kinds: Vec<Kinds>,
}

impl<'a> KeyedOutcomes<'a> {
    /// No outcome.
    pub fn new(alloc: Global) -> Self
        ensures outcomes { result.outcomes ≡ [] }
        ensures kinds { result.kinds.items ≡ [] }
    {
        KeyedOutcomes {
            outcomes: Outcomes::new(alloc),
            kinds: Vec::new(alloc),
        }
    }

    /// Puts an outcome and its kinds last.
    pub fn push(&mut self, outcome: Outcome<'a>, kinds: Kinds) -> Result<(), NoMemory>
        ensures outcomes { OnOk result (
            self.new.outcomes ≡ self.old.outcomes ++ outcome.entry ∷ []) }
        ensures kinds { OnOk result (self.new.kinds.items ≡ self.old.kinds.items ++ kinds ∷ []) }
    {
        self.outcomes.push(outcome)?;
        self.kinds.push(kinds)?;
        Ok(())
    }
}
