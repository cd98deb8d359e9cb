// A shelf in memory, with failures at listed calls.
ghost use Rattle.std.specs.Prelude.{◌≡◌, ◌^◌, ◌<◌, ◌≤◌, length, take, IfOk, IsErrOf, string_bytes};
ghost use Rattle.outside.specs.Counts.{next_count};
ghost use Rattle.outside.specs.Files.{named_bytes, holds_of};
ghost use Rattle.outside.specs.Held.{Stand, HasNoByteAt};
ghost use Rattle.outside.specs.Last.{Nothing, Failed, MayRead};
ghost use Rattle.outside.specs.MemoryShelf.{ReadFails, ReadGives, after_read};

use crate::files::{LastRead, copy_piece, file_bytes};
use crate::shelf::{Shelf, ShelfFault};
use std::marker::Model;

/// Files in memory. A read gives at most `step` bytes, and fails at the listed numbers of its
/// calls, counted from 1, and for absent names.
#[derive(Debug, Drop)]
pub struct MemoryShelf {
    files: Vec<(String, Vec<u8>)>,
    step: usize,
    fails: Vec<u64>,
    calls: u64,
    faults: u64,
    last: LastRead,
}

impl Model for MemoryShelf {
    ghost use Rattle.std.specs.Prelude.{◌≤◌};
    ghost use Rattle.outside.specs.Files.{named_bytes};
    ghost use Rattle.outside.specs.Kept.{last_of};
    ghost use Rattle.outside.specs.MemoryShelf.{ShelfState};

    ghost Value = { ShelfState };

    ghost view = { λ s. record {
      files = named_bytes s.files.items;
      step = s.step;
      fails = s.fails.items;
      calls = s.calls;
      faults = s.faults;
      last = last_of s.last;
    } };

    ghost invariant = { λ s. 1 ≤ s.step };
}

impl MemoryShelf {
    pub fn new(files: Vec<(String, Vec<u8>)>, step: usize, fails: Vec<u64>) -> MemoryShelf
        requires { 1 ≤ step }
        ensures { result ≡ record {
          files = named_bytes files.items;
          step = step;
          fails = fails.items;
          calls = 0;
          faults = 0;
          last = Nothing;
        } }
    {
        MemoryShelf {
            files,
            step,
            fails,
            calls: 0,
            faults: 0,
            last: LastRead::Unset,
        }
    }

    // Counts a failure at this name.
    fn fail(&mut self, name: String) -> ShelfFault
        ensures failed { result ≡ ShelfFault.Failed }
        ensures after { self.new ≡ record self.old {
          faults = next_count self.old.faults;
          last = Failed (string_bytes name);
        } }
    {
        self.faults = self.faults.saturating_add(1);
        self.last = LastRead::Refused(name);
        ShelfFault::Failed
    }
}

impl Shelf for MemoryShelf {
    ghost holds = { λ s. holds_of s.files };

    ghost faults = { λ s. s.faults };

    ghost last = { λ s. s.last };

    fn read(&mut self, name: &str, at: u64, into: &mut [u8]) -> Result<usize, ShelfFault>
        requires room { 0 < length into.old }
        requires small { at < 2 ^ 62 }
        requires place { MayRead self.old.last name.now at }

        // Exactly the listed calls and the absent names fail.
        ensures gives { IfOk result (λ count.
            ReadGives self.old name.now at (length into.old) count) }
        ensures fails { IsErrOf result ShelfFault.Failed → ReadFails self.old name.now }

        ensures bound { IfOk result (λ count. count ≤ length into.new) }
        ensures bytes { IfOk result (λ count.
            Stand (holds_of self.old.files) name.now at (take count into.new)) }
        ensures end { IfOk result (λ count. count ≡ 0 →
            HasNoByteAt (holds_of self.old.files) name.now at) }

        ensures later { self.old.faults ≤ self.new.faults }
        ensures after { self.new ≡ after_read self.old name.now at result }
    {
        self.calls = self.calls.saturating_add(1);
        let Ok(kept) = String::from_str(*self.files.allocator(), name) else {
            self.last = LastRead::Unset;
            return Err(ShelfFault::NoMemory);
        };
        if self.fails.contains(&self.calls) {
            return Err(self.fail(kept));
        }
        let Some(bytes) = file_bytes(&self.files, name) else {
            return Err(self.fail(kept));
        };
        let count = copy_piece(bytes, at, self.step, into);
        self.last = LastRead::Gave(kept, at + count as u64);
        Ok(count)
    }
}
