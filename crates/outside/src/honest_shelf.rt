// A shelf in memory that never fails.
ghost use Rattle.std.specs.Prelude.{◌≡◌, ◌^◌, ◌<◌, ◌≤◌, length, take, IfOk, IfErr};
ghost use Rattle.outside.specs.Files.{named_bytes, holds_of};
ghost use Rattle.outside.specs.Held.{Stand, HasNoByteAt};
ghost use Rattle.outside.specs.HonestShelf.{GivesAll, after_honest_read};
ghost use Rattle.outside.specs.Last.{Nothing, MayRead};

use crate::files::{LastRead, copy_piece, file_bytes};
use crate::shelf::{Shelf, ShelfFault};
use std::marker::Model;

/// Files in memory. A read gives all that there is room for, and of an absent name nothing; it
/// never fails.
#[derive(Debug, Drop)]
pub struct HonestShelf {
    files: Vec<(String, Vec<u8>)>,
    last: LastRead,
}

impl Model for HonestShelf {
    ghost use Rattle.outside.specs.Files.{named_bytes};
    ghost use Rattle.outside.specs.HonestShelf.{HonestState};
    ghost use Rattle.outside.specs.Kept.{last_of};

    ghost Value = { HonestState };

    ghost view = { λ s. record { files = named_bytes s.files.items; last = last_of s.last } };
}

impl HonestShelf {
    pub fn new(files: Vec<(String, Vec<u8>)>) -> HonestShelf
        ensures { result ≡ record { files = named_bytes files.items; last = Nothing } }
    {
        HonestShelf {
            files,
            last: LastRead::Unset,
        }
    }
}

impl Shelf for HonestShelf {
    ghost holds = { λ s. holds_of s.files };

    ghost faults = { λ _. 0 };

    ghost last = { λ s. s.last };

    fn read(&mut self, name: &str, at: u64, into: &mut [u8]) -> Result<usize, ShelfFault>
        requires room { 0 < length into.old }
        requires small { at < 2 ^ 62 }
        requires place { MayRead self.old.last name.now at }

        ensures gives { IfOk result (λ count.
            GivesAll self.old name.now at (length into.old) count) }
        ensures never_fails { IfErr result (λ fault. fault ≡ ShelfFault.NoMemory) }

        ensures bound { IfOk result (λ count. count ≤ length into.new) }
        ensures bytes { IfOk result (λ count.
            Stand (holds_of self.old.files) name.now at (take count into.new)) }
        ensures end { IfOk result (λ count. count ≡ 0 →
            HasNoByteAt (holds_of self.old.files) name.now at) }

        ensures after { self.new ≡ after_honest_read self.old name.now at result }
    {
        let Ok(kept) = String::from_str(*self.files.allocator(), name) else {
            self.last = LastRead::Unset;
            return Err(ShelfFault::NoMemory);
        };
        let bytes = file_bytes(&self.files, name).unwrap_or(&[]);
        let count = copy_piece(bytes, at, into.len(), into);
        self.last = LastRead::Gave(kept, at + count as u64);
        Ok(count)
    }
}
