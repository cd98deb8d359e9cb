// A shelf gives the bytes of named files, piece by piece.
ghost use Rattle.std.specs.Prelude.{◌≡◌, ◌+◌, ◌^◌, ◌<◌, ◌≤◌, ℕ, length, take, IfOk, IsErrOf};
ghost use Rattle.outside.specs.Causes.{Rose};
ghost use Rattle.outside.specs.Held.{Holds, Stand, HasNoByteAt, Are, HasMore};
ghost use Rattle.outside.specs.Last.{Last, MayRead, Nothing, Given, Failed};

use crate::NoMemory;
use std::alloc::Global;
use thiserror::Error;

/// Why a shelf gives nothing.
#[derive(Clone, Copy, Debug, PartialEq, Eq, Error)]
pub enum ShelfFault {
    #[error("the host failed at a read")]
    Failed,
    #[error("no memory for the name")]
    NoMemory,
}

/// Files by their names, of which a piece is read at a time.
pub trait Shelf {
    /// The bytes of each name, if the shelf shows them.
    ghost holds: { Self → Holds };

    /// How often the host failed. The count never falls.
    ghost faults: { Self → ℕ };

    /// What the last read left.
    ghost last: { Self → Last };

    /// Gives some bytes of a name from a place on. A read begins at 0, or goes on if the last
    /// one ended.
    fn read(&mut self, name: &str, at: u64, into: &mut [u8]) -> Result<usize, ShelfFault>
        requires room { 0 < length into.old }
        requires small { at < 2 ^ 62 }
        requires place { MayRead (last self.old) name.now at }

        ensures bound { IfOk result (λ count. count ≤ length into.new) }
        ensures goes_on { IfOk result (λ count. last self.new ≡ Given name.now (at + count)) }
        ensures bytes { IfOk result (λ count.
            Stand (holds self.old) name.now at (take count into.new)) }
        ensures end { IfOk result (λ count. count ≡ 0 → HasNoByteAt (holds self.old) name.now at) }

        ensures failed { IsErrOf result ShelfFault.Failed →
            Rose (faults self.old) (faults self.new) }
        ensures failed_at { IsErrOf result ShelfFault.Failed → last self.new ≡ Failed name.now }
        ensures no_memory { IsErrOf result ShelfFault.NoMemory → last self.new ≡ Nothing }

        ensures later { faults self.old ≤ faults self.new }
        ensures same { holds self.new ≡ holds self.old };
}

/// Why not all bytes of a name are read.
#[derive(Clone, Copy, Debug, PartialEq, Eq, Error)]
pub enum InFault {
    #[error("the host failed at a read")]
    ReadFault,
    #[error("there are more bytes than the limit: {taken} were taken")]
    TooLarge { taken: u64 },
    #[error("no memory")]
    NoMemory,
}

impl From<ShelfFault> for InFault {
    ghost use Rattle.outside.specs.Faults.{in_fault_of};

    ghost from_gives = { λ fault told. told ≡ in_fault_of fault };

    fn from(fault: ShelfFault) -> InFault {
        match fault {
            ShelfFault::Failed => InFault::ReadFault,
            ShelfFault::NoMemory => InFault::NoMemory,
        }
    }
}

impl From<NoMemory> for InFault {
    ghost use Rattle.outside.specs.Faults.{no_memory};

    ghost from_gives = { λ fault told. told ≡ no_memory };

    fn from(_fault: NoMemory) -> InFault {
        InFault::NoMemory
    }
}

/// The most bytes that `read_whole` asks for at once.
const PIECE: usize = 8192;

/// All the bytes of a name, if they are at most `limit`. It reads until a read gives nothing or
/// `limit + 1` bytes were taken, and never asks for more than these: at most `limit + 2` reads.
pub fn read_whole<H: Shelf>(
    alloc: Global,
    shelf: &mut H,
    name: &str,
    limit: u64,
) -> Result<Vec<u8>, InFault>
    requires { limit < 2 ^ 32 }

    // Of all that was taken, and at most the limit of it.
    ensures whole { IfOk result (λ v. Are (H.holds shelf.old) name.now v.items) }
    ensures within { IfOk result (λ v. length v.items ≤ limit) }
    ensures whole_taken { IfOk result (λ v. H.last shelf.new ≡ Given name.now (length v.items)) }

    // TooLarge comes only if it has more bytes; one more than the limit was taken.
    ensures too_large { (n : ℕ) → IsErrOf result (InFault.TooLarge n) →
        (n ≡ limit + 1) × HasMore (H.holds shelf.old) name.now limit }
    ensures too_large_taken { (n : ℕ) → IsErrOf result (InFault.TooLarge n) →
        H.last shelf.new ≡ Given name.now n }

    // A fault comes by its cause, at this name.
    ensures read_fault { IsErrOf result InFault.ReadFault →
        Rose (H.faults shelf.old) (H.faults shelf.new) }
    ensures read_fault_at { IsErrOf result InFault.ReadFault → H.last shelf.new ≡ Failed name.now }

    // The count of failures does not fall, and what the shelf holds stays.
    ensures later { H.faults shelf.old ≤ H.faults shelf.new }
    ensures same { H.holds shelf.new ≡ H.holds shelf.old }
{
    let mut bytes = Vec::new(alloc);
    let mut buffer = [0u8; PIECE];
    while bytes.len() as u64 <= limit {
        let wanted = limit + 1 - bytes.len() as u64;
        let room = wanted.min(PIECE as u64) as usize;
        let count = shelf.read(name, bytes.len() as u64, &mut buffer[..room])?;
        if count == 0 {
            return Ok(bytes);
        }
        bytes.extend_from_slice(&buffer[..count])?;
    }
    Err(InFault::TooLarge {
        taken: bytes.len() as u64,
    })
}
