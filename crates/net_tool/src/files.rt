// The bytes of the files that a task names.
ghost use Rattle.std.specs.Prelude.{◌≡◌, ◌≤◌, ℕ, IfOk, IsErrOf, option_copied};
ghost use Rattle.outside.specs.Causes.{Rose};
ghost use Rattle.answers.specs.Bytes.{bytes_in};
ghost use Rattle.net_tool.specs.Run.{AreBytesOf, FailedAt, HasManyBytes};

use answers::MOST_BYTES;
use outside::{InFault, Shelf, read_whole};
use std::alloc::Global;

/// The bytes of a file, if one is named.
pub fn read_named<H: Shelf>(
    alloc: Global,
    shelf: &mut H,
    name: Option<&str>,
) -> Result<Option<Vec<u8>>, InFault>
    // The bytes of the file, if one is named.
    ensures bytes { IfOk result (λ bytes.
        AreBytesOf (option_copied name.entry) (H.holds shelf.old) (bytes_in bytes)) }
    // A fault of the host comes by its cause, at this file.
    ensures fault { IsErrOf result InFault.ReadFault →
        Rose (H.faults shelf.old) (H.faults shelf.new) }
    ensures fault_at { IsErrOf result InFault.ReadFault →
        FailedAt (option_copied name.entry) (H.last shelf.new) }
    // It is refused as too large only if it has more bytes than are taken.
    ensures large { (n : ℕ) → IsErrOf result (InFault.TooLarge n) →
        HasManyBytes (option_copied name.entry) (H.holds shelf.old) }
    // The files are as before, and the count of failures does not fall.
    ensures same { H.holds shelf.new ≡ H.holds shelf.old }
    ensures later { H.faults shelf.old ≤ H.faults shelf.new }
{
    match name {
        Some(name) => Ok(Some(read_whole(alloc, shelf, name, MOST_BYTES as u64)?)),
        None => Ok(None),
    }
}
