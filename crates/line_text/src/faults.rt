// Why the rows of a text are not read.
ghost use Rattle.std.specs.Prelude.{◌≡◌};

use std::alloc::{AllocError as NoMemory, AllocFailed};

/// Why the rows of a text are not read.
#[derive(Clone, Copy, Debug, PartialEq, Eq)]
pub enum RowFault {
    /// The number of the first line that may not stand where it stands, or that is missing.
    BadLine(u32),
    NoMemory,
}

impl From<NoMemory> for RowFault {
    ghost use Rattle.line_text.specs.Faults.{no_memory};

    ghost from_gives = { λ fault told. told ≡ no_memory };

    fn from(_fault: NoMemory) -> RowFault {
        RowFault::NoMemory
    }
}

impl<T: Drop> From<AllocFailed<T>> for RowFault {
    ghost use Rattle.line_text.specs.Faults.{no_memory};

    ghost from_gives = { λ fault told. told ≡ no_memory };

    fn from(_fault: AllocFailed<T>) -> RowFault {
        RowFault::NoMemory
    }
}
