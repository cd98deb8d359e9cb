// Why a text is no archive, why a net is not added, and why an archive is not written.
ghost use Rattle.std.specs.Prelude.{◌≡◌};

use least_key::Refusal;
use line_text::RowFault;
use lists::Items;
use quotient_graph::Key;
use std::alloc::AllocError as NoMemory;

/// Why a text is no archive, by the first fault in it. Each `u32` but `class`, `kept` and
/// `computed` is the number of a line. The numbers are those of the report.
#[derive(Debug, Drop)]
pub enum ArchiveFault {
    /// 1: the line breaks the format otherwise than below.
    BadLine(u32),
    /// 2: an earlier entry has the name on this line.
    RepeatedName(u32),
    /// 3: the graph of the entry that begins here is refused, and memory did not run out.
    EntryRefused(u32, Refusal),
    /// 4: the key on this line is not that of the entry's graph.
    KeyDiffers {
        line: u32,
        kept: Key,
        computed: Key,
    },
    /// 5: a 4,097th entry begins.
    TooManyEntries,
    /// 6: the first line names no version of the format.
    Version(u32),
    /// 8: this line has not the number of classes of the entry's graph.
    CountDiffers {
        line: u32,
        kept: u32,
        computed: u32,
    },
    /// 9: this line has not the sizes of the shells of this class of the entry's graph.
    ShellsDiffer {
        line: u32,
        class: u32,
        kept: Items<u32>,
        computed: Items<u32>,
    },
    /// Memory was refused. It has no number.
    NoMemory,
}

impl From<NoMemory> for ArchiveFault {
    ghost use Rattle.net_archive.specs.declared.faults.ArchiveFault.TheVariants.{NoMemory};

    ghost from_gives = { λ fault told. told ≡ NoMemory };

    fn from(_fault: NoMemory) -> ArchiveFault {
        ArchiveFault::NoMemory
    }
}

impl From<RowFault> for ArchiveFault {
    ghost use Rattle.net_archive.specs.Causes.{of_rows};

    ghost from_gives = { λ fault told. told ≡ of_rows fault };

    fn from(fault: RowFault) -> ArchiveFault {
        match fault {
            RowFault::BadLine(line) => ArchiveFault::BadLine(line),
            RowFault::NoMemory => ArchiveFault::NoMemory,
        }
    }
}

/// Why a net is not added to an archive, by the first that applies. The numbers are those of the
/// report.
#[derive(Clone, Copy, Debug, PartialEq, Eq)]
pub enum AddFault {
    /// 1: an entry has the name.
    NameTaken,
    /// 2: the bytes are no name.
    BadName,
    /// 3: there are 4,096 entries, or the text would pass 16,777,216 bytes.
    Full,
    /// Memory was refused. It has no number.
    NoMemory,
}

impl From<NoMemory> for AddFault {
    ghost use Rattle.net_archive.specs.declared.faults.AddFault.TheVariants.{NoMemory};

    ghost from_gives = { λ fault told. told ≡ NoMemory };

    fn from(_fault: NoMemory) -> AddFault {
        AddFault::NoMemory
    }
}

/// Why an archive is not written in the newest format.
#[derive(Clone, Copy, Debug, PartialEq, Eq)]
pub enum MigrateFault {
    /// 1: the text would have this length, which is past 16,777,216 bytes.
    Full { length: u64 },
    /// Memory was refused. It has no number.
    NoMemory,
}

impl From<NoMemory> for MigrateFault {
    ghost use Rattle.net_archive.specs.declared.faults.MigrateFault.TheVariants.{NoMemory};

    ghost from_gives = { λ fault told. told ≡ NoMemory };

    fn from(_fault: NoMemory) -> MigrateFault {
        MigrateFault::NoMemory
    }
}
