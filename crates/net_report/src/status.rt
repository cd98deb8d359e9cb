// How a run ends: the statuses, their numbers, and which of them write nothing.
ghost use Rattle.std.specs.Prelude.{◌≡◌};
ghost use Rattle.net_report.specs.Statuses.{ending_of, number_of};

/// The end of a run; `number` is the exit status of the program.
#[derive(Clone, Copy, Debug, PartialEq, Eq)]
pub enum Status {
    /// Every block was accepted.
    Done,
    /// Some block was not accepted.
    SomeRefused,
    /// The words are not of the form.
    Usage,
    /// The host failed at a read of a file that the words name.
    ReadFault,
    /// The host failed at a write.
    WriteFault,
    /// The archive that the words name is none.
    BadArchive,
    /// A file has more than 16,777,216 bytes.
    TooLarge,
    NoMemory,
    /// The file has more than 4,096 blocks, or items.
    TooManyBlocks,
    /// A net was not added to the archive.
    AddRefused,
    /// The archive is too long in the newest format.
    MigrateRefused,
    /// The text is not one of printed maps.
    BadMap,
}

impl Status {
    pub fn number(self) -> u8
        ensures { result ≡ number_of self }
    {
        match self {
            Status::Done => 0,
            Status::SomeRefused => 1,
            Status::Usage => 2,
            Status::ReadFault => 3,
            Status::WriteFault => 4,
            Status::BadArchive => 5,
            Status::TooLarge => 6,
            Status::NoMemory => 7,
            Status::TooManyBlocks => 8,
            Status::AddRefused => 9,
            Status::MigrateRefused => 10,
            Status::BadMap => 11,
        }
    }
}

/// How a report ends, by whether each block was accepted.
pub fn ending_of(all_accepted: bool) -> Status
    ensures { result ≡ ending_of all_accepted }
{
    if all_accepted {
        Status::Done
    } else {
        Status::SomeRefused
    }
}
