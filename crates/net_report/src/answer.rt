// What a run writes, or why it writes nothing.
ghost use Rattle.std.specs.Prelude.{◌≡◌};

use crate::status::Status;
use cgd_read::ReadRefusal;
use keyline_import::ItemRefusal;
use std::alloc::AllocError as NoMemory;

/// How a run ends, and what it writes.
#[derive(Debug, Drop)]
pub struct Answer {
    pub status: Status,
    pub text: Vec<u8>,
}

/// Why there is no text.
#[derive(Clone, Copy, Debug, PartialEq, Eq)]
pub enum Silence {
    /// The file has more than 4,096 blocks, or items.
    TooManyBlocks,
    NoMemory,
}

impl From<NoMemory> for Silence {
    ghost use Rattle.net_report.specs.Statuses.{no_memory};

    ghost from_gives = { λ fault told. told ≡ no_memory };

    fn from(_fault: NoMemory) -> Silence {
        Silence::NoMemory
    }
}

impl From<ReadRefusal> for Silence {
    ghost use Rattle.net_report.specs.Statuses.{silence_of};

    ghost from_gives = { λ refusal told. told ≡ silence_of refusal };

    fn from(refusal: ReadRefusal) -> Silence {
        match refusal {
            ReadRefusal::TooManyBlocks => Silence::TooManyBlocks,
            ReadRefusal::NoMemory => Silence::NoMemory,
        }
    }
}

impl From<ItemRefusal> for Silence {
    ghost use Rattle.net_report.specs.Statuses.{silence_of_items};

    ghost from_gives = { λ refusal told. told ≡ silence_of_items refusal };

    fn from(refusal: ItemRefusal) -> Silence {
        match refusal {
            ItemRefusal::TooManyItems => Silence::TooManyBlocks,
            ItemRefusal::NoMemory => Silence::NoMemory,
        }
    }
}

impl From<Silence> for Status {
    ghost use Rattle.net_report.specs.Statuses.{silent_status};

    ghost from_gives = { λ silence told. told ≡ silent_status silence };

    fn from(silence: Silence) -> Status {
        match silence {
            Silence::TooManyBlocks => Status::TooManyBlocks,
            Silence::NoMemory => Status::NoMemory,
        }
    }
}
