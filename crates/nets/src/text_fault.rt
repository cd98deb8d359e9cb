// Why a text gives no net.
ghost use Rattle.std.specs.Prelude.{◌≡◌};

use cgd_read::ReadRefusal;
use least_key::Refusal;

/// Why a text gives no net.
#[derive(Debug, Drop)]
pub enum TextFault {
    /// No block of the text is a graph.
    NoGraph,
    /// The text opens a 4,097th block.
    TooManyBlocks,
    /// The first graph is refused, and not by `Refusal::NoMemory`.
    Refused(Refusal),
    /// Memory was refused.
    NoMemory,
}

impl From<ReadRefusal> for TextFault {
    ghost use Rattle.nets.specs.TextFaults.{unread};

    ghost from_gives = { λ refusal fault. fault ≡ unread refusal };

    fn from(refusal: ReadRefusal) -> TextFault {
        match refusal {
            ReadRefusal::TooManyBlocks => TextFault::TooManyBlocks,
            ReadRefusal::NoMemory => TextFault::NoMemory,
        }
    }
}

impl From<Refusal> for TextFault {
    ghost use Rattle.nets.specs.TextFaults.{IsFrom};

    ghost from_gives = { IsFrom };

    fn from(refusal: Refusal) -> TextFault {
        match refusal {
            Refusal::NoMemory => TextFault::NoMemory,
            refusal => TextFault::Refused(refusal),
        }
    }
}
