// Why a graph is refused.
ghost use Rattle.std.specs.Prelude.{◌≡◌};

use barycentre::{PlaceFault, WidePlacement};
use connected_dim::Unconnected;
use edge_frames::KeyWork;
use quotient_graph::Split;
use std::alloc::AllocError as NoMemory;
use vecdim::Triple;

/// Why a graph is refused, by the first that applies. The numbers are those of the report.
#[derive(Debug, Drop)]
pub enum Refusal {
    /// 1: the net is in several parts, as the colouring shows.
    Disconnected(Split),
    /// 2: the closed walks span fewer dimensions than the net has, as the colouring shows.
    Degenerate(Split),
    /// 7: a listed fraction is past 62 bits, and modulo each of the three moduli some weight sum
    /// has no inverse: the first is that of the vertex reported.
    NoModulus { first: u32, second: u32, third: u32 },
    /// 4: a number of the normal placement passes its limit.
    WidePlacement(WidePlacement),
    /// 5: vertex `u` in cell 0 and vertex `v` in cell `t`, which has `dim` parts, stand in one
    /// place.
    Collision { dim: u8, u: u32, v: u32, t: Triple },
    /// 6: the frames of the starts up to `starts_done`, and some of the next start, times the arcs
    /// of the class graph come to `counted`, which is past the limit.
    TooMuch { starts_done: u32, counted: u64 },
    /// Memory was refused. It has no number.
    NoMemory,
}

impl<const D: usize> From<Unconnected<D>> for Refusal {
    ghost use Rattle.least_key.specs.Causes.{unconnected_refusal};

    ghost from_gives = { λ fault refusal. refusal ≡ unconnected_refusal fault };

    fn from(fault: Unconnected<D>) -> Refusal {
        match fault {
            Unconnected::Disconnected(split, _) => Refusal::Disconnected(split),
            Unconnected::Degenerate(split, _) => Refusal::Degenerate(split),
            Unconnected::NoMemory(_) => Refusal::NoMemory,
        }
    }
}

impl From<PlaceFault> for Refusal {
    ghost use Rattle.least_key.specs.Causes.{unplaced_refusal};

    ghost from_gives = { λ fault refusal. refusal ≡ unplaced_refusal fault };

    fn from(fault: PlaceFault) -> Refusal {
        match fault {
            PlaceFault::NoModulus {
                first,
                second,
                third,
            } => Refusal::NoModulus {
                first,
                second,
                third,
            },
            PlaceFault::WidePlacement(wide) => Refusal::WidePlacement(wide),
            PlaceFault::NoMemory => Refusal::NoMemory,
        }
    }
}

impl From<KeyWork> for Refusal {
    ghost use Rattle.least_key.specs.Causes.{work_refusal};

    ghost from_gives = { λ fault refusal. refusal ≡ work_refusal fault };

    fn from(fault: KeyWork) -> Refusal {
        match fault {
            KeyWork::TooMuch {
                starts_done,
                counted,
            } => Refusal::TooMuch {
                starts_done,
                counted,
            },
            KeyWork::NoMemory => Refusal::NoMemory,
        }
    }
}

impl From<NoMemory> for Refusal {
    ghost use Rattle.least_key.specs.Causes.{no_memory};

    ghost from_gives = { λ fault refusal. refusal ≡ no_memory };

    fn from(_fault: NoMemory) -> Refusal {
        Refusal::NoMemory
    }
}
