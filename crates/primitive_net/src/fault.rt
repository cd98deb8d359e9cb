// Why a primitive graph is not placed.
use least_key::Refusal;
use std::alloc::AllocError as NoMemory;
use vecdim::Triple;

/// Why a primitive graph is not placed, by the first that applies.
#[derive(Debug, Drop)]
pub enum PrimitiveFault {
    /// The edge from class `u` to class `v` by the shift `s`, which has a part past the limit.
    WideShift { u: u32, v: u32, s: Triple },
    /// The primitive graph is refused as a graph that is placed.
    Refused(Refusal),
}

impl From<NoMemory> for PrimitiveFault {
    ghost use Rattle.std.specs.Prelude.{◌≡◌};
    ghost use Rattle.primitive_net.specs.Faults.{no_memory};

    ghost from_gives = { λ fault told. told ≡ no_memory };

    fn from(_fault: NoMemory) -> PrimitiveFault {
        PrimitiveFault::Refused(Refusal::NoMemory)
    }
}
