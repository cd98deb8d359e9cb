// Primitive graphs in memory, and why one is not placed.
ghost use Rattle.least_key.specs.KeyedNets.{IsKeyed};

use least_key::{NetOf, Refusal};
use primitive_net::{NoMemory, PrimitiveFault, PrimitiveNet, divided_net, is_primitive};
use quotient_graph::{Classes, Stable};
use std::alloc::Global;
use vecdim::Triple;

pub fn is_its_own<const D: usize>(net: &NetOf<D>) -> bool
    requires { IsKeyed net.now }
{
    is_primitive(net)
}

pub fn placed_anew<const D: usize>(
    alloc: Global,
    net: &NetOf<D>,
) -> Result<PrimitiveNet<D>, PrimitiveFault>
    requires { IsKeyed net.now }
{
    divided_net(alloc, net)
}

pub fn parts_of<const D: usize>(found: PrimitiveNet<D>) -> (Stable<D>, Classes<D>) {
    let PrimitiveNet { stable, classes } = found;
    (stable, classes)
}

pub fn wide_shift(fault: PrimitiveFault) -> Result<(u32, u32, Triple), Refusal> {
    match fault {
        PrimitiveFault::WideShift { u, v, s } => Ok((u, v, s)),
        PrimitiveFault::Refused(refusal) => Err(refusal),
    }
}

pub fn without_memory(fault: NoMemory) -> PrimitiveFault {
    PrimitiveFault::from(fault)
}
