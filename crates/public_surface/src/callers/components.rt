// The parts of a net that is not connected.
use lists::Items;
use net_components::{Part, PartFault, components};
use quotient_graph::AnyGraph;
use std::alloc::Global;
use vecdim::Triple;

pub fn parts_of(alloc: Global, g: &AnyGraph) -> Result<Vec<Part>, PartFault> {
    components(alloc, g)
}

pub fn part(vertices: Items<u32>, basis: Items<Triple>, copies: u64, graph: AnyGraph) -> Part {
    Part {
        vertices,
        basis,
        copies,
        graph,
    }
}

pub fn low_rank(fault: PartFault) -> Option<(u32, Triple)> {
    match fault {
        PartFault::LowRank { u, c } => Some((u, c)),
        PartFault::WideShift { .. } => None,
        PartFault::NoMemory => None,
    }
}

pub fn wide_shift(u: u32, v: u32, s: Triple, c: u8, value: i128) -> PartFault {
    PartFault::WideShift { u, v, s, c, value }
}
