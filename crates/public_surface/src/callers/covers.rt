// A graph on a larger cell.
ghost use Rattle.net_cover.specs.Cells.{IsWritten, cell_view};

use net_cover::{Cell, CoverFault, cover};
use quotient_graph::AnyGraph;
use std::alloc::Global;
use vecdim::Triple;

pub fn cell(dim: u8, a: Triple, b: Triple, c: Triple) -> Cell
    requires { IsWritten (cell_view dim a b c) }
{
    Cell { dim, a, b, c }
}

pub fn covered(alloc: Global, g: &AnyGraph, cell: &Cell) -> Result<AnyGraph, CoverFault> {
    cover(alloc, g, cell)
}

pub fn has_room(fault: CoverFault) -> bool {
    match fault {
        CoverFault::CellDimension | CoverFault::CellRank | CoverFault::NoMemory => true,
        CoverFault::CoverVertices { count: _ }
        | CoverFault::CoverEdges { count: _ }
        | CoverFault::CoverShift { value: _ } => false,
    }
}
