// The images of the cells.
ghost use Rattle.std.specs.Prelude.{IfOk};
ghost use Rattle.integers.specs.Vectors.{IsWithin};
ghost use Rattle.standard_map.specs.Search.{AreEnds};
ghost use Rattle.standard_map.specs.Sides.{HaveOneKey};
ghost use Rattle.standard_map.specs.CellBounds.{most_cell};
ghost use Rattle.standard_map.specs.Turns.{AreCarried, AreImageCells};

use crate::closed::{Carried, independent};
use crate::turns::turns;
use crate::{Cells, End, NoMemory, Side, cells_of};
use std::alloc::Global;

// The images of the cells, from those of independent shifts.
fn cells_by<const D: usize>(here: &Side<'_, D>, there: &Side<'_, D>, closed: &Carried) -> Cells
    requires one_key { HaveOneKey here.now there.now }
    requires carried { AreCarried here.now there.now closed.now.shifts closed.now.images }
    ensures cells { AreImageCells here.now there.now result }
    ensures first { IsWithin most_cell result.first }
    ensures second { IsWithin most_cell result.second }
    ensures third { IsWithin most_cell result.third }
{
    here.recall();
    there.recall();
    cells_of(&closed.shifts, &closed.images)
}

/// The images of the cells under the standard map, from ends over all vertices.
pub fn image_cells<const D: usize>(
    alloc: Global,
    here: &Side<'_, D>,
    there: &Side<'_, D>,
    ends: &[End<D>],
) -> Result<Cells, NoMemory>
    requires one_key { HaveOneKey here.now there.now }
    requires ends { AreEnds here.now there.now ends.now }
    // The images of the unit cells next to cell 0, under the standard map.
    ensures cells { IfOk result (AreImageCells here.now there.now) }
    // Each has parts up to the limit of a cell.
    ensures first { IfOk result (λ C. IsWithin most_cell C.first) }
    ensures second { IfOk result (λ C. IsWithin most_cell C.second) }
    ensures third { IfOk result (λ C. IsWithin most_cell C.third) }
{
    here.graph().recall();
    let found = turns(alloc, here, there, ends)?;
    Ok(cells_by(here, there, &independent(&found)))
}
