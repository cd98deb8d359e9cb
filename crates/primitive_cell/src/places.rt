// The first place of each number of a list.
ghost use Rattle.std.specs.Prelude.{◌≤◌, length, IfOk};
ghost use Rattle.periodic_net.specs.Limits.{most_vertices};
ghost use Rattle.primitive_cell.specs.Places.{AreInOrder, AreFirstPlaces};

use crate::NoMemory;
use std::alloc::Global;

/// The first place of each number, if the numbers are numbered as they appear. Places are
/// counted from 1.
pub fn first_places(alloc: Global, numbers: &[u32]) -> Result<Vec<u32>, NoMemory>
    requires in_order { AreInOrder numbers.now }
    requires few { length numbers.now ≤ most_vertices }
    ensures { IfOk result (λ us. AreFirstPlaces numbers.now us.items) }
{
    let mut firsts = Vec::new(alloc);
    for (i, number) in numbers.iter().enumerate() {
        if *number as usize > firsts.len() {
            firsts.push(i as u32 + 1)?;
        }
    }
    Ok(firsts)
}
