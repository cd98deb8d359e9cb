// The sizes of shells.
ghost use Rattle.std.specs.Prelude.{◌≡◌, [], IfOk};
ghost use Rattle.periodic_net.specs.Correspondence.{IsClass};
ghost use Rattle.coordination.specs.Sequences.{AreShellsOfClass};

use crate::NoMemory;
use crate::point::Point;
use crate::reach::reach;
use crate::search::next_shell;
use indexmap::IndexSet;
use quotient_graph::Classes;
use std::alloc::Global;

/// So many shells are listed.
pub const MOST_SHELLS: u32 = 10;

/// So many vertices they have together at most.
pub const MOST_IN_SHELLS: usize = 20_000;

// The sizes, with a set for the points that are found, which is empty at first.
fn sizes_with<const D: usize>(
    alloc: Global,
    c: &Classes<D>,
    class: u32,
    found: &mut IndexSet<Point>,
) -> Result<Vec<u32>, NoMemory>
    requires class { IsClass c.now.classes class }
    requires empty { found.old.keys ≡ [] }
    ensures sizes { IfOk result (λ sizes. AreShellsOfClass c.now.classes class sizes.items) }
{
    let net = c.net();
    net.recall();
    let mut shell = Vec::new(alloc);
    reach(
        found,
        &mut shell,
        Point {
            class,
            x: 0,
            y: 0,
            z: 0,
        },
    )?;
    let mut sizes = Vec::with_capacity(alloc, MOST_SHELLS as usize)?;
    let mut room = MOST_IN_SHELLS;
    for _k in 0..MOST_SHELLS {
        let next = next_shell(alloc, net, &shell, found, room)?;
        if next.len() > room {
            return Ok(sizes);
        }
        room -= next.len();
        sizes.push(next.len() as u32)?;
        shell = next;
    }
    Ok(sizes)
}

/// The sizes of shells 1, 2 and so on of a vertex of a class: of the first ten, or of those
/// before the first with which their total passes 20,000.
pub fn shells<const D: usize>(
    alloc: Global,
    c: &Classes<D>,
    class: u32,
) -> Result<Vec<u32>, NoMemory>
    requires class { IsClass c.now.classes class }
    // The shells of the infinite net, by the least number of edges from the vertex.
    ensures sizes { IfOk result (λ sizes. AreShellsOfClass c.now.classes class sizes.items) }
{
    let mut found = IndexSet::new(alloc);
    sizes_with(alloc, c, class, &mut found)
}
