// The sizes of shells, counted in a box.
ghost use Rattle.std.specs.Prelude.{◌≡◌, ◌<◌, ◌≤◌, ◌+◌, [], length, IfOk, OnOk, IfSome};
ghost use Rattle.integers.specs.Vectors.{zero_vector};
ghost use Rattle.periodic_net.specs.Graph.{IsGraph, vertex};
ghost use Rattle.periodic_net.specs.Limits.{most_vertices};
ghost use Rattle.coordination.specs.Boxes.{IsBoxOf};
ghost use Rattle.coordination.specs.BoxSearches.{AreFirstLists, AreListsOf, AreShellKinds, AreShellsInBox, IsStart};
ghost use Rattle.coordination.specs.Marks.{AreMarked, IsUnmarked};
ghost use Rattle.coordination.specs.Sequences.{AreShellsOf};

use crate::box_search::next_shell;
use crate::count::{MOST_IN_SHELLS, MOST_SHELLS};
use crate::earlier::of_earlier;
use crate::marks::{mark, unmark};
use crate::net_box::{NetBox, box_of};
use crate::spot::Spot;
use crate::{NoMemory, Sequences};
use key_theory::Kinds;
use primitive_cell::Primitive;
use std::alloc::Global;

// The sizes of shells 1, 2 and so on of a vertex of the box, as `shells` has them for a class.
fn shells_in(
    alloc: Global,
    net_box: &NetBox,
    marks: &mut [bool],
    found: &mut Vec<Spot>,
    over: u32,
) -> Result<Vec<u32>, NoMemory>
    requires start { IsStart net_box.now over }
    requires size { length marks.old ≡ net_box.now.size }
    requires unmarked { IsUnmarked marks.old }
    requires empty { found.old.items ≡ [] }
    ensures sizes { IfOk result (λ sizes. AreShellsInBox net_box.now over sizes.items) }
    ensures marked { OnOk result (AreMarked marks.new found.new.items) }
{
    let start = Spot {
        over,
        at: net_box.origin + (over - 1),
    };
    mark(marks, found, start)?;
    let mut sizes = Vec::with_capacity(alloc, MOST_SHELLS as usize)?;
    let mut room = MOST_IN_SHELLS;
    let mut begin = 0;
    for _k in 0..MOST_SHELLS {
        let end = found.len();
        next_shell(net_box, marks, found, begin, room)?;
        let size = found.len() - end;
        if size > room {
            return Ok(sizes);
        }
        room -= size;
        sizes.push(size as u32)?;
        begin = end;
    }
    Ok(sizes)
}

// The sizes of the shells of the next vertex in cell 0, if need be counted in a box with these
// marks.
fn next_sizes<const D: usize>(
    alloc: Global,
    cell: &Primitive<D>,
    net_box: &NetBox,
    marks: &mut [bool],
    found: &mut Vec<Spot>,
    kinds: &Kinds,
    lists: &Sequences,
) -> Result<Vec<u32>, NoMemory>
    requires few { cell.now.graph.vertices ≤ most_vertices }
    requires net_box { IsBoxOf cell.now.graph net_box.now }
    requires size { length marks.old ≡ net_box.now.size }
    requires unmarked { IsUnmarked marks.old }
    requires empty { found.old.items ≡ [] }
    requires kinds { AreShellKinds cell.now.graph kinds.now }
    requires lists { AreFirstLists cell.now.graph (length lists.now) lists.now }
    requires more { length lists.now < cell.now.graph.vertices }
    ensures sizes { IfOk result (λ sizes. AreShellsOf cell.now.graph
        (vertex (length lists.now + 1) zero_vector) sizes.items) }
    ensures unmarked { OnOk result (IsUnmarked marks.new) }
    ensures empty { OnOk result (found.new.items ≡ []) }
{
    let vertex = lists.len() as u32 + 1;
    if let Some(sizes) = of_earlier(alloc, kinds, lists, vertex)? {
        return Ok(sizes);
    }
    let sizes = shells_in(alloc, net_box, marks, found, vertex)?;
    unmark(marks, found);
    Ok(sizes)
}

// The sizes of the shells of each vertex in cell 0, counted in a box with these marks.
fn lists_in<const D: usize>(
    alloc: Global,
    cell: &Primitive<D>,
    net_box: &NetBox,
    marks: &mut [bool],
    kinds: &Kinds,
) -> Result<Sequences, NoMemory>
    requires few { cell.now.graph.vertices ≤ most_vertices }
    requires net_box { IsBoxOf cell.now.graph net_box.now }
    requires size { length marks.old ≡ net_box.now.size }
    requires unmarked { IsUnmarked marks.old }
    requires kinds { AreShellKinds cell.now.graph kinds.now }
    ensures { IfOk result (AreListsOf cell.now.graph) }
{
    let mut found = Vec::new(alloc);
    let mut lists = Sequences::new(alloc);
    for _before in 0..cell.vertices {
        let sizes = next_sizes(alloc, cell, net_box, marks, &mut found, kinds, &lists)?;
        lists.push(sizes)?;
    }
    Ok(lists)
}

/// The sizes of the shells of each vertex in cell 0, if the box of the net is not too large. They
/// are counted once for each kind.
pub fn box_sequences<const D: usize>(
    alloc: Global,
    cell: &Primitive<D>,
    kinds: &Kinds,
) -> Result<Option<Sequences>, NoMemory>
    requires graph { IsGraph cell.now.graph }
    requires few { cell.now.graph.vertices ≤ most_vertices }
    requires kinds { AreShellKinds cell.now.graph kinds.now }
    ensures { IfOk result (λ found. IfSome found (AreListsOf cell.now.graph)) }
{
    let Some(net_box) = box_of(alloc, cell)? else {
        return Ok(None);
    };
    let mut marks = vec![in alloc; false; net_box.size]?;
    Ok(Some(lists_in(alloc, cell, &net_box, &mut marks, kinds)?))
}
