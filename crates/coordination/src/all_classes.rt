// The sizes of the shells of all classes.
ghost use Rattle.std.specs.Prelude.{◌≡◌, ◌≤◌, ◌+◌, IfOk, length};
ghost use Rattle.periodic_net.specs.Correspondence.{IsClass};
ghost use Rattle.periodic_net.specs.Limits.{most_vertices};
ghost use Rattle.coordination.specs.Cells.{HasCell};
ghost use Rattle.key_theory.specs.Kinds.{AreKinds};
ghost use Rattle.coordination.specs.Sequences.{AreFirstSequences, AreSequencesOf, AreShellsOfClass};

use crate::NoMemory;
use crate::box_count::box_sequences;
use crate::count::shells;
use crate::earlier::of_earlier;
use key_theory::Kinds;
use lists::NumberLists;
use primitive_cell::Primitive;
use quotient_graph::Classes;
use std::alloc::Global;

/// Sizes of shells, a list for each class in the order of their numbers.
pub type Sequences = NumberLists<Vec<u32>>;

// The sizes of the shells of the next class, if need be by a search in the class graph.
fn class_sizes<const D: usize>(
    alloc: Global,
    classes: &Classes<D>,
    kinds: &Kinds,
    lists: &Sequences,
    class: u32,
) -> Result<Vec<u32>, NoMemory>
    requires class { IsClass classes.now.classes class }
    requires kinds { AreKinds classes.now.classes kinds.now }
    requires lists { AreFirstSequences classes.now.classes (length lists.now) lists.now }
    requires next { class ≡ length lists.now + 1 }
    ensures { IfOk result (λ sizes. AreShellsOfClass classes.now.classes class sizes.items) }
{
    match of_earlier(alloc, kinds, lists, class)? {
        Some(sizes) => Ok(sizes),
        None => shells(alloc, classes, class),
    }
}

// The sizes of the shells of each class, whatever the primitive graph.
fn class_sequences<const D: usize>(
    alloc: Global,
    classes: &Classes<D>,
    kinds: &Kinds,
) -> Result<Sequences, NoMemory>
    requires kinds { AreKinds classes.now.classes kinds.now }
    ensures sequences { IfOk result (AreSequencesOf classes.now.graph) }
    ensures few { IfOk result (λ lists. length lists ≤ most_vertices) }
{
    let count = classes.net().count();
    let mut lists = Sequences::new(alloc);
    for before in 0..count {
        let sizes = class_sizes(alloc, classes, kinds, &lists, before + 1)?;
        lists.push(sizes)?;
    }
    Ok(lists)
}

/// The sizes of the shells of each class, in the order of their numbers. They are counted once for
/// each kind.
pub fn sequences<const D: usize>(
    alloc: Global,
    classes: &Classes<D>,
    cell: &Primitive<D>,
    kinds: &Kinds,
) -> Result<Sequences, NoMemory>
    requires cell { HasCell classes.now cell.now }
    requires kinds { AreKinds classes.now.classes kinds.now }
    // A list for each class, by its number: the coordination sequence of each of its vertices.
    ensures sequences { IfOk result (AreSequencesOf classes.now.graph) }
    ensures few { IfOk result (λ lists. length lists ≤ most_vertices) }
{
    classes.net().recall();
    match box_sequences(alloc, cell, kinds)? {
        Some(lists) => Ok(lists),
        None => class_sequences(alloc, classes, kinds),
    }
}
