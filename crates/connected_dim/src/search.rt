// The search of a quotient graph from a vertex, with the shift of the chosen walk to each vertex
// found.
ghost use Rattle.std.specs.Prelude.{◌≡◌, ◌<◌, ◌≤◌, ◌+◌, length, OnOk, Some, ◌-◌, ◌*◌, IsSome, IfOk, slice_index};
ghost use Rattle.integers.specs.Vectors.{IsWithin};
ghost use Rattle.connected_dim.specs.Paths.{IsSettledTo, SettlesNext, AreChosenWalks};
ghost use Rattle.connected_dim.specs.Search.{missing_count, found_with, order_with, IsSearch, Expands, IsSearchedTo, AreWalks, none_found, walk_to};
ghost use Rattle.periodic_net.specs.Graph.{IsGraph, IsQuotientVertex};
ghost use Rattle.periodic_net.specs.Limits.{IsSmall, most_shift, most_vertices};

use crate::NoMemory;
use quotient_graph::Graph;
use std::alloc::Global;
use vecdim::Shift;

// Vertex u is found by a walk of this shift, unless it was found before.
fn find<const D: usize>(
    found: &mut [Option<Shift<D>>],
    order: &mut Vec<u32>,
    u: u32,
    walk: Shift<D>,
) -> Result<(), NoMemory>
    requires low { 1 ≤ u }
    requires high { u ≤ length found.old }
    ensures found { OnOk result (found.new ≡ found_with found.old u walk.entry) }
    ensures order { OnOk result (order.new.items ≡ order_with found.old order.old.items u) }
    ensures together { OnOk result
        (missing_count found.new + length order.new.items
        ≡ missing_count found.old + length order.old.items) }
{
    let at = u as usize - 1;
    if found[at].is_none() {
        found[at] = Some(walk);
        order.push(u)?;
    }
    Ok(())
}

// Finds the heads of the arcs from a vertex that was found.
fn expand<const D: usize>(
    g: &Graph<D>,
    found: &mut [Option<Shift<D>>],
    order: &mut Vec<u32>,
    start: u32,
    u: u32,
    walk: &Shift<D>,
) -> Result<(), NoMemory>
    requires search { IsSearch g.now start found.old order.old.items }
    requires vertex { IsQuotientVertex g.now u }
    requires known { walk_to found.old u ≡ Some walk.now }
    requires near { IsWithin (most_shift * (length order.old.items - 1)) walk.now }
    requires some { 1 ≤ length order.old.items }
    requires few { length order.old.items ≤ most_vertices }
    ensures expands { OnOk result
        (Expands g.now start found.old order.old.items u found.new order.new.items) }
    ensures paths { OnOk result
        (SettlesNext g.now start found.old order.old.items u found.new order.new.items) }
{
    for arc in g.arcs(u) {
        find(found, order, arc.to, walk.plus(&arc.shift))?;
    }
    Ok(())
}

// The vertex at a place of the order, and the walk that was found to it.
fn walk_at<const D: usize>(found: &[Option<Shift<D>>], order: &[u32], i: usize) -> (u32, Shift<D>)
    requires place { i < length order.now }
    requires vertex { (1 ≤ slice_index order.now i) × (slice_index order.now i ≤ length found.now) }
    requires found { IsSome (walk_to found.now (slice_index order.now i)) }
    ensures vertex { result.0 ≡ slice_index order.now i }
    ensures walk { walk_to found.now result.0 ≡ Some result.1 }
{
    let u = order[i];
    match found[u as usize - 1] {
        Some(walk) => (u, walk),
        None => unreachable!(),
    }
}

// Finds all that can be found.
fn search<const D: usize>(
    g: &Graph<D>,
    found: &mut [Option<Shift<D>>],
    order: &mut Vec<u32>,
    start: u32,
) -> Result<(), NoMemory>
    requires searched { IsSearchedTo g.now start found.old order.old.items 0 }
    requires settled { IsSettledTo g.now start found.old order.old.items 0 }
    requires small { g.now.vertices ≤ most_vertices }
    ensures searched { OnOk result
        (IsSearchedTo g.now start found.new order.new.items (length order.new.items)) }
    ensures chosen { OnOk result (AreChosenWalks g.now start found.new) }
{
    let mut i = 0;
    while i < order.len() {
        let (u, walk) = walk_at(found, order, i);
        expand(g, found, order, start, u, &walk)?;
        i += 1;
    }
    Ok(())
}

// The walks from a vertex, if nothing is found yet.
fn find_walks<const D: usize>(
    alloc: Global,
    g: &Graph<D>,
    start: u32,
    found: &mut [Option<Shift<D>>],
) -> Result<(), NoMemory>
    requires start { IsQuotientVertex g.now start }
    requires none { found.old ≡ none_found g.now.vertices }
    ensures walks { OnOk result (AreWalks g.now start found.new) }
    ensures chosen { OnOk result (AreChosenWalks g.now start found.new) }
{
    let n = g.vertices();
    let mut order = Vec::with_capacity(alloc, n as usize)?;
    let nowhere = Shift { x: 0, y: 0, z: 0 };
    find(found, &mut order, start, nowhere)?;
    search(g, found, &mut order, start)?;
    Ok(())
}

/// For each vertex that a walk from a vertex leads to, the shift of the chosen one.
pub fn walks<const D: usize>(
    alloc: Global,
    g: &Graph<D>,
    start: u32,
) -> Result<Vec<Option<Shift<D>>>, NoMemory>
    requires { IsQuotientVertex g.now start }
    ensures walks { IfOk result (λ found. AreWalks g.now start found.items) }
    ensures chosen { IfOk result (λ found. AreChosenWalks g.now start found.items) }
    ensures is_graph { IsGraph g.now }
    ensures small { IsSmall g.now }
{
    let mut found = vec![in alloc; None; g.vertices() as usize]?;
    find_walks(alloc, g, start, &mut found)?;
    Ok(found)
}
