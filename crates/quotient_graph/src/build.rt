// The arcs from each vertex, made from the edges.
ghost use Rattle.std.specs.Prelude.{◌≡◌, ◌<◌, ◌≤◌, ◌++◌, [], All, filter, length, map, IfOk, OnOk};
ghost use Rattle.periodic_net.specs.Graph.{reverse_of};
ghost use Rattle.quotient_graph.specs.Building.{back_and_forth, with_arc, HaveArcs, IsSortedFrom, AreSortedFrom, EdgeFits, AreStars, is_spelled, spelled_in};

use crate::{Arc, NoMemory};
use smallvec::SmallVec;
use std::alloc::Global;

/// The arcs from a vertex; up to twelve need no allocation.
pub type Star<const D: usize> = SmallVec<Arc<D>, 12>;

fn sort_star<const D: usize>(alloc: Global, star: &mut Star<D>) -> Result<(), NoMemory>
    ensures { OnOk result (IsSortedFrom star.old.items star.new.items) }
{
    star.as_mut_slice().sort(alloc)
}

// Puts an arc last in the list of its tail.
fn push_arc<const D: usize>(stars: &mut [Star<D>], arc: Arc<D>) -> Result<(), NoMemory>
    requires low { 1 ≤ arc.from }
    requires high { arc.from ≤ length stars.old }
    ensures { OnOk result (
        map (λ s. s.items) stars.new ≡ with_arc (map (λ s. s.items) stars.old) arc.entry) }
{
    stars[arc.from as usize - 1].push(arc)?;
    Ok(())
}

// A list for each of n vertices, without arcs.
fn empty_stars<const D: usize>(alloc: Global, n: usize) -> Result<Vec<Star<D>>, NoMemory>
    ensures { IfOk result (λ stars. HaveArcs n (map (λ s. s.items) stars.items) []) }
{
    let mut stars = Vec::with_capacity(alloc, n)?;
    for _ in 0..n {
        stars.push(SmallVec::new(alloc))?;
    }
    Ok(stars)
}

// Puts the reverse of each edge into the list of its tail.
fn push_back<const D: usize>(stars: &mut [Star<D>], edges: &[Arc<D>]) -> Result<(), NoMemory>
    requires edges { All (EdgeFits (length stars.old)) edges.now }
    requires none { HaveArcs (length stars.old) (map (λ s. s.items) stars.old) [] }
    ensures { OnOk result (
        HaveArcs (length stars.old) (map (λ s. s.items) stars.new) (map reverse_of edges.now)) }
{
    for edge in edges {
        push_arc(stars, edge.reversed())?;
    }
    Ok(())
}

// Puts each edge into the list of its tail, after the reverses.
fn push_forth<const D: usize>(stars: &mut [Star<D>], edges: &[Arc<D>]) -> Result<(), NoMemory>
    requires edges { All (EdgeFits (length stars.old)) edges.now }
    requires back { HaveArcs (length stars.old) (map (λ s. s.items) stars.old)
        (map reverse_of edges.now) }
    ensures { OnOk result (HaveArcs (length stars.old) (map (λ s. s.items) stars.new)
        (back_and_forth edges.now)) }
{
    for edge in edges {
        push_arc(stars, *edge)?;
    }
    Ok(())
}

fn sort_stars<const D: usize>(alloc: Global, stars: &mut [Star<D>]) -> Result<(), NoMemory>
    ensures { OnOk result (
        AreSortedFrom (map (λ s. s.items) stars.old) (map (λ s. s.items) stars.new)) }
{
    for star in stars.iter_mut() {
        sort_star(alloc, star)?;
    }
    Ok(())
}

// Fills empty lists with the arcs from each vertex, in rising order. The reverses go in first: most
// arcs to lesser vertices then stand before the others, as they do in the end.
fn fill_stars<const D: usize>(
    alloc: Global,
    stars: &mut [Star<D>],
    edges: &[Arc<D>],
) -> Result<(), NoMemory>
    requires edges { All (EdgeFits (length stars.old)) edges.now }
    requires none { HaveArcs (length stars.old) (map (λ s. s.items) stars.old) [] }
    ensures { OnOk result (
        AreStars (length stars.old) edges.now (map (λ s. s.items) stars.new)) }
{
    push_back(stars, edges)?;
    push_forth(stars, edges)?;
    sort_stars(alloc, stars)?;
    Ok(())
}

/// The arcs from each of n vertices, in rising order.
pub fn stars_of<const D: usize>(
    alloc: Global,
    n: usize,
    edges: &[Arc<D>],
) -> Result<Vec<Star<D>>, NoMemory>
    requires { All (EdgeFits n) edges.now }
    ensures { IfOk result (λ stars. AreStars n edges.now (map (λ s. s.items) stars.items)) }
{
    let mut stars = empty_stars(alloc, n)?;
    fill_stars(alloc, &mut stars, edges)?;
    Ok(stars)
}

// Puts those arcs of a star that spell their edges last in the list.
fn push_spelled<const D: usize>(edges: &mut Vec<Arc<D>>, star: &[Arc<D>]) -> Result<(), NoMemory>
    ensures { OnOk result (edges.new.items ≡ edges.old.items ++ filter is_spelled star.now) }
{
    for arc in star {
        if arc.is_normal() {
            edges.push(*arc)?;
        }
    }
    Ok(())
}

/// The edges of a graph, read off its stars in their order; they take the room of another list.
pub fn edges_in<const D: usize>(
    stars: &[Star<D>],
    room: Vec<Arc<D>>,
) -> Result<Vec<Arc<D>>, NoMemory>
    ensures { IfOk result (λ edges. edges.items ≡ spelled_in (map (λ s. s.items) stars.now)) }
{
    let mut edges = room;
    edges.clear();
    for star in stars {
        push_spelled(&mut edges, star.as_slice())?;
    }
    Ok(edges)
}
