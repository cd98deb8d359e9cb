// Arcs whose ends go to vertices that are not joined.
ghost use Rattle.std.specs.Prelude.{◌≡◌, ◌↔◌, ℕ, ◌≤◌, ◌<◌, ◌^◌, length, IsTrue, None, IfSome};
ghost use Rattle.integers.specs.Vectors.{IsWithin};
ghost use Rattle.periodic_net.specs.Graph.{IsQuotientVertex, Vertex, vertex};
ghost use Rattle.periodic_net.specs.Maps.{IsDrawnBy, IsInBox};
ghost use Rattle.quotient_graph.specs.Stars.{IsArcFrom};
ghost use Rattle.map_check.specs.Layouts.{box_size, cell_at, table_of};
ghost use Rattle.map_check.specs.Conditions.{SuitsGraphs};
ghost use Rattle.map_check.specs.Faults.{KeepsArcs};
ghost use Rattle.map_check.specs.Images.{AreSmallRows, IsCarried, IsImageOf};
ghost use Rattle.map_check.specs.Places.{IsFirstLosingCell, IsFirstLostAt, IsFirstLostOver, KeepsArc, KeepsArcsBefore};

use crate::arcs::is_joined;
use crate::boxes::{NetVertex, box_size, first_place, next_cell, vertex_of};
use crate::carrying::{CarriedArc, carry};
use crate::images::{image_in, image_of_end};
use crate::small_rows::{SmallRows, small_rows};
use crate::{Image, PeriodicMap};
use quotient_graph::{Arc, Graph};
use vecdim::SmallVector;

// Whether the ends of an arc, taken from a cell of the box, go to joined vertices; x is the image
// of its tail there.
fn is_kept<const D: usize>(
    g: &Graph<D>,
    h: &Graph<D>,
    map: &PeriodicMap,
    rows: &SmallRows,
    cell: &SmallVector,
    x: &Image,
    arc: &CarriedArc<D>,
    near: &mut usize,
) -> bool
    requires map { SuitsGraphs g.now h.now map.now.m map.now.images map.now.base }
    requires rows { AreSmallRows map.now.base rows.now }
    requires cell { IsInBox D map.now.m cell.now }
    requires image { IsImageOf D (table_of D map.now.m map.now.images map.now.base)
        (vertex arc.now.arc.from cell.now) x.now }
    requires small { IsWithin (2 ^ 61) (x.now).cell }
    requires arc { IsArcFrom g.now arc.now.arc.from arc.now.arc }
    requires carried { IsCarried map.now.m arc.now.arc.shift arc.now.parts.rest arc.now.parts.steps }
    ensures { (f : Vertex → Vertex)
        → IsDrawnBy g.now (table_of D map.now.m map.now.images map.now.base) f
        → IsTrue result ↔ KeepsArc h.now f (vertex arc.now.arc.from cell.now) arc.now.arc }
{
    g.recall();
    h.recall();
    let y = image_of_end::<D>(map, rows, cell, arc);
    is_joined(h, x, &y, near)
}

// The place of the first cell of the box, among those before `end`, from which an arc is lost; `end`
// if there is none. The image of the arc mostly stands where it does for the cell before.
fn first_losing_cell<const D: usize>(
    g: &Graph<D>,
    h: &Graph<D>,
    map: &PeriodicMap,
    rows: &SmallRows,
    u: u32,
    arc: &CarriedArc<D>,
    end: usize,
) -> usize
    requires map { SuitsGraphs g.now h.now map.now.m map.now.images map.now.base }
    requires rows { AreSmallRows map.now.base rows.now }
    requires over { IsQuotientVertex g.now u }
    requires arc { IsArcFrom g.now u arc.now.arc }
    requires carried { IsCarried map.now.m arc.now.arc.shift arc.now.parts.rest arc.now.parts.steps }
    requires end { end ≤ box_size D map.now.m }
    ensures inside { result ≤ end }
    ensures first { (f : Vertex → Vertex)
        → IsDrawnBy g.now (table_of D map.now.m map.now.images map.now.base) f
        → IsFirstLosingCell h.now D map.now.m f arc.now.arc end result }
{
    g.recall();
    h.recall();
    let first = first_place::<D>(map.m, u);
    let mut cell = SmallVector { x: 0, y: 0, z: 0 };
    let mut near = 0;
    for p in 0..end {
        let x = image_in(map.images.as_slice(), first + p);
        if !is_kept(g, h, map, rows, &cell, &x, arc, &mut near) {
            return p;
        }
        cell = next_cell::<D>(map.m, &cell);
    }
    end
}

// The place that belongs to the lesser of two numbers, and to the second if they are equal.
fn earlier(p: usize, end: usize, k: usize, lost: usize) -> usize
    ensures less { p < end → result ≡ k }
    ensures same { end ≤ p → result ≡ lost }
{
    if p < end { k } else { lost }
}

/// A vertex of the first net, and an arc of it.
#[derive(Clone, Copy)]
pub struct LostArc<const D: usize> {
    pub at: NetVertex,
    pub arc: Arc<D>,
}

// The first vertex over u in the box, and its first arc, whose ends go to vertices that are not
// joined. Each arc is carried along all cells before the one from which an arc is lost.
fn first_lost_over<const D: usize>(
    g: &Graph<D>,
    h: &Graph<D>,
    map: &PeriodicMap,
    rows: &SmallRows,
    u: u32,
) -> Option<LostArc<D>>
    requires map { SuitsGraphs g.now h.now map.now.m map.now.images map.now.base }
    requires rows { AreSmallRows map.now.base rows.now }
    requires over { IsQuotientVertex g.now u }
    ensures none { result ≡ None → (f : Vertex → Vertex)
        → IsDrawnBy g.now (table_of D map.now.m map.now.images map.now.base) f
        → (p : ℕ) → p < box_size D map.now.m → KeepsArcs g.now h.now f (vertex u (cell_at D map.now.m p)) }
    ensures some { IfSome result (λ lost. (f : Vertex → Vertex)
        → IsDrawnBy g.now (table_of D map.now.m map.now.images map.now.base) f
        → IsFirstLostOver g.now h.now D map.now.m u f lost.at lost.arc) }
{
    g.recall();
    h.recall();
    let star = g.arcs(u);
    let size = box_size(D as u8, map.m) as usize;
    let mut end = size;
    let mut lost = 0;
    for k in 0..star.len() {
        let arc = carry(map.m, &star[k]);
        let p = first_losing_cell(g, h, map, rows, u, &arc, end);
        lost = earlier(p, end, k, lost);
        end = p;
    }
    if end == size {
        return None;
    }
    Some(LostArc {
        at: vertex_of::<D>(map.m, first_place::<D>(map.m, u) + end),
        arc: star[lost],
    })
}

/// The first vertex in the box, and its first arc, whose ends go to vertices that are not joined.
pub fn first_lost<const D: usize>(
    g: &Graph<D>,
    h: &Graph<D>,
    map: &PeriodicMap,
) -> Option<LostArc<D>>
    requires map { SuitsGraphs g.now h.now map.now.m map.now.images map.now.base }
    ensures none { result ≡ None → (f : Vertex → Vertex)
        → IsDrawnBy g.now (table_of D map.now.m map.now.images map.now.base) f
        → KeepsArcsBefore g.now h.now D map.now.m f (length map.now.images) }
    ensures some { IfSome result (λ lost. (f : Vertex → Vertex)
        → IsDrawnBy g.now (table_of D map.now.m map.now.images map.now.base) f
        → IsFirstLostAt g.now h.now D map.now.m f (length map.now.images) lost.at lost.arc) }
{
    g.recall();
    h.recall();
    let rows = small_rows::<D>(map.base.as_slice());
    for v in 0..g.vertices() {
        match first_lost_over(g, h, map, &rows, v + 1) {
            Some(lost) => return Some(lost),
            None => {}
        }
    }
    None
}
