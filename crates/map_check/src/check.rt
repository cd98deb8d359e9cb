// The check of a map.
ghost use Rattle.std.specs.Prelude.{◌≡◌, ◌≢◌, ◌≤◌, ◌*◌, ◌^◌, IfOk};
ghost use Rattle.periodic_net.specs.Limits.{most_vertices};
ghost use Rattle.quotient_graph.specs.AnyGraphs.{graph_view};
ghost use Rattle.sublattice.specs.Sublattices.{base_of, index_of};
ghost use Rattle.map_check.specs.Layouts.{table_for};
ghost use Rattle.map_check.specs.Tables.{CountsAgree, DegreesAgree, HasNoDouble};
ghost use Rattle.map_check.specs.Conditions.{SuitsGraphs};
ghost use Rattle.map_check.specs.Faults.{degree_at, double_at, lost_at};
ghost use Rattle.map_check.specs.Verified.{IsTold, IsVerified};

use crate::boxes::{NetVertex, vertex_of};
use crate::copies::first_copy;
use crate::degrees::first_other_degree;
use crate::lost::first_lost;
use crate::shifts::{shift_index, vectors};
use crate::{MapFault, PeriodicMap, Verdict};
use quotient_graph::{AnyGraph, Arc, Graph, NoMemory};
use std::alloc::Global;
use vecdim::Vect;

// The fault of a doubled image.
fn doubled(w: &NetVertex) -> MapFault
    ensures { result ≡ double_at w.now }
{
    MapFault::Doubled {
        u: w.over,
        r: w.cell,
    }
}

// The fault of an image with another degree.
fn other_degree(w: &NetVertex) -> MapFault
    ensures { result ≡ degree_at w.now }
{
    MapFault::Degree {
        u: w.over,
        r: w.cell,
    }
}

// The fault of an arc that is lost.
fn lost_arc<const D: usize>(w: &NetVertex, arc: &Arc<D>) -> MapFault
    ensures { result ≡ lost_at w.now arc.now }
{
    MapFault::Arc {
        u: w.over,
        r: w.cell,
        v: arc.to,
        s: arc.shift.to_triple(),
    }
}

// The verdict on a bijection whose degrees agree.
fn verdict_on_arcs<const D: usize>(g: &Graph<D>, h: &Graph<D>, map: &PeriodicMap) -> Verdict
    requires map { SuitsGraphs g.now h.now map.now.m map.now.images map.now.base }
    requires counts { CountsAgree g.now h.now
        (table_for g.now map.now.m map.now.images map.now.base) }
    requires no_double { HasNoDouble g.now
        (table_for g.now map.now.m map.now.images map.now.base) }
    requires degrees { DegreesAgree g.now h.now
        (table_for g.now map.now.m map.now.images map.now.base) }
    ensures { IsTold g.now h.now map.now.m map.now.images map.now.base result }
{
    g.recall();
    h.recall();
    match first_lost(g, h, map) {
        Some(lost) => Verdict::No(lost_arc(&lost.at, &lost.arc)),
        None => Verdict::Yes,
    }
}

// The verdict on a bijection.
fn verdict_on_degrees<const D: usize>(g: &Graph<D>, h: &Graph<D>, map: &PeriodicMap) -> Verdict
    requires map { SuitsGraphs g.now h.now map.now.m map.now.images map.now.base }
    requires counts { CountsAgree g.now h.now
        (table_for g.now map.now.m map.now.images map.now.base) }
    requires no_double { HasNoDouble g.now
        (table_for g.now map.now.m map.now.images map.now.base) }
    ensures { IsTold g.now h.now map.now.m map.now.images map.now.base result }
{
    g.recall();
    h.recall();
    match first_other_degree(g, h, map) {
        Some(i) => Verdict::No(other_degree(&vertex_of::<D>(map.m, i))),
        None => verdict_on_arcs(g, h, map),
    }
}

// An index, taken as often as there are vertices.
fn times(n: u32, index: u128) -> u128
    requires n { n ≤ most_vertices }
    requires index { index ≤ 2 ^ 117 }
    ensures { result ≡ n * index }
{
    u128::from(n) * index
}

// The verdict if the images are as many as the vertices of the second net up to the shifts.
fn verdict_on_images<const D: usize>(
    alloc: Global,
    g: &Graph<D>,
    h: &Graph<D>,
    map: &PeriodicMap,
    rows: &[Vect<D>],
    index: u128,
) -> Result<Verdict, NoMemory>
    requires map { SuitsGraphs g.now h.now map.now.m map.now.images map.now.base }
    requires counts { CountsAgree g.now h.now
        (table_for g.now map.now.m map.now.images map.now.base) }
    requires rows { rows.now ≡ map.now.base }
    requires index { index ≡ index_of D (base_of map.now.base) }
    ensures { IfOk result (IsTold g.now h.now map.now.m map.now.images map.now.base) }
{
    g.recall();
    h.recall();
    match first_copy(
        alloc,
        h.vertices(),
        index as u64,
        rows,
        map.images.as_slice(),
    )? {
        Some(i) => Ok(Verdict::No(doubled(&vertex_of::<D>(map.m, i)))),
        None => Ok(verdict_on_degrees(g, h, map)),
    }
}

// The verdict on a map between nets of one dimension.
fn verdict_on_counts<const D: usize>(
    alloc: Global,
    g: &Graph<D>,
    h: &Graph<D>,
    map: &PeriodicMap,
) -> Result<Verdict, NoMemory>
    requires map { SuitsGraphs g.now h.now map.now.m map.now.images map.now.base }
    ensures { IfOk result (IsTold g.now h.now map.now.m map.now.images map.now.base) }
{
    g.recall();
    h.recall();
    let rows = vectors(alloc, map.base.as_slice())?;
    let index = shift_index::<D>(&rows);
    let product = times(h.vertices(), index);
    let entries = map.images.len() as u64;
    if u128::from(entries) != product {
        return Ok(Verdict::No(MapFault::Count { entries, product }));
    }
    verdict_on_images(alloc, g, h, map, &rows, index)
}

// The verdict on a map between nets of one dimension, and what follows.
fn verify_same<const D: usize>(
    alloc: Global,
    g: &Graph<D>,
    h: &Graph<D>,
    map: &PeriodicMap,
) -> Result<Verdict, NoMemory>
    requires map { SuitsGraphs g.now h.now map.now.m map.now.images map.now.base }
    ensures { IfOk result (IsVerified g.now h.now map.now.m map.now.images map.now.base) }
{
    g.recall();
    h.recall();
    verdict_on_counts(alloc, g, h, map)
}

// The verdict on a map between nets of different dimensions.
fn verify_apart<const D: usize, const E: usize>(
    g: &Graph<D>,
    h: &Graph<E>,
    map: &PeriodicMap,
) -> Verdict
    requires map { SuitsGraphs g.now h.now map.now.m map.now.images map.now.base }
    requires apart { D ≢ E }
    ensures { IsVerified g.now h.now map.now.m map.now.images map.now.base result }
{
    g.recall();
    h.recall();
    let _ = map.m;
    Verdict::No(MapFault::Dimension)
}

/// Whether a periodic map is an isomorphism of the nets, and if not, its first fault.
pub fn verify(
    alloc: Global,
    g: &AnyGraph,
    h: &AnyGraph,
    map: &PeriodicMap,
) -> Result<Verdict, NoMemory>
    requires { SuitsGraphs (graph_view g.now) (graph_view h.now) map.now.m map.now.images map.now.base }
    ensures { IfOk result (IsVerified (graph_view g.now) (graph_view h.now)
        map.now.m map.now.images map.now.base) }
{
    match (g, h) {
        (AnyGraph::Flat(g), AnyGraph::Flat(h)) => verify_same(alloc, g, h, map),
        (AnyGraph::Space(g), AnyGraph::Space(h)) => verify_same(alloc, g, h, map),
        (AnyGraph::Flat(g), AnyGraph::Space(h)) => Ok(verify_apart(g, h, map)),
        (AnyGraph::Space(g), AnyGraph::Flat(h)) => Ok(verify_apart(g, h, map)),
    }
}
