// Graphs in memory, and the types that the layers above share.
ghost use Rattle.std.specs.Prelude.{◌≤ℤ◌, ◌∷◌, pos, map, option_to_list};
ghost use Rattle.periodic_net.specs.Correspondence.{IsClass};
ghost use Rattle.periodic_net.specs.Graph.{IsConnected, IsQuotientVertex};
ghost use Rattle.periodic_net.specs.Placement.{HasNoCollision, IsNormalPlacement, IsWithinLimits};
ghost use Rattle.cgd_read.specs.Graphs.{IsReadGraph};
ghost use Rattle.cgd_read.specs.Views.{raw_view};
ghost use Rattle.quotient_graph.specs.ClassNets.{class_graph, IsFrameList, IsNetInMemory};
ghost use Rattle.quotient_graph.specs.EdgeLists.{AreEdgesOfGraph};
ghost use Rattle.quotient_graph.specs.NetClasses.{AreClassesOf};
ghost use Rattle.quotient_graph.specs.PlacedNets.{placement_of};

use cgd_read::RawGraph;
use quotient_graph::{
    AnyGraph, Arc, ClassArc, Classes, Frame, Graph, Key, NoMemory, Placed, RawEdge, Split, Stable,
    from_edges, from_raw,
};
use std::alloc::Global;
use std::cmp::Ordering;
use vecdim::{Shift, Triple, Vect};

pub fn graph_read(alloc: Global, raw: &RawGraph<'_>) -> Result<AnyGraph, NoMemory>
    requires { IsReadGraph (raw_view raw.now) }
{
    from_raw(alloc, raw)
}

pub fn graph_with(alloc: Global, dim: u8, n: u32, edges: &[RawEdge]) -> Result<AnyGraph, NoMemory>
    requires { AreEdgesOfGraph dim n edges.now }
{
    from_edges(alloc, dim, n, edges)
}

pub fn flat(graph: AnyGraph) -> Result<Graph<2>, Graph<3>> {
    match graph {
        AnyGraph::Flat(graph) => Ok(graph),
        AnyGraph::Space(graph) => Err(graph),
    }
}

pub fn arc_of<const D: usize>(from: u32, to: u32, shift: Shift<D>) -> Arc<D> {
    Arc { from, to, shift }
}

pub fn vertices<const D: usize>(graph: &Graph<D>) -> u32 {
    graph.vertices()
}

pub fn edge_count<const D: usize>(graph: &Graph<D>) -> u32 {
    graph.edge_count()
}

pub fn arcs<const D: usize>(graph: &Graph<D>, u: u32) -> &[Arc<D>]
    requires { IsQuotientVertex graph.now u }
{
    graph.arcs(u)
}

pub fn copy<const D: usize>(graph: &Graph<D>) -> Result<Graph<D>, NoMemory> {
    graph.copy()
}

pub fn split_parts(split: &Split) -> (u8, u64, Triple, Option<i64>) {
    (
        split.dim,
        split.q,
        split.c,
        split.h.as_slice().get(0).copied(),
    )
}

pub fn placed_from<const D: usize>(graph: Graph<D>, d0: i128, at: Vec<Vect<D>>) -> Placed<D>
    requires positive { pos 1 ≤ℤ d0 }
    requires connected { IsConnected graph }
    requires normal { IsNormalPlacement graph (placement_of d0 at.items) }
    requires limits { IsWithinLimits graph (placement_of d0 at.items) }
{
    Placed::from_parts(graph, d0, at)
}

pub fn placed_graph<const D: usize>(placed: &Placed<D>) -> &Graph<D> {
    placed.graph()
}

pub fn placed_unit<const D: usize>(placed: &Placed<D>) -> i128 {
    placed.d0()
}

pub fn placed_at<const D: usize>(placed: &Placed<D>, u: u32) -> Vect<D>
    requires { IsQuotientVertex placed.now.graph u }
{
    placed.at(u)
}

pub fn stable_from<const D: usize>(placed: Placed<D>) -> Stable<D>
    requires { HasNoCollision placed.graph placed.placement }
{
    Stable::from_parts(placed)
}

pub fn stable_placed<const D: usize>(stable: &Stable<D>) -> &Placed<D> {
    stable.placed()
}

pub fn class_arc<const D: usize>(from: u32, to: u32, vector: Vect<D>) -> ClassArc<D> {
    ClassArc { from, to, vector }
}

pub fn classes_from<const D: usize>(
    graph: Graph<D>,
    class_of: Vec<u32>,
    arcs: Vec<Vec<ClassArc<D>>>,
    translations: Vec<Vect<D>>,
) -> Classes<D>
    requires net { IsNetInMemory D (map (λ s. s.items) arcs.items) }
    requires classes { AreClassesOf graph class_of.items
        (class_graph D (map (λ s. s.items) arcs.items)) translations.items }
{
    Classes::from_parts(graph, class_of, arcs, translations)
}

pub fn class_count<const D: usize>(classes: &Classes<D>) -> u32 {
    classes.count()
}

pub fn class_of<const D: usize>(classes: &Classes<D>, u: u32) -> u32
    requires { IsQuotientVertex classes.now.graph u }
{
    classes.class_of(u)
}

pub fn class_arcs<const D: usize>(classes: &Classes<D>, c: u32) -> &[ClassArc<D>]
    requires { IsClass classes.now.classes c }
{
    classes.arcs(c)
}

pub fn all_arcs<const D: usize>(classes: &Classes<D>) -> u32 {
    classes.all_arcs()
}

pub fn translations<const D: usize>(classes: &Classes<D>) -> &[Vect<D>] {
    classes.translations()
}

pub fn frame_of<const D: usize>(
    first: ClassArc<D>,
    second: ClassArc<D>,
    third: Option<ClassArc<D>>,
) -> Frame<D>
    requires { IsFrameList D (first ∷ second ∷ option_to_list third) }
{
    Frame::from_parts(first, second, third)
}

pub fn frame_arcs<const D: usize>(
    frame: &Frame<D>,
) -> (ClassArc<D>, ClassArc<D>, Option<ClassArc<D>>) {
    (frame.first, frame.second, frame.third)
}

pub fn key_of(numbers: Vec<i128>) -> Key {
    Key::from_parts(numbers)
}

pub fn key_numbers(key: &Key) -> &[i128] {
    key.numbers()
}

pub fn key_order(key: &Key, other: &Key) -> Ordering {
    key.cmp(other)
}
