// Images with another number of arcs than their vertices.
ghost use Rattle.std.specs.Prelude.{◌≡◌, ◌↔◌, ◌<◌, length, IsTrue, MatchOption};
ghost use Rattle.periodic_net.specs.Graph.{arcs_from, IsQuotientVertex};
ghost use Rattle.map_check.specs.Conditions.{SuitsGraphs};
ghost use Rattle.map_check.specs.Places.{HasOtherDegreeAt, HoldsNowhere, IsFirstPlace};

use crate::PeriodicMap;
use crate::boxes::vertex_of;
use crate::images::image_in;
use quotient_graph::Graph;

// The number of arcs of a vertex.
fn degree<const D: usize>(g: &Graph<D>, u: u32) -> usize
    requires { IsQuotientVertex g.now u }
    ensures { result ≡ length (arcs_from g.now u) }
{
    g.arcs(u).len()
}

// Whether the image at a place has another number of arcs than the vertex there.
fn has_other_degree<const D: usize>(g: &Graph<D>, h: &Graph<D>, map: &PeriodicMap, i: usize) -> bool
    requires map { SuitsGraphs g.now h.now map.now.m map.now.images map.now.base }
    requires inside { i < length map.now.images }
    ensures { IsTrue result ↔ HasOtherDegreeAt g.now h.now D map.now.m map.now.images i }
{
    g.recall();
    h.recall();
    let w = vertex_of::<D>(map.m, i);
    let image = image_in(map.images.as_slice(), i);
    degree(g, w.over) != degree(h, image.v)
}

/// The first place at which it has.
pub fn first_other_degree<const D: usize>(
    g: &Graph<D>,
    h: &Graph<D>,
    map: &PeriodicMap,
) -> Option<usize>
    requires map { SuitsGraphs g.now h.now map.now.m map.now.images map.now.base }
    ensures { MatchOption result
        (HoldsNowhere (HasOtherDegreeAt g.now h.now D map.now.m map.now.images)
        (length map.now.images))
        (IsFirstPlace (HasOtherDegreeAt g.now h.now D map.now.m map.now.images)
        (length map.now.images)) }
{
    for i in 0..map.images.len() {
        if has_other_degree(g, h, map, i) {
            return Some(i);
        }
    }
    None
}
