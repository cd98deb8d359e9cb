// Periodic maps between nets, and whether they are isomorphisms.
ghost use Rattle.quotient_graph.specs.AnyGraphs.{graph_view};
ghost use Rattle.map_check.specs.Conditions.{SuitsGraphs};

use map_check::{BaseRows, Image, Images, MapFault, PeriodicMap, Verdict, verify};
use quotient_graph::{AnyGraph, NoMemory};
use std::alloc::Global;
use vecdim::Triple;

pub fn verified(
    alloc: Global,
    g: &AnyGraph,
    h: &AnyGraph,
    map: &PeriodicMap,
) -> Result<Verdict, NoMemory>
    requires { SuitsGraphs (graph_view g.now) (graph_view h.now) map.now.m map.now.images map.now.base }
{
    verify(alloc, g, h, map)
}

pub fn image(v: u32, t: Triple) -> Image {
    Image { v, t }
}

pub fn map_of(m: u32, images: Images, base: BaseRows) -> PeriodicMap {
    PeriodicMap { m, images, base }
}

pub fn refuted(verdict: Verdict) -> Option<MapFault> {
    match verdict {
        Verdict::Yes => None,
        Verdict::No(fault) => Some(fault),
    }
}
