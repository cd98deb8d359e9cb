// Maps between nets that are given: which ones can be checked, and their text.
use super::{PCU, graph_in, net_in};
use map_check::{BaseRows, Image, Images, NoMemory, PeriodicMap, fits};
use net_certificate::maps_text;
use quotient_graph::AnyGraph;
use std::alloc::Global;
use std::test::Fail;
use vecdim::Triple;

// Whether the map can be checked that moves the cubic net by so many cells.
fn can_move(alloc: Global, cubic: &AnyGraph, x: i128) -> Result<bool, NoMemory> {
    let image = Image {
        v: 1,
        t: Triple { x, y: 0, z: 0 },
    };
    let rows = [
        Triple { x: 1, y: 0, z: 0 },
        Triple { x: 0, y: 1, z: 0 },
        Triple { x: 0, y: 0, z: 1 },
    ];
    let images = Images::from_slice(alloc, &[image])?;
    let base = BaseRows::from_slice(alloc, &rows)?;
    let map = PeriodicMap { m: 1, images, base };
    Ok(fits(cubic, cubic, &map))
}

// No image may be past 2^38 cells.
#[test]
fn greatest_move(rt: HostRuntime) -> Result<(), Fail> {
    let cubic = graph_in(rt.alloc(), PCU)?;
    for (x, wanted) in [(274_877_906_944, true), (274_877_906_945, false)] {
        assert_eq!(rt; can_move(rt.alloc(), &cubic, x), Ok(wanted));
    }
    Ok(())
}

const DOUBLED: &str =
    "PERIODIC_GRAPH\nEDGES\n1 1 0 0 1\n1 1 0 1 0\n1 2 -1 0 0\n1 2 0 0 0\n2 2 0 0 1\n2 2 0 1 0\nEND\n";

// Two vertices of the cubic net in a cell go to one vertex in two cells.
const WRITTEN: &str =
    "net_maps 1\ngraph 3 2 6\nedge 1 1 0 0 1\nedge 1 1 0 1 0\nedge 1 2 -1 0 0\nedge 1 2 0 0 0\nedge 2 2 0 0 1\nedge 2 2 0 1 0\npair 2 map\ngraph 3 1 3\nedge 1 1 0 0 1\nedge 1 1 0 1 0\nedge 1 1 1 0 0\nperiod 1\nimage 1 0 0 0 1 0 0 0\nimage 2 0 0 0 1 1 0 0\nbase 2 0 0\nbase 0 1 0\nbase 0 0 1\nend\n";

#[test]
fn texts_of_nets(rt: HostRuntime) -> Result<(), Fail> {
    let alloc = rt.alloc();
    let mut nets = Vec::new(alloc);
    for text in [DOUBLED, PCU] {
        nets.push(net_in(alloc, text)?)?;
    }
    assert_eq!(rt; nets.len(), 2);
    let written = maps_text(alloc, nets.as_slice())?;
    assert_eq!(rt; written.as_slice(), WRITTEN.as_bytes());
    Ok(())
}
