// The parts of a net, as graphs of their own.
use super::graph_in;
use net_components::{Part, components};
use quotient_graph::AnyGraph;
use std::test::Fail;
use vecdim::Triple;

// Closed walks by (1, 1) and (0, 2).
const SKEW: &str = "PERIODIC_GRAPH\nEDGES\n1 2 0 1\n1 2 1 2\n1 1 0 2\nEND\n";

// The shift of an edge in the graph of a part of dimension 2.
fn flat_shift(part: &Part, i: usize) -> Option<(i32, i32)> {
    match &part.graph {
        AnyGraph::Flat(graph) => graph
            .edges()
            .get(i)
            .map(|edge| (edge.shift.x, edge.shift.y)),
        AnyGraph::Space(_) => None,
    }
}

#[test]
fn a_lattice_askew(rt: HostRuntime) -> Result<(), Fail> {
    let alloc = rt.alloc();
    let parts = components(alloc, &graph_in(alloc, SKEW)?).map_err(|_| "no parts")?;
    assert_eq!(rt; parts.len(), 1);
    for part in &parts {
        assert_eq!(rt; part.vertices.as_slice(), [1, 2].as_slice());
        assert_eq!(rt; part.copies, 2);
        let rows = [Triple { x: 1, y: 1, z: 0 }, Triple { x: 0, y: 2, z: 0 }];
        assert_eq!(rt; part.basis.as_slice(), rows.as_slice());
        assert_eq!(rt; flat_shift(part, 0), Some((0, 1)));
        assert_eq!(rt; flat_shift(part, 1), Some((0, 0)));
        assert_eq!(rt; flat_shift(part, 2), Some((1, 0)));
    }
    Ok(())
}
