// Frames, traversals and key work.
ghost use Rattle.std.specs.Prelude.{IfSome};
ghost use Rattle.periodic_net.specs.Correspondence.{IsClass};
ghost use Rattle.key_theory.specs.Frames.{IsFrame};

use super::{HCB, graph_in};
use edge_frames::{Frames, count_work};
use least_key::settle_graph;
use net_translations::classes;
use net_traversal::{Head, KeyRow, Walker, traverse};
use quotient_graph::{AnyGraph, ClassArc, Classes, Frame, Graph};
use std::alloc::Global;
use std::test::Fail;
use vecdim::Triple;

const SRS: &str =
    "PERIODIC_GRAPH\nEDGES\n1 2 0 0 0\n1 3 0 0 0\n1 4 0 0 0\n2 3 1 0 0\n2 4 0 1 0\n3 4 0 0 1\nEND\n";

// The classes of a net.
fn classes_of<const D: usize>(alloc: Global, graph: Graph<D>) -> Option<Classes<D>> {
    let Ok(stable) = settle_graph(alloc, graph) else {
        return None;
    };
    classes(alloc, &stable).ok()
}

// The tail and the vector of an arc.
#[derive(Clone, Copy)]
struct Leg {
    from: u32,
    vector: Triple,
}

fn leg_of(from: u32, x: i128, y: i128, z: i128) -> Leg {
    Leg {
        from,
        vector: Triple { x, y, z },
    }
}

fn is_leg<const D: usize>(arc: &ClassArc<D>, leg: &Leg) -> bool {
    arc.from == leg.from && arc.vector.to_triple() == leg.vector
}

// Whether these are the arcs of a frame; in dimension 2 the last is not asked for.
fn has_legs<const D: usize>(frame: &Frame<D>, legs: &[Leg; 3]) -> bool {
    let last = match &frame.third {
        Some(third) => is_leg(third, &legs[2]),
        None => true,
    };
    last && is_leg(&frame.first, &legs[0]) && is_leg(&frame.second, &legs[1])
}

// The frame of class 1 with these arcs.
fn frame_of<const D: usize>(
    alloc: Global,
    classes: &Classes<D>,
    legs: &[Leg; 3],
) -> Option<Frame<D>>
    requires { IsClass classes.now.classes 1 }
    ensures { IfSome result (IsFrame classes.now.classes 1) }
{
    let Ok(mut frames) = Frames::new(alloc, classes, 1) else {
        return None;
    };
    while let Some(frame) = frames.next() {
        if has_legs(&frame, legs) {
            return Some(frame);
        }
    }
    None
}

// The list of start 1 and the frame of the arcs 1 to 2, 1 to 3 and 4 to 2 of the net srs is its
// key.
#[test]
fn list_of_a_frame(rt: HostRuntime) -> Result<(), Fail> {
    let AnyGraph::Space(graph) = graph_in(rt.alloc(), SRS)? else {
        return Err("graph".into());
    };
    let classes = classes_of(rt.alloc(), graph).ok_or("classes")?;
    assert!(rt; classes.count() == 4);
    let legs = [leg_of(1, 1, 1, 0), leg_of(1, -1, 0, 1), leg_of(4, 1, -2, 1)];
    let frame = frame_of(rt.alloc(), &classes, &legs).ok_or("frame")?;
    let key = traverse(rt.alloc(), &classes, 1, &frame)?;
    let wanted = [
        3, 4, 1, 1, 2, -1, -1, 0, 1, 3, 0, 1, 0, 1, 4, 1, 0, 0, 2, 3, -1, -1, -1, 2, 4, 0, 0, 1, 3,
        4, -1, 0, -1,
    ];
    assert_eq!(rt; key.numbers(), wanted.as_slice());
    Ok(())
}

// The head and the rows of a list.
fn walked<const D: usize>(
    alloc: Global,
    classes: &Classes<D>,
    frame: &Frame<D>,
) -> Option<(Head, Vec<KeyRow>)>
    requires start { IsClass classes.now.classes 1 }
    requires frame { IsFrame classes.now.classes 1 frame.now }
{
    let mut walker = Walker::new(alloc, classes, 1, frame).ok()?;
    let head = walker.head();
    let mut rows = Vec::new(alloc);
    while let Some(row) = walker.next_row() {
        rows.push(row).ok()?;
    }
    Some((head, rows))
}

fn row(i: u32, j: u32, x: i128, y: i128) -> KeyRow {
    KeyRow {
        i,
        j,
        part: Triple { x, y, z: 0 },
    }
}

// The list of the frame of two arcs of class 1 of the honeycomb net, row by row.
#[test]
fn rows_of_a_frame(rt: HostRuntime) -> Result<(), Fail> {
    let AnyGraph::Flat(graph) = graph_in(rt.alloc(), HCB)? else {
        return Err("graph".into());
    };
    let classes = classes_of(rt.alloc(), graph).ok_or("classes")?;
    assert!(rt; classes.count() == 2);
    let legs = [leg_of(1, 2, -1, 0), leg_of(1, -1, 2, 0), leg_of(1, 0, 0, 0)];
    let frame = frame_of(rt.alloc(), &classes, &legs).ok_or("frame")?;
    let (head, rows) = walked(rt.alloc(), &classes, &frame).ok_or("walk")?;
    assert_eq!(rt; (head.dim, head.classes, head.q), (2, 2, 1));
    let wanted = [row(1, 2, -1, -1), row(1, 2, 0, 1), row(1, 2, 1, 0)];
    assert_eq!(rt; rows.as_slice(), wanted.as_slice());
    Ok(())
}

// The key work of the first net of a text.
fn work_in(alloc: Global, text: &str) -> Result<u64, Fail> {
    let counted = match graph_in(alloc, text)? {
        AnyGraph::Flat(graph) => count_work(alloc, &classes_of(alloc, graph).ok_or("classes")?),
        AnyGraph::Space(graph) => count_work(alloc, &classes_of(alloc, graph).ok_or("classes")?),
    };
    counted.map_err(|_| "too much".into())
}

// A vertex with loops in one direction and in 249 others to each side of a second one: 998,000
// frames, times 1,000 arcs.
#[test]
fn counted_frames(rt: HostRuntime) -> Result<(), Fail> {
    let mut text = String::from_str(rt.alloc(), "PERIODIC_GRAPH\nEDGES\n1 1 0 1\n")?;
    for k in -249i64..=249 {
        text.push_str(&format!(in rt.alloc(); "1 1 1 {k}\n")?)?;
    }
    text.push_str("END\n")?;
    assert_eq!(rt; work_in(rt.alloc(), text.as_str())?, 998_000_000);
    Ok(())
}
