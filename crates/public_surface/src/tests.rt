// What calls answer with ample memory, if no text of the program reaches it: values that were
// worked out by hand.
mod components;
mod devices;
mod frames;
mod keys;
mod maps;
mod named_nets;
mod numbers;
mod placements;
mod primitive_nets;

use cgd_read::{Body, blocks};
use least_key::{Net, identify};
use quotient_graph::{AnyGraph, from_raw};
use std::alloc::Global;
use std::test::Fail;

const HCB: &str = "PERIODIC_GRAPH\nNAME hcb\nEDGES\n1 2 0 0\n1 2 1 0\n1 2 0 1\nEND\n";

const DIA: &str =
    "PERIODIC_GRAPH\nNAME dia\nEDGES\n1 2 0 0 0\n1 2 1 0 0\n1 2 0 1 0\n1 2 0 0 1\nEND\n";

// Diamond on another basis, and the primitive cubic net.
const TILTED: &str =
    "PERIODIC_GRAPH\nNAME tilted\nEDGES\n4 7 0 0 0\n4 7 -1 0 0\n4 7 -1 -1 0\n4 7 0 -1 -1\nEND\n";

const PCU: &str = "PERIODIC_GRAPH\nNAME pcu\nEDGES\n1 1 1 0 0\n1 1 0 1 0\n1 1 0 0 1\nEND\n";

// The graph of the first net of a text.
fn graph_in(alloc: Global, text: &str) -> Result<AnyGraph, Fail> {
    if text.len() > 16_777_216 {
        return Err("too many bytes".into());
    }
    let found = blocks(alloc, text.as_bytes()).map_err(|_| "no blocks")?;
    match found.first().map(|block| &block.body) {
        Some(Body::Graph(raw)) => Ok(from_raw(alloc, raw)?),
        _ => Err("no graph".into()),
    }
}

// The first net of a text, with its key.
fn net_in(alloc: Global, text: &str) -> Result<Net, Fail> {
    identify(alloc, graph_in(alloc, text)?).map_err(|_| "no net".into())
}
