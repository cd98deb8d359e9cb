// Whether a net is connected.
ghost use Rattle.std.specs.Prelude.{◌≡◌, IfOk, IfErr, OnOk};
ghost use Rattle.periodic_net.specs.Graph.{IsGraph, IsConnected};
ghost use Rattle.periodic_net.specs.Limits.{IsSmall};
ghost use Rattle.connected_dim.specs.Refusals.{IsRefused, IsRefuted};
ghost use Rattle.connected_dim.specs.Verdicts.{IsVerdict};

use crate::parts::{all_found, part_split};
use crate::verdicts::{Verdict, verdict_by_walks};
use crate::{NoMemory, walks};
use quotient_graph::{Graph, Split};
use std::alloc::Global;
use std::marker::Model;

/// A graph within the limits whose net is connected.
#[derive(Debug, Drop)]
pub struct Connected<const D: usize> {
    pub graph: Graph<D>,
}

impl<const D: usize> Model for Connected<D> {
    ghost use Rattle.periodic_net.specs.Graph.{Graph as NetGraph};
    ghost use Rattle.connected_dim.specs.Connected.{IsConnectedGraph};

    ghost Value = { NetGraph };

    ghost view = { λ c. c.graph };

    ghost invariant = { λ c. IsConnectedGraph c.graph };
}

/// Why a graph was not taken; it is handed back.
#[derive(Debug, Drop)]
pub enum Unconnected<const D: usize> {
    Disconnected(Split, Graph<D>),
    Degenerate(Split, Graph<D>),
    NoMemory(Graph<D>),
}

// What is found of a graph.
fn verdict<const D: usize>(alloc: Global, g: &Graph<D>) -> Result<Verdict, NoMemory>
    ensures verdict { IfOk result (IsVerdict g.now) }
    ensures is_graph { IsGraph g.now }
    ensures small { IsSmall g.now }
{
    let dim = g.dimension();
    let found = walks(alloc, g, 1)?;
    if !all_found(&found) {
        return Ok(Verdict::Parted(part_split(alloc, dim, &found)?));
    }
    verdict_by_walks(alloc, g, &found)
}

/// The graph if its net is connected, and otherwise a colouring that shows that it is not, with
/// the graph.
pub fn connect<const D: usize>(alloc: Global, g: Graph<D>) -> Result<Connected<D>, Unconnected<D>>
    ensures same { IfOk result (λ c. c ≡ g.entry) }
    ensures connected { OnOk result (IsConnected g.entry) }
    ensures refused { IfErr result (IsRefused g.entry) }
    ensures not_connected { IfErr result (IsRefuted g.entry) }
{
    match verdict(alloc, &g) {
        Ok(Verdict::Whole) => Ok(Connected { graph: g }),
        Ok(Verdict::Parted(split)) => Err(Unconnected::Disconnected(split, g)),
        Ok(Verdict::Flat(split)) => Err(Unconnected::Degenerate(split, g)),
        Err(_) => Err(Unconnected::NoMemory(g)),
    }
}
