// The calls that another program needs first.
ghost use Rattle.std.specs.Prelude.{◌≡◌, ◌≤◌, ◌↔◌, All, IsTrue, IfOk, IfErr, IfSome, MatchOption, Some, None, length, map};
ghost use Rattle.cgd_lex.specs.Limits.{longest_text};
ghost use Rattle.periodic_net.specs.Graph.{IsGraph};
ghost use Rattle.periodic_net.specs.Limits.{IsSmall};
ghost use Rattle.periodic_net.specs.Maps.{BareIso, Iso};
ghost use Rattle.cgd_read.specs.Spelling.{edge_of};
ghost use Rattle.quotient_graph.specs.Stars.{IsInOrder, graph_with};
ghost use Rattle.cgd_read.specs.Blocks.{IsReadBody};
ghost use Rattle.cgd_read.specs.Graphs.{IsReadGraph, graph_of};
ghost use Rattle.cgd_read.specs.Views.{raw_view, views};
ghost use Rattle.least_key.specs.AnyNets.{net_view};
ghost use Rattle.net_archive.specs.Deciding.{AreBareNamesOf, AreNamesOf};
ghost use Rattle.nets.specs.Refused.{IsRefusedBy};
ghost use Rattle.nets.specs.Texts.{IsGraphIn, IsTextFaultIn, first_graph};

use crate::{Archive, Matches, Net, RawEdge, Refusal, TextFault};
use cgd_read::{Block, Body, RawGraph, blocks};
use least_key::identify;
use quotient_graph::{from_raw, from_unsorted};
use std::alloc::Global;

/// The net with its key, or why it gets none. The quotient graph has the vertices 1 to `n` and
/// these edges, in any order.
pub fn net_of(alloc: Global, dim: u8, n: u32, edges: &[RawEdge]) -> Result<Net, Refusal>
    requires is_graph { IsGraph (graph_with dim n (map edge_of edges.now)) }
    requires small { IsSmall (graph_with dim n (map edge_of edges.now)) }
    ensures net { IfOk result (λ net.
        IsInOrder (graph_with dim n (map edge_of edges.now)) (net_view net).placed.graph) }
    ensures refused { IfErr result (IsRefusedBy (graph_with dim n (map edge_of edges.now))) }
{
    let graph = from_unsorted(alloc, dim, n, edges)?;
    identify(alloc, graph)
}

// The first graph among blocks.
fn first_graph<'a, 'b>(found: &'b [Block<'a>]) -> Option<&'b RawGraph<'a>>
    requires { All (λ block. IsReadBody block.body) found.now }
    ensures first { MatchOption result (first_graph (views found.now) ≡ None)
        (λ raw. first_graph (views found.now) ≡ Some (raw_view raw.now)) }
    ensures read { IfSome result (λ raw. IsReadGraph (raw_view raw.now)) }
{
    for block in found {
        if let Body::Graph(raw) = &block.body {
            return Some(raw);
        }
    }
    None
}

// The net of a graph that was read, or why it gets none.
fn net_of_raw(alloc: Global, raw: &RawGraph<'_>) -> Result<Net, Refusal>
    requires { IsReadGraph (raw_view raw.now) }
    ensures net { IfOk result (λ net.
        IsInOrder (graph_of (raw_view raw.now)) (net_view net).placed.graph) }
    ensures refused { IfErr result (IsRefusedBy (graph_of (raw_view raw.now))) }
{
    let graph = from_raw(alloc, raw)?;
    identify(alloc, graph)
}

/// The net of the first graph in a text of PERIODIC_GRAPH blocks, with its key, or why there is
/// none.
pub fn net_in(alloc: Global, text: &[u8]) -> Result<Net, TextFault>
    requires { length text.now ≤ longest_text }
    ensures net { IfOk result (λ net. IsGraphIn text.now (net_view net).placed.graph) }
    ensures fault { IfErr result (IsTextFaultIn text.now) }
{
    let found = blocks(alloc, text)?;
    let Some(raw) = first_graph(&found) else {
        return Err(TextFault::NoGraph);
    };
    let net = net_of_raw(alloc, raw)?;
    Ok(net)
}

/// Whether the nets are isomorphic.
pub fn are_isomorphic(a: &Net, b: &Net) -> bool
    // By a bijection that is periodic,
    ensures isomorphic { IsTrue result ↔
        Iso (net_view a.now).placed.graph (net_view b.now).placed.graph }
    // and by any that joins images if and only if the vertices are joined.
    ensures bare { IsTrue result ↔
        BareIso (net_view a.now).placed.graph (net_view b.now).placed.graph }
{
    a.key().numbers() == b.key().numbers()
}

/// The names of exactly the entries of an archive whose nets are isomorphic to this one, in their
/// order.
pub fn names_of<'a, 'n>(archive: &'a Archive, net: &'n Net) -> Matches<'a, 'n>
    // By a bijection that is periodic,
    ensures isomorphic { AreNamesOf (net_view net.now).placed.graph archive.now.entries result }
    // and by any that joins images if and only if the vertices are joined.
    ensures bare { AreBareNamesOf (net_view net.now).placed.graph archive.now.entries result }
{
    archive.lookup(net.key())
}
