// What becomes of a block.
ghost use Rattle.std.specs.Prelude.{◌≡◌, ◌≢◌, All, IfOk};
ghost use Rattle.std.specs.List.{list_all};
ghost use Rattle.periodic_net.specs.Graph.{IsGraph};
ghost use Rattle.periodic_net.specs.Limits.{IsSmall};
ghost use Rattle.quotient_graph.specs.AnyGraphs.{graph_view};
ghost use Rattle.least_key.specs.AnyNets.{net_view};
ghost use Rattle.line_text.specs.Numbers.{IsWide};
ghost use Rattle.quotient_graph.specs.Order.{AreRising};
ghost use Rattle.net_report.specs.Accepting.{is_accepted, is_accepted_body};
ghost use Rattle.net_report.specs.Headers.{size_in};
ghost use Rattle.net_report.specs.Telling.{IsBodyPrintedWhole, IsPrintedWhole, IsShort, IsShortSize};

use crate::NoMemory;
use crate::keys::recall_key;
use cgd_read::{BlockFault, Names};
use coordination::Sequences;
use least_key::{AnyPlaced, Net, Refusal};
use lists::Items;
use quotient_graph::{AnyGraph, Graph};

/// The sizes of a graph that was read; `repeats` counts the rows of an edge after its first.
#[derive(Clone, Copy, Debug, PartialEq, Eq)]
pub struct Size {
    pub dim: u8,
    pub vertices: u32,
    pub edges: u32,
    pub repeats: u32,
}

impl Size {
    fn of_graph<const D: usize>(graph: &Graph<D>, repeats: u32) -> Self
        ensures size { result ≡ size_in graph.now repeats }
        ensures is_graph { IsGraph graph.now }
        ensures rising { AreRising graph.now.edges }
        ensures small { IsSmall graph.now }
    {
        Size {
            dim: graph.dimension(),
            vertices: graph.vertices(),
            edges: graph.edges().len() as u32,
            repeats,
        }
    }

    /// The sizes of a graph, beside the number of its repeated rows.
    pub fn of(graph: &AnyGraph, repeats: u32) -> Self
        ensures size { result ≡ size_in (graph_view graph.now) repeats }
        ensures is_graph { IsGraph (graph_view graph.now) }
        ensures rising { AreRising (graph_view graph.now).edges }
        ensures small { IsSmall (graph_view graph.now) }
    {
        match graph {
            AnyGraph::Flat(graph) => Size::of_graph(graph, repeats),
            AnyGraph::Space(graph) => Size::of_graph(graph, repeats),
        }
    }

    // Recalls that they are printed whole, since none has more than 32 bits.
    fn recall(self)
        ensures { IsShortSize self }
    {
        let Size {
            dim: _dim,
            vertices: _vertices,
            edges: _edges,
            repeats: _repeats,
        } = self;
    }
}

/// What is reported of a block, after its header. The names are those of the graph's vertices.
#[derive(Debug, Drop)]
pub enum OutcomeBody<'a> {
    /// The token that opens a block which is no graph block.
    Unsupported(&'a [u8]),
    /// The first fault of a graph block.
    Malformed(BlockFault),
    /// The first fault of an item of another kind of text: its line, and the number and the name of
    /// its kind.
    Faulty {
        line: u32,
        number: u8,
        kind: &'a [u8],
    },
    /// The graph is refused.
    Refused(Size, Names<'a>, Refusal),
    /// The net is connected.
    Checked(Size),
    /// The net is connected and placed.
    Located(Size, Names<'a>, AnyPlaced),
    /// The net has a key.
    Keyed(Size, Net),
    /// The net has a key, these coordination sequences, and these names in an archive.
    Identified(Size, Names<'a>, Net, Sequences, Names<'a>),
    /// The graph has these lines after its sizes. Whether it is accepted they do not show.
    Lines(Size, Items<u8>),
}

// A number of 32 bits is printed whole.
fn recall_short(number: u32)
    ensures { IsShort number }
{
    let _number = number;
}

// The sizes of a net, and its key, are printed whole.
fn recall_keyed(size: Size, net: &Net)
    ensures size { IsShortSize size }
    ensures wide { All IsWide (net_view net.now).key }
{
    size.recall();
    recall_key(net.key())
}

impl<'a> OutcomeBody<'a> {
    /// The refusal with these names, if it is one.
    pub fn refused(size: Size, names: Names<'a>, refusal: Refusal) -> Result<Self, NoMemory>
        ensures told { IfOk result (λ body. body ≡ OutcomeBody.Refused size names.entry refusal) }
        ensures refused { IfOk result (λ body. refusal ≢ Refusal.NoMemory) }
    {
        match refusal {
            Refusal::NoMemory => Err(NoMemory),
            refusal => Ok(OutcomeBody::Refused(size, names, refusal)),
        }
    }

    // Recalls that its numbers are printed whole, since each has as many bits as its type says.
    fn recall(&self)
        ensures { IsBodyPrintedWhole self.now }
    {
        match self {
            OutcomeBody::Unsupported(_) => (),
            OutcomeBody::Malformed(fault) => recall_short(fault.line),
            OutcomeBody::Faulty { line, number, .. } => {
                recall_short(*line);
                recall_short(*number as u32)
            }
            OutcomeBody::Refused(size, _, _)
            | OutcomeBody::Checked(size)
            | OutcomeBody::Located(size, _, _)
            | OutcomeBody::Lines(size, _) => size.recall(),
            OutcomeBody::Keyed(size, net) | OutcomeBody::Identified(size, _, net, _, _) => {
                recall_keyed(*size, net)
            }
        }
    }

    /// Whether it shows that the block was accepted; lines do not show it.
    pub fn is_accepted(&self) -> bool
        ensures { result ≡ is_accepted_body self.now }
    {
        match self {
            OutcomeBody::Unsupported(_)
            | OutcomeBody::Malformed(_)
            | OutcomeBody::Faulty { .. }
            | OutcomeBody::Refused(_, _, _)
            | OutcomeBody::Lines(_, _) => false,
            _ => true,
        }
    }

    /// The same beside what it shows of whether the block was accepted.
    pub fn judged(self) -> Judged<Self>
        ensures told { result.told ≡ self.entry }
        ensures accepted { result.accepted ≡ is_accepted_body self.entry }
    {
        let accepted = self.is_accepted();
        Judged {
            told: self,
            accepted,
        }
    }
}

/// What is reported of a block: its number, the line that opens it, and its name.
#[derive(Debug, Drop)]
pub struct Outcome<'a> {
    pub number: u32,
    pub line: u32,
    pub name: Option<&'a [u8]>,
    pub body: OutcomeBody<'a>,
}

impl<'a> Outcome<'a> {
    /// Recalls that its numbers are printed whole, since each has as many bits as its type says.
    pub fn recall(&self)
        ensures { IsPrintedWhole self.now }
    {
        recall_short(self.number);
        recall_short(self.line);
        self.body.recall()
    }
}

/// What is told of a block, and whether the block was accepted.
#[derive(Drop)]
pub struct Judged<T> {
    pub told: T,
    pub accepted: bool,
}

/// The outcomes of blocks, in their order.
pub type Outcomes<'a> = Items<Outcome<'a>>;

/// Whether each outcome shows that its block was accepted.
pub fn are_accepted(outcomes: &Outcomes<'_>) -> bool
    ensures { result ≡ list_all is_accepted outcomes.now }
{
    outcomes
        .as_slice()
        .iter()
        .all(|outcome| outcome.body.is_accepted())
}
