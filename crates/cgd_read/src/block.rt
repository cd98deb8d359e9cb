// What is read of a text: its blocks.
ghost use Rattle.std.specs.Prelude.{◌≡◌};
ghost use Rattle.cgd_read.specs.Faults.{number_of_kind};

use crate::{NoMemory, RawEdge};
use lists::{Items, NumberLists};

/// Names as they were spelled, each a slice of the text that it was read from.
pub type Names<'a> = NumberLists<&'a [u8]>;

/// The edges of a graph that was read, in order of appearance.
pub type RawEdges = Items<RawEdge>;

/// A block of a text.
#[derive(Debug, Drop)]
pub struct Block<'a> {
    /// What its first name line says, if one was read.
    pub name: Option<&'a [u8]>,
    /// The line that opens it, numbered from 1.
    pub line: u32,
    pub body: Body<'a>,
}

/// What a block holds.
#[derive(Debug, Drop)]
pub enum Body<'a> {
    Graph(RawGraph<'a>),
    /// A block of another kind: the token that opens it.
    Unsupported(&'a [u8]),
    /// A graph block that is none.
    Malformed(BlockFault),
}

/// A quotient graph as it was read. `names` are the vertices as they were first spelled, in order
/// of appearance; `repeats` counts the rows of an edge after its first.
#[derive(Debug, Drop)]
pub struct RawGraph<'a> {
    pub dim: u8,
    pub names: Names<'a>,
    pub edges: RawEdges,
    pub repeats: u32,
}

/// The first fault of a graph block, with its line, numbered from 1.
#[derive(Clone, Copy, Debug, PartialEq, Eq)]
pub struct BlockFault {
    pub line: u32,
    pub kind: BlockFaultKind,
}

/// Why a block is no graph: the first sentence that is true, by the lines in order, and in one line
/// in the order UnknownField, TwoNames, BadToken, NameTooLong, RowLength, MixedDimension,
/// ShiftRange, SelfEdge, TooManyVertices, TooManyEdges, NoEdges.
#[derive(Clone, Copy, Debug, PartialEq, Eq)]
pub enum BlockFaultKind {
    /// A token stands where it may not.
    BadToken,
    /// A row has neither four nor five fields.
    RowLength,
    /// A row has another length than the first one.
    MixedDimension,
    /// A line begins with a word that is no keyword.
    UnknownField,
    /// The block ends without a row.
    NoEdges,
    /// A row joins a vertex to itself, by the shift 0.
    SelfEdge,
    /// A part of a shift is below -500 or above 500.
    ShiftRange,
    /// A row brings a 513th vertex.
    TooManyVertices,
    /// A row brings a 4,097th edge.
    TooManyEdges,
    /// A name or a vertex has more than 200 bytes.
    NameTooLong,
    /// The text ends in the block. The line is the one that opens it.
    NoEnd,
    /// There is a second name line.
    TwoNames,
}

impl BlockFaultKind {
    /// The number by which it is reported.
    pub fn number(self) -> u32
        ensures { result ≡ number_of_kind self }
    {
        match self {
            BlockFaultKind::BadToken => 1,
            BlockFaultKind::RowLength => 2,
            BlockFaultKind::MixedDimension => 3,
            BlockFaultKind::UnknownField => 4,
            BlockFaultKind::NoEdges => 5,
            BlockFaultKind::SelfEdge => 6,
            BlockFaultKind::ShiftRange => 7,
            BlockFaultKind::TooManyVertices => 8,
            BlockFaultKind::TooManyEdges => 9,
            BlockFaultKind::NameTooLong => 10,
            BlockFaultKind::NoEnd => 11,
            BlockFaultKind::TwoNames => 12,
        }
    }
}

/// Why a text is not read.
#[derive(Clone, Copy, Debug, PartialEq, Eq)]
pub enum ReadRefusal {
    /// The text opens a 4,097th block.
    TooManyBlocks,
    NoMemory,
}

impl From<NoMemory> for ReadRefusal {
    ghost use Rattle.cgd_read.specs.declared.block.ReadRefusal.{ReadRefusal};

    ghost from_gives = { λ _ refusal. refusal ≡ ReadRefusal.NoMemory };

    fn from(_refused: NoMemory) -> ReadRefusal {
        ReadRefusal::NoMemory
    }
}
