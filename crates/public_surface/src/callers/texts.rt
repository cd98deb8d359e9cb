// Tokens and blocks of a text.
ghost use Rattle.std.specs.Prelude.{◌≤◌, length};
ghost use Rattle.cgd_lex.specs.Limits.{longest_text};

use cgd_lex::{Lexer, Token, TokenKind};
use cgd_read::{
    Block, BlockFault, BlockFaultKind, Body, Names, RawEdges, RawGraph, ReadRefusal, blocks,
};
use std::alloc::Global;

pub fn lexer_of<'a>(text: &'a [u8]) -> Lexer<'a>
    requires { length text.now ≤ longest_text }
{
    Lexer::new(text)
}

pub fn next_token<'a>(lexer: &mut Lexer<'a>) -> Option<Token<'a>> {
    lexer.next()
}

pub fn token<'a>(kind: TokenKind, text: &'a [u8], start: usize, line: u32) -> Token<'a> {
    Token {
        kind,
        text,
        start,
        line,
    }
}

pub fn is_number(kind: TokenKind) -> bool {
    match kind {
        TokenKind::Whole => true,
        TokenKind::Word | TokenKind::Quoted | TokenKind::Newline | TokenKind::Bad => false,
    }
}

pub fn blocks_in<'a>(alloc: Global, text: &'a [u8]) -> Result<Vec<Block<'a>>, ReadRefusal>
    requires { length text.now ≤ longest_text }
{
    blocks(alloc, text)
}

pub fn has_too_many(refusal: ReadRefusal) -> bool {
    match refusal {
        ReadRefusal::TooManyBlocks => true,
        ReadRefusal::NoMemory => false,
    }
}

pub fn block<'a>(name: Option<&'a [u8]>, line: u32, body: Body<'a>) -> Block<'a> {
    Block { name, line, body }
}

pub fn graph_in(body: Body<'_>) -> Option<RawGraph<'_>> {
    match body {
        Body::Graph(graph) => Some(graph),
        Body::Unsupported(_) => None,
        Body::Malformed(_) => None,
    }
}

pub fn raw_graph<'a>(dim: u8, names: Names<'a>, edges: RawEdges, repeats: u32) -> RawGraph<'a> {
    RawGraph {
        dim,
        names,
        edges,
        repeats,
    }
}

pub fn fault(line: u32, kind: BlockFaultKind) -> BlockFault {
    BlockFault { line, kind }
}

pub fn is_of_the_row(kind: BlockFaultKind) -> bool {
    match kind {
        BlockFaultKind::BadToken
        | BlockFaultKind::RowLength
        | BlockFaultKind::MixedDimension
        | BlockFaultKind::SelfEdge
        | BlockFaultKind::ShiftRange
        | BlockFaultKind::TooManyVertices
        | BlockFaultKind::TooManyEdges => true,
        BlockFaultKind::UnknownField
        | BlockFaultKind::NoEdges
        | BlockFaultKind::NameTooLong
        | BlockFaultKind::NoEnd
        | BlockFaultKind::TwoNames => false,
    }
}
