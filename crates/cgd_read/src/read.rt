// The blocks of a text, in one pass over its lines.
ghost use Rattle.std.specs.Prelude.{◌≡◌, ◌∷◌, ◌≤◌, ◌<◌, [], List, length, IfOk, OnOk, All, IsErrOf, ◌++◌, ◌+◌, ℕ};
ghost use Rattle.cgd_lex.specs.Limits.{longest_text};
ghost use Rattle.cgd_read.specs.Lines.{LineView, token_lines};
ghost use Rattle.cgd_read.specs.Views.{line_view, BlockView, body_view, block_view, views};
ghost use Rattle.cgd_read.specs.Reading.{after_end};
ghost use Rattle.cgd_read.specs.Blocks.{graph_block, block_of, blocks_of, most_blocks, malformed, AreBlocksOf, IsGraphBlock, IsReadBody};

use crate::cursor::next_line;
use crate::line::{Line, LineKind};
use crate::state::State;
use crate::{Block, BlockFault, BlockFaultKind, Body, NoMemory, ReadRefusal};
use cgd_lex::Lexer;
use std::alloc::Global;

/// Blocks of a text that is read.
pub const MOST_BLOCKS: usize = 4096;

/// Passes over the lines of a block, and over the line that ends it.
fn pass_block(lexer: &mut Lexer<'_>)
    requires { length lexer.old ≤ longest_text }
    ensures lines { token_lines lexer.new ≡ after_end (token_lines lexer.old) }
    ensures shorter { length lexer.new ≤ length lexer.old }
{
    while let Some(line) = next_line(lexer) {
        if line.kind.is_end() {
            return;
        }
    }
}

// Passes over the rest of the block in which this line stands.
fn pass_from(lexer: &mut Lexer<'_>, line: &Line<'_>)
    requires { length lexer.old ≤ longest_text }
    ensures lines { token_lines lexer.new ≡ after_end (line_view line.now ∷ token_lines lexer.old) }
    ensures shorter { length lexer.new ≤ length lexer.old }
{
    if !line.kind.is_end() {
        pass_block(lexer);
    }
}

fn malformed_at<'a>(line: u32, kind: BlockFaultKind) -> Body<'a>
    ensures view { body_view result ≡ malformed line kind }
    ensures graph { IsReadBody result }
{
    Body::Malformed(BlockFault { line, kind })
}

// The body of a graph block that opens at this line, and the name that was read in it.
fn read_graph<'a>(
    alloc: Global,
    lexer: &mut Lexer<'a>,
    state: &mut State<'a>,
    opening: u32,
) -> Result<Block<'a>, NoMemory>
    requires { length lexer.old ≤ longest_text }
    ensures block { IfOk result (λ block.
        block_view block ≡ graph_block opening [] (token_lines lexer.old)) }
    ensures graph { IfOk result (λ block. IsReadBody block.body) }
    ensures lines { OnOk result (token_lines lexer.new ≡ after_end (token_lines lexer.old)) }
    ensures shorter { OnOk result (length lexer.new ≤ length lexer.old) }
{
    state.clear();
    while let Some(line) = next_line(lexer) {
        let name = state.name;
        if let Some(kind) = state.judge(&line)? {
            pass_from(lexer, &line);
            return Ok(Block {
                name,
                line: opening,
                body: malformed_at(line.number, kind),
            });
        }
        if line.kind.is_end() {
            return Ok(Block {
                name,
                line: opening,
                body: Body::Graph(state.graph.finish(alloc)?),
            });
        }
    }
    Ok(Block {
        name: state.name,
        line: opening,
        body: malformed_at(opening, BlockFaultKind::NoEnd),
    })
}

// The block that this line opens.
fn read_block<'a>(
    alloc: Global,
    lexer: &mut Lexer<'a>,
    state: &mut State<'a>,
    line: &Line<'a>,
) -> Result<Block<'a>, NoMemory>
    requires { length lexer.old ≤ longest_text }
    ensures block { IfOk result (λ block.
        block_view block ≡ block_of (line_view line.now) (token_lines lexer.old)) }
    ensures graph { IfOk result (λ block. IsReadBody block.body) }
    ensures lines { OnOk result (token_lines lexer.new ≡ after_end (token_lines lexer.old)) }
    ensures shorter { OnOk result (length lexer.new ≤ length lexer.old) }
{
    let body = match line.kind {
        LineKind::Opening if line.fields.size == 0 => {
            return read_graph(alloc, lexer, state, line.number);
        }
        LineKind::Opening => malformed_at(line.number, BlockFaultKind::BadToken),
        _ => Body::Unsupported(line.first),
    };
    pass_block(lexer);
    Ok(Block {
        name: None,
        line: line.number,
        body,
    })
}

// Adds the block that this line opens.
fn add_block<'a>(
    alloc: Global,
    lexer: &mut Lexer<'a>,
    state: &mut State<'a>,
    found: &mut Vec<Block<'a>>,
    line: &Line<'a>,
) -> Result<(), NoMemory>
    requires room { length lexer.old ≤ longest_text }
    requires graphs { All (λ block. IsReadBody block.body) found.old.items }
    ensures added { OnOk result (views found.new.items ≡
        views found.old.items ++ block_of (line_view line.now) (token_lines lexer.old) ∷ []) }
    ensures count { OnOk result (length found.new.items ≡ length found.old.items + 1) }
    ensures graphs { OnOk result (All (λ block. IsReadBody block.body) found.new.items) }
    ensures lines { OnOk result (token_lines lexer.new ≡ after_end (token_lines lexer.old)) }
    ensures shorter { OnOk result (length lexer.new ≤ length lexer.old) }
{
    let block = read_block(alloc, lexer, state, line)?;
    found.push(block)?;
    Ok(())
}

/// The blocks of a text, in order.
#[tactic(auto, using(crate::proofs::Decided::the_block))]
pub fn blocks<'a>(alloc: Global, text: &'a [u8]) -> Result<Vec<Block<'a>>, ReadRefusal>
    requires { length text.now ≤ longest_text }

    // The blocks of the definition, in order.
    ensures blocks { IfOk result (λ found. AreBlocksOf text.now (views found.items)) }
    // Each graph that was read is a quotient graph within the limits.
    ensures graphs { IfOk result (λ found. All (λ block. IsReadBody block.body) found.items) }
    // A text of more blocks is refused, and no other text but if memory ran out.
    ensures few { OnOk result (length (blocks_of text.now) ≤ most_blocks) }
    ensures too_many { IsErrOf result ReadRefusal.TooManyBlocks →
        most_blocks < length (blocks_of text.now) }

    // A graph block is what its first faulty line, its end or the end of the text decides, and
    // nothing else.
    ensures decided { (opening : ℕ) (lines : List LineView) →
        IsGraphBlock opening lines (graph_block opening [] lines) }
    ensures only { (opening : ℕ) (lines : List LineView) (block : BlockView) →
        IsGraphBlock opening lines block → block ≡ graph_block opening [] lines }
{
    let mut lexer = Lexer::new(text);
    let mut state = State::new(alloc);
    let mut found = Vec::new(alloc);
    while let Some(line) = next_line(&mut lexer) {
        if line.kind.is_end() {
            continue;
        }
        if found.len() == MOST_BLOCKS {
            return Err(ReadRefusal::TooManyBlocks);
        }
        add_block(alloc, &mut lexer, &mut state, &mut found, &line)?;
    }
    Ok(found)
}
