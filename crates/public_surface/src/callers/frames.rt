// Frames, the key work, and the lists of traversals.
ghost use Rattle.periodic_net.specs.Correspondence.{IsClass};
ghost use Rattle.key_theory.specs.Frames.{IsFrame};

use edge_frames::{Frames, KeyWork, count_work};
use net_traversal::{Head, KeyRow, Walker, traverse};
use quotient_graph::{Classes, Frame, Key, NoMemory};
use std::alloc::Global;
use vecdim::Triple;

pub fn work_of<const D: usize>(alloc: Global, c: &Classes<D>) -> Result<u64, KeyWork> {
    count_work(alloc, c)
}

pub fn counted(fault: KeyWork) -> Option<(u32, u64)> {
    match fault {
        KeyWork::TooMuch {
            starts_done,
            counted,
        } => Some((starts_done, counted)),
        KeyWork::NoMemory => None,
    }
}

pub fn frames_of<'a, const D: usize>(
    alloc: Global,
    c: &'a Classes<D>,
    start: u32,
) -> Result<Frames<'a, D>, NoMemory>
    requires { IsClass c.now.classes start }
{
    Frames::new(alloc, c, start)
}

pub fn next_frame<'a, const D: usize>(frames: &mut Frames<'a, D>) -> Option<Frame<D>> {
    frames.next()
}

pub fn list_of<const D: usize>(
    alloc: Global,
    c: &Classes<D>,
    start: u32,
    f: &Frame<D>,
) -> Result<Key, NoMemory>
    requires start { IsClass c.now.classes start }
    requires frame { IsFrame c.now.classes start f.now }
{
    traverse(alloc, c, start, f)
}

pub fn walker_of<'a, const D: usize>(
    alloc: Global,
    c: &'a Classes<D>,
    start: u32,
    f: &Frame<D>,
) -> Result<Walker<'a, D>, NoMemory>
    requires start { IsClass c.now.classes start }
    requires frame { IsFrame c.now.classes start f.now }
{
    Walker::new(alloc, c, start, f)
}

pub fn head_of<'a, const D: usize>(walker: &Walker<'a, D>) -> Head {
    walker.head()
}

pub fn next_row<'a, const D: usize>(walker: &mut Walker<'a, D>) -> Option<KeyRow> {
    walker.next_row()
}

pub fn head(dim: u8, classes: u32, q: i128) -> Head {
    Head { dim, classes, q }
}

pub fn row(i: u32, j: u32, part: Triple) -> KeyRow {
    KeyRow { i, j, part }
}
