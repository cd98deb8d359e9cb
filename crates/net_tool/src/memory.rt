// Runs over files in memory, whose reads do not fail.
ghost use Rattle.std.specs.Prelude.{◌≢◌};
ghost use Rattle.command_words.specs.Tasks.{task_of};
ghost use Rattle.command_words.specs.Words.{texts_of};
ghost use Rattle.outside.specs.Files.{holds_of};
ghost use Rattle.outside.specs.MemorySink.{sure_of};
ghost use Rattle.net_tool.specs.Completeness.{AreWithin, HasRoom, IsToldWhole};

use crate::tool::run;
use net_report::Status;
use outside::{HonestShelf, MemorySink, Sink};
use std::alloc::Global;

/// Does what the arguments say, over files that never fail to be read, whatever the sink: a read
/// fault never comes.
pub fn run_on_files<W: Sink>(
    alloc: Global,
    words: &[String],
    shelf: &mut HonestShelf,
    out: &mut W,
) -> Status
    ensures read { result ≢ Status.ReadFault }
{
    run(alloc, words, shelf, out)
}

/// Does what the arguments say, over files that never fail to be read, and writes into memory. So
/// no fault of the host comes, and within the limits each block is answered, unless memory is
/// refused.
pub fn run_in_memory(
    alloc: Global,
    words: &[String],
    shelf: &mut HonestShelf,
    out: &mut MemorySink,
) -> Status
    ensures read { result ≢ Status.ReadFault }
    ensures written { HasRoom (task_of (texts_of words.now)) (holds_of shelf.old.files)
        (sure_of out.old) →
        result ≢ Status.WriteFault }
    ensures complete { HasRoom (task_of (texts_of words.now)) (holds_of shelf.old.files)
        (sure_of out.old) →
        AreWithin (task_of (texts_of words.now)) (holds_of shelf.old.files) →
        IsToldWhole (task_of (texts_of words.now)) result }
{
    run(alloc, words, shelf, out)
}
