// The top call, `run`: from the arguments to the text that is written, and the status.
ghost use Rattle.std.specs.Prelude.{◌≡◌, ◌<◌, ◌≤◌, ℕ, IfOk, IfErr, IsErrOf, [], length, take, ◌≢◌};
ghost use Rattle.std.specs.Io.KnownBytes.{Appends};
ghost use Rattle.outside.specs.Causes.{Rose};
ghost use Rattle.command_words.specs.Words.{texts_of};
ghost use Rattle.command_words.specs.Tasks.{MakesFew, task_of};
ghost use Rattle.command_words.specs.Views.{task_view};
ghost use Rattle.answers.specs.Endings.{GoesWithText, IsComplete};
ghost use Rattle.answers.specs.Headline.{IsReported};
ghost use Rattle.net_tool.specs.Completeness.{AreWithin, HasRoom};
ghost use Rattle.net_tool.specs.Headline.{HasHeadline};
ghost use Rattle.net_tool.specs.Inputs.{AreInputs};
ghost use Rattle.net_tool.specs.Run.{FailedAtFile, FailedAtTask, IsAnswer, IsAnswered, IsBroken, IsDueOf, IsSilent, IsUnread, status_of};

use crate::files::read_named;
use answers::answer_to;
use command_words::{Task, task_of};
use net_report::{Answer, Status};
use outside::{InFault, Shelf, Sink, write_all};
use std::alloc::Global;

/// What is printed if the arguments have no form.
pub const USAGE: &str =
    "usage: net_tool COMMAND [FILE] [--archive PATH] [--name NAME] [--cell ROWS]\n";

// Writes the text that goes with a status.
fn finish<W: Sink>(out: &mut W, text: &[u8], status: Status) -> Status
    requires { GoesWithText status }
    ensures done { result ≢ Status.WriteFault → result ≡ status }
    ensures all { result ≢ Status.WriteFault →
        Appends (W.written out.old) (W.written out.new) text.now }
    ensures cause { result ≡ Status.WriteFault → Rose (W.faults out.old) (W.faults out.new) }
    ensures unsure { result ≡ Status.WriteFault → W.sure out.old < length text.now }
    ensures part { result ≡ Status.WriteFault →
        (taken : ℕ) × (taken < length text.now) ×
        Appends (W.written out.old) (W.written out.new) (take taken text.now) }
    ensures later { W.faults out.old ≤ W.faults out.new }
{
    match write_all(out, text) {
        Ok(()) => status,
        Err(_) => Status::WriteFault,
    }
}

// How a run ends if a file is not read.
fn status_of(fault: InFault) -> Status
    ensures { result ≡ status_of fault }
{
    match fault {
        InFault::ReadFault => Status::ReadFault,
        InFault::TooLarge { .. } => Status::TooLarge,
        InFault::NoMemory => Status::NoMemory,
    }
}

// The bytes of the files that a task names.
#[derive(Drop)]
struct Inputs {
    file: Vec<u8>,
    archive: Option<Vec<u8>>,
}

fn read_inputs<H: Shelf>(alloc: Global, task: &Task<'_>, shelf: &mut H) -> Result<Inputs, Status>
    ensures read { IfOk result (AreInputs (task_view task.now) (H.holds shelf.old)) }
    ensures unread { IfErr result (IsUnread (task_view task.now) (H.holds shelf.old)) }
    ensures fault { IsErrOf result Status.ReadFault →
        Rose (H.faults shelf.old) (H.faults shelf.new) }
    ensures fault_at { IsErrOf result Status.ReadFault →
        FailedAtTask (task_view task.now) (H.holds shelf.old) (H.last shelf.new) }
    ensures same { H.holds shelf.new ≡ H.holds shelf.old }
    ensures later { H.faults shelf.old ≤ H.faults shelf.new }
{
    let file = read_named(alloc, shelf, task.file()).map_err(status_of)?;
    let archive = read_named(alloc, shelf, task.archive()).map_err(status_of)?;
    let file = file.unwrap_or(Vec::new(alloc));
    Ok(Inputs { file, archive })
}

// The answer to a task, or the status of a run that writes nothing.
fn answer_task<H: Shelf>(alloc: Global, task: &Task<'_>, shelf: &mut H) -> Result<Answer, Status>
    requires { MakesFew (task_view task.now) }
    ensures due { IfOk result (λ a.
        IsDueOf (task_view task.now) (H.holds shelf.old) a.status a.text.items) }
    ensures told { IfOk result (λ a. GoesWithText a.status) }
    ensures silent { IfErr result IsSilent }
    ensures undue { IfErr result (λ status. IsAnswered status →
        IsDueOf (task_view task.now) (H.holds shelf.old) status []) }
    ensures fault { IsErrOf result Status.ReadFault →
        Rose (H.faults shelf.old) (H.faults shelf.new) }
    ensures fault_at { IsErrOf result Status.ReadFault →
        FailedAtTask (task_view task.now) (H.holds shelf.old) (H.last shelf.new) }
    ensures same { H.holds shelf.new ≡ H.holds shelf.old }
    ensures later { H.faults shelf.old ≤ H.faults shelf.new }
{
    let Inputs { file, archive } = read_inputs(alloc, task, shelf)?;
    Ok(answer_to(alloc, task, &file, archive)?)
}

/// Does what the arguments say, over the files of a shelf, and writes the text to a sink. It is all
/// that the program does. `check`, `place`, `key`, `identify` and `components` report on each net
/// of a file: whether it is connected, where its vertices stand, what its key is, which nets of an
/// archive it is, and what its pieces are. `cover` writes nets on a larger cell. `same` writes a
/// map between nets, which `verify` checks. `add` puts nets into an archive, `union` unites it with
/// the nets of another archive or of key lines. `duplicates` finds those that stand in it more than
/// once, `migrate` writes it in the newest format, and `workload` measures.
pub fn run<H: Shelf, W: Sink>(alloc: Global, words: &[String], shelf: &mut H, out: &mut W) -> Status
    // Status and text are due to the arguments and the files, unless memory or the host fails.
    ensures answer { IsAnswered result →
        IsAnswer (texts_of words.now) (H.holds shelf.old) (W.written out.old) (W.written out.new)
        result }
    // The headline, of each run of `identify` that answers each block: keys decide isomorphism.
    ensures headline { IsReported result →
        HasHeadline (task_of (texts_of words.now)) (H.holds shelf.old) (W.written out.old)
        (W.written out.new) result }
    // ReadFault has a cause: the shelf counted a failure in this run.
    ensures read_fault { result ≡ Status.ReadFault →
        Rose (H.faults shelf.old) (H.faults shelf.new) }
    // And it was at the file of the task; or at its archive, if the file is not too large.
    ensures read_fault_at { result ≡ Status.ReadFault →
        FailedAtFile (task_of (texts_of words.now)) (H.holds shelf.old) (H.last shelf.new) }
    // WriteFault has a cause: the sink counted a failure in this run.
    ensures write_fault { result ≡ Status.WriteFault → Rose (W.faults out.old) (W.faults out.new) }
    // Then the beginning of a due text was written, and not all of it; and the sink was not sure to
    // take so much.
    ensures broken { result ≡ Status.WriteFault →
        IsBroken (texts_of words.now) (H.holds shelf.old) (W.written out.old) (W.written out.new)
        (W.sure out.old) }
    // Where the sink is sure to take each due text, WriteFault never comes.
    ensures sure { HasRoom (task_of (texts_of words.now)) (H.holds shelf.old) (W.sure out.old) →
        result ≢ Status.WriteFault }
    // After ReadFault, TooLarge, TooManyBlocks and NoMemory nothing was written.
    ensures silent { IsSilent result → W.written out.new ≡ W.written out.old }
    // Within the limits each block is answered, or what cannot be done is reported, unless memory
    // or the host fails.
    ensures complete { AreWithin (task_of (texts_of words.now)) (H.holds shelf.old) →
        IsComplete (task_of (texts_of words.now)) result }
    // The files are as before.
    ensures same { H.holds shelf.new ≡ H.holds shelf.old }
    // The count of failed reads does not fall.
    ensures later { H.faults shelf.old ≤ H.faults shelf.new }
    // Nor does that of failed writes.
    ensures out_later { W.faults out.old ≤ W.faults out.new }
{
    let Ok(found) = task_of(alloc, words) else {
        return Status::NoMemory;
    };
    let Some(task) = found else {
        return finish(out, USAGE.as_bytes(), Status::Usage);
    };
    match answer_task(alloc, &task, shelf) {
        Ok(answer) => finish(out, &answer.text, answer.status),
        Err(status) => status,
    }
}
