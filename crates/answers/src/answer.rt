// What is due to the arguments, of the bytes of the files that they name.
ghost use Rattle.std.specs.Prelude.{◌≤◌, All, IfOk, length, ◌≡◌, ◌<◌, IsErrOf, MatchResult};
ghost use Rattle.cgd_read.specs.Views.{views};
ghost use Rattle.cgd_read.specs.Blocks.{IsReadBody, most_blocks, blocks_of};
ghost use Rattle.command_words.specs.Tasks.{MakesFew};
ghost use Rattle.command_words.specs.Views.{blocks_view, task_view};
ghost use Rattle.archive_answers.specs.ArchiveBytes.{AreFew};
ghost use Rattle.answers.specs.Due.{IsReportAs, AreGroupsAs, IsMigratedAs, HasBecomeFor, HasFirstFor, HasTooMany, IsDueFor, IsDueToBlocks, IsDueWith, bytes_of};
ghost use Rattle.answers.specs.Bytes.{bytes_in, most_bytes};
ghost use Rattle.answers.specs.Endings.{GoesWithText};

use crate::adding::add_blocks;
use crate::workloads::summary_of;
use archive_answers::{archive_in, groups_text, migrate_fault_text, union_of};
use block_answers::tell_blocks;
use cgd_read::{Block, blocks};
use command_words::{BlocksTask, Task};
use cover_answers::cover_blocks;
use map_answers::{same_blocks, verify_answer};
use net_archive::{Archive, MigrateFault};
use net_report::{Answer, Command, Silence, Status, ending_of};
use std::alloc::{AllocError as NoMemory, Global};
use symmetry_answers::symmetry_of;
use workload::workload_text;

/// What a command reports on each block, beside an archive.
pub fn report_on(
    alloc: Global,
    command: Command,
    archive: &Archive,
    found: &[Block<'_>],
) -> Result<Answer, NoMemory>
    requires graphs { All (λ block. IsReadBody block.body) found.now }
    requires few { length found.now ≤ most_blocks }
    ensures { IfOk result (λ a.
        IsReportAs command archive.now.entries (views found.now) a.status a.text.items) }
{
    let told = tell_blocks(alloc, command, archive, found)?;
    Ok(Answer {
        status: ending_of(told.all_accepted),
        text: told.text,
    })
}

/// The groups of entries whose nets are isomorphic.
pub fn groups_of(alloc: Global, archive: &Archive) -> Result<Answer, NoMemory>
    ensures { IfOk result (λ a. AreGroupsAs archive.now a.status a.text.items) }
{
    let groups = archive.duplicates()?;
    let text = groups_text(alloc, archive.entries(), &groups)?;
    Ok(Answer {
        status: Status::Done,
        text,
    })
}

/// The archive in the newest format, or that it would be too long.
pub fn migration_of(alloc: Global, archive: &Archive) -> Result<Answer, NoMemory>
    ensures { IfOk result (λ a. IsMigratedAs archive.now a.status a.text.items) }
{
    match archive.migrated() {
        Ok(text) => Ok(Answer {
            status: Status::Done,
            text,
        }),
        Err(MigrateFault::Full { length }) => Ok(Answer {
            status: Status::MigrateRefused,
            text: migrate_fault_text(alloc, length)?,
        }),
        Err(MigrateFault::NoMemory) => Err(NoMemory),
    }
}

// The answer to a task, of the blocks of its file and of its archive, to which `add` adds them.
fn answer_for(
    alloc: Global,
    task: &BlocksTask<'_>,
    archive: &mut Archive,
    found: &[Block<'_>],
) -> Result<Answer, NoMemory>
    requires graphs { All (λ block. IsReadBody block.body) found.now }
    requires few { length found.now ≤ most_blocks }
    ensures answer { IfOk result (λ a.
        IsDueFor (blocks_view task.now) (views found.now) archive.old a.status a.text.items) }
    ensures archive { MatchResult result
        (λ a. HasBecomeFor (blocks_view task.now) (views found.now) archive.old a.status archive.new)
        (λ e. HasFirstFor (blocks_view task.now) (views found.now) archive.old archive.new) }
{
    match *task {
        BlocksTask::Check { .. } => report_on(alloc, Command::Check, archive, found),
        BlocksTask::Place { .. } => report_on(alloc, Command::Place, archive, found),
        BlocksTask::Key { .. } => report_on(alloc, Command::Key, archive, found),
        BlocksTask::Identify { .. } => report_on(alloc, Command::Identify, archive, found),
        BlocksTask::Components { .. } => report_on(alloc, Command::Components, archive, found),
        BlocksTask::Symmetry { .. } => symmetry_of(alloc, found),
        BlocksTask::Add { name, .. } => add_blocks(alloc, archive, name, found),
        BlocksTask::Duplicates { .. } => groups_of(alloc, archive),
        BlocksTask::Migrate { .. } => migration_of(alloc, archive),
        BlocksTask::Workload { count } => summary_of(alloc, count, found),
        BlocksTask::Cover { cell, .. } => cover_blocks(alloc, &cell, found),
        BlocksTask::Same { .. } => same_blocks(alloc, found),
    }
}

// The answer to a task, of the bytes whose blocks it is about.
#[tactic(auto, using(crate::proofs::MadeBlocks::due_for))]
fn answer_on(
    alloc: Global,
    task: &BlocksTask<'_>,
    bytes: &[u8],
    archive: Option<Vec<u8>>,
) -> Result<Answer, Silence>
    requires small { length bytes.now ≤ most_bytes }
    requires archive { AreFew archive }
    ensures due { IfOk result (λ a.
        IsDueToBlocks (blocks_view task.now) bytes.now (bytes_in archive) a.status a.text.items) }
    ensures many { IsErrOf result Silence.TooManyBlocks →
        most_blocks < length (blocks_of bytes.now) }
{
    let found = blocks(alloc, bytes)?;
    match archive_in(alloc, archive)? {
        Ok(mut archive) => Ok(answer_for(alloc, task, &mut archive, &found)?),
        Err(text) => Ok(Answer {
            status: Status::BadArchive,
            text,
        }),
    }
}

// The answer to a task on blocks: those of its file, or those of the text that it makes.
fn answer_to_blocks(
    alloc: Global,
    task: &BlocksTask<'_>,
    file: &[u8],
    archive: Option<Vec<u8>>,
) -> Result<Answer, Silence>
    requires small { length file.now ≤ most_bytes }
    requires archive { AreFew archive }
    requires few { MakesFew (blocks_view task.now) }
    ensures due { IfOk result (λ a. IsDueToBlocks (blocks_view task.now)
        (bytes_of (blocks_view task.now) file.now) (bytes_in archive) a.status a.text.items) }
    ensures many { IsErrOf result Silence.TooManyBlocks →
        most_blocks < length (blocks_of (bytes_of (blocks_view task.now) file.now)) }
{
    match task {
        BlocksTask::Workload { count } => {
            let made = workload_text(alloc, *count)?;
            answer_on(alloc, task, &made, archive)
        }
        _ => answer_on(alloc, task, file, archive),
    }
}

/// What is due to a task, of the bytes of its file and of its archive, if it names them.
#[tactic(auto, using(crate::proofs::MadeBlocks::due_to_blocks, crate::proofs::MadeBlocks::few_made, crate::proofs::MadeBlocks::many_blocks, crate::proofs::MadeBlocks::of_blocks, crate::proofs::Endings::text_of_blocks, crate::proofs::Endings::text_of_union, crate::proofs::Endings::text_of_verify))]
pub fn answer_to(
    alloc: Global,
    task: &Task<'_>,
    file: &[u8],
    archive: Option<Vec<u8>>,
) -> Result<Answer, Silence>
    requires small { length file.now ≤ most_bytes }
    requires archive { AreFew archive }
    requires few { MakesFew (task_view task.now) }
    // The answer is due to the task, of the bytes that it is about.
    ensures due { IfOk result (λ a. IsDueWith (task_view task.now)
        (bytes_of (task_view task.now) file.now) (bytes_in archive) a.status a.text.items) }
    // Its status is one that goes with a text.
    ensures told { IfOk result (λ a. GoesWithText a.status) }
    // TooManyBlocks comes only if there are more blocks, or items, than may be, and never of a workload.
    ensures many { IsErrOf result Silence.TooManyBlocks →
        HasTooMany (task_view task.now) (bytes_of (task_view task.now) file.now) }
{
    match task {
        Task::OnBlocks(task) => answer_to_blocks(alloc, task, file, archive),
        Task::Union { .. } => union_of(alloc, file, archive),
        Task::Verify { .. } => Ok(verify_answer(alloc, file)?),
    }
}
