// The commands, and what each takes.
ghost use Rattle.std.specs.Prelude.{◌≡◌, IfOk, IfSome, option_and_then, option_map, option_copied};
ghost use Rattle.net_cover.specs.Reading.{cell_of};
ghost use Rattle.command_words.specs.Words.{texts_of};
ghost use Rattle.command_words.specs.Tasks.{MakesFew, add_in, archive_named, archive_verb, are_apart, cover_in, file_named, file_of, has_empty_word, identify_in, is_empty_word, may_give_cell, other_verb, sole_archive, sole_count, sole_file, task_for, task_in, task_of, task_with, union_in, union_with, verb_named};
ghost use Rattle.command_words.specs.Views.{blocks_view, said_view, task_view};

use crate::counts::count_of;
use crate::parse::{Said, read_words};
use net_cover::{Cell, cell_of};
use std::alloc::{AllocError as NoMemory, Global};

/// What is to be done, and the names of the files that it reads. `-` is the standard input.
#[derive(Clone, Copy, Debug, Drop)]
pub enum Task<'a> {
    /// What asks for the blocks of a text, or for none.
    OnBlocks(BlocksTask<'a>),
    /// To unite an archive with the nets of a file: another archive, or a text of key lines.
    Union { file: &'a str, archive: &'a str },
    /// To check the maps of a file.
    Verify { file: &'a str },
}

/// What is to be done with the blocks of a text, or with an archive alone.
#[derive(Clone, Copy, Debug, Drop)]
pub enum BlocksTask<'a> {
    /// To report of each net of a file whether it is connected.
    Check {
        file: &'a str,
    },
    /// To report of each net of a file where its vertices stand.
    Place {
        file: &'a str,
    },
    /// To report of each net of a file what its key is.
    Key {
        file: &'a str,
    },
    /// To report of each net of a file which nets of an archive it is.
    Identify {
        file: &'a str,
        archive: Option<&'a str>,
    },
    /// To report of each net of a file what its components are.
    Components {
        file: &'a str,
    },
    /// To report of each net of a file what its symmetries are.
    Symmetry {
        file: &'a str,
    },
    /// To add the nets of a file to an archive, the first under this name.
    Add {
        file: &'a str,
        archive: Option<&'a str>,
        name: Option<&'a str>,
    },
    /// To find the nets that stand in an archive more than once.
    Duplicates {
        archive: &'a str,
    },
    /// To write an archive in the newest format.
    Migrate {
        archive: &'a str,
    },
    /// To map the first net of a file to each other one.
    Same {
        file: &'a str,
    },
    /// To make so many nets, from 1 to 4,096, and to find their keys.
    Workload {
        count: u32,
    },
    /// To write each net of a file on this cell.
    Cover {
        file: &'a str,
        cell: Cell,
    },
}

impl<'a> BlocksTask<'a> {
    /// The file that the task reads.
    pub fn file(&self) -> Option<&'a str>
        ensures { option_copied result ≡ file_named (blocks_view self.now) }
    {
        match *self {
            BlocksTask::Check { file }
            | BlocksTask::Place { file }
            | BlocksTask::Key { file }
            | BlocksTask::Identify { file, .. }
            | BlocksTask::Components { file }
            | BlocksTask::Symmetry { file }
            | BlocksTask::Add { file, .. }
            | BlocksTask::Same { file }
            | BlocksTask::Cover { file, .. } => Some(file),
            BlocksTask::Duplicates { .. }
            | BlocksTask::Migrate { .. }
            | BlocksTask::Workload { .. } => None,
        }
    }

    /// The archive that the task reads.
    pub fn archive(&self) -> Option<&'a str>
        ensures { option_copied result ≡ archive_named (blocks_view self.now) }
    {
        match *self {
            BlocksTask::Identify { archive, .. } | BlocksTask::Add { archive, .. } => archive,
            BlocksTask::Duplicates { archive } | BlocksTask::Migrate { archive } => Some(archive),
            BlocksTask::Check { .. }
            | BlocksTask::Place { .. }
            | BlocksTask::Key { .. }
            | BlocksTask::Components { .. }
            | BlocksTask::Symmetry { .. }
            | BlocksTask::Same { .. }
            | BlocksTask::Workload { .. }
            | BlocksTask::Cover { .. } => None,
        }
    }
}

impl<'a> Task<'a> {
    /// The file that the task reads.
    pub fn file(&self) -> Option<&'a str>
        ensures { option_copied result ≡ file_named (task_view self.now) }
    {
        match self {
            Task::OnBlocks(task) => task.file(),
            Task::Union { file, .. } | Task::Verify { file } => Some(*file),
        }
    }

    /// The archive that the task reads.
    pub fn archive(&self) -> Option<&'a str>
        ensures { option_copied result ≡ archive_named (task_view self.now) }
    {
        match self {
            Task::OnBlocks(task) => task.archive(),
            Task::Union { archive, .. } => Some(*archive),
            Task::Verify { .. } => None,
        }
    }
}

/// The command that an argument names.
#[derive(Clone, Copy, Debug, PartialEq, Eq)]
pub(crate) enum Verb {
    Check,
    Place,
    Key,
    Identify,
    Components,
    Symmetry,
    Add,
    Duplicates,
    Migrate,
    Union,
    Same,
    Verify,
    Workload,
    Cover,
}

// A command on maps, on made nets or on cells.
fn other_verb(word: &str) -> Option<Verb>
    ensures { result ≡ other_verb word.now }
{
    if word == "same" {
        Some(Verb::Same)
    } else if word == "verify" {
        Some(Verb::Verify)
    } else if word == "workload" {
        Some(Verb::Workload)
    } else if word == "cover" {
        Some(Verb::Cover)
    } else {
        None
    }
}

// A command on an archive and no report, or one of the others.
fn archive_verb(word: &str) -> Option<Verb>
    ensures { result ≡ archive_verb word.now }
{
    if word == "add" {
        Some(Verb::Add)
    } else if word == "duplicates" {
        Some(Verb::Duplicates)
    } else if word == "migrate" {
        Some(Verb::Migrate)
    } else if word == "union" {
        Some(Verb::Union)
    } else {
        other_verb(word)
    }
}

fn verb_named(word: &str) -> Option<Verb>
    ensures { result ≡ verb_named word.now }
{
    if word == "check" {
        Some(Verb::Check)
    } else if word == "place" {
        Some(Verb::Place)
    } else if word == "key" {
        Some(Verb::Key)
    } else if word == "identify" {
        Some(Verb::Identify)
    } else if word == "components" {
        Some(Verb::Components)
    } else if word == "symmetry" {
        Some(Verb::Symmetry)
    } else {
        archive_verb(word)
    }
}

// Whether the argument stands, and is empty.
fn is_empty_word(word: Option<&str>) -> bool
    ensures { result ≡ is_empty_word (option_copied word.entry) }
{
    word.is_some_and(|word| word.is_empty())
}

fn has_empty_word(said: &Said<'_>) -> bool
    ensures { result ≡ has_empty_word (said_view said.now) }
{
    is_empty_word(said.command)
        || is_empty_word(said.second)
        || is_empty_word(said.archive)
        || is_empty_word(said.name)
        || is_empty_word(said.cell)
}

// The file is the second positional argument, and standard input if that is absent.
fn file_of<'a>(said: &Said<'a>) -> &'a str
    ensures { result.now ≡ file_of (said_view said.now) }
{
    said.second.unwrap_or("-")
}

// The file and the archive are not both the standard input.
fn are_apart(file: &str, archive: Option<&str>) -> bool
    ensures { result ≡ are_apart file.now (option_copied archive.entry) }
{
    match archive {
        Some(archive) => file != "-" || archive != "-",
        None => true,
    }
}

fn identify_in<'a>(said: &Said<'a>) -> Option<Task<'a>>
    ensures { option_map task_view result ≡ identify_in (said_view said.now) }
{
    if said.name.is_some() {
        return None;
    }
    let file = file_of(said);
    let archive = said.archive;
    if are_apart(file, archive) {
        Some(Task::OnBlocks(BlocksTask::Identify { file, archive }))
    } else {
        None
    }
}

fn add_in<'a>(said: &Said<'a>) -> Option<Task<'a>>
    ensures { option_map task_view result ≡ add_in (said_view said.now) }
{
    let file = file_of(said);
    let archive = said.archive;
    let name = said.name;
    if are_apart(file, archive) {
        Some(Task::OnBlocks(BlocksTask::Add {
            file,
            archive,
            name,
        }))
    } else {
        None
    }
}

// The archive, if nothing else is said.
fn sole_archive<'a>(said: &Said<'a>) -> Option<&'a str>
    ensures { option_copied result ≡ sole_archive (said_view said.now) }
{
    match (said.second, said.name) {
        (None, None) => said.archive,
        _ => None,
    }
}

// A file, and the archive, if one is named.
fn union_with<'a>(file: &'a str, archive: Option<&'a str>) -> Option<Task<'a>>
    ensures { option_map task_view result ≡ union_with file.now (option_copied archive.entry) }
{
    let archive = archive?;
    if are_apart(file, Some(archive)) {
        Some(Task::Union { file, archive })
    } else {
        None
    }
}

fn union_in<'a>(said: &Said<'a>) -> Option<Task<'a>>
    ensures { option_map task_view result ≡ union_in (said_view said.now) }
{
    if said.name.is_some() {
        return None;
    }
    union_with(file_of(said), said.archive)
}

// The number, if nothing else is said.
fn sole_count(said: &Said<'_>) -> Option<u32>
    ensures { result ≡ sole_count (said_view said.now) }
{
    match (said.archive, said.name) {
        (None, None) => count_of(said.second?),
        _ => None,
    }
}

// The file, if no archive and no name is given.
fn sole_file<'a>(said: &Said<'a>) -> Option<&'a str>
    ensures { option_copied result ≡ sole_file (said_view said.now) }
{
    if said.archive.is_some() || said.name.is_some() {
        None
    } else {
        Some(file_of(said))
    }
}

// The cell that an argument spells, if it is there.
fn cell_in(alloc: Global, word: Option<&str>) -> Result<Option<Cell>, NoMemory>
    ensures { IfOk result (λ cell. cell ≡ option_and_then cell_of (option_copied word.entry)) }
{
    match word {
        Some(word) => cell_of(alloc, word.as_bytes()),
        None => Ok(None),
    }
}

fn cover_in<'a>(alloc: Global, said: &Said<'a>) -> Result<Option<Task<'a>>, NoMemory>
    ensures { IfOk result (λ task. option_map task_view task ≡ cover_in (said_view said.now)) }
{
    if said.archive.is_some() || said.name.is_some() {
        return Ok(None);
    }
    let file = file_of(said);
    match cell_in(alloc, said.cell)? {
        Some(cell) => Ok(Some(Task::OnBlocks(BlocksTask::Cover { file, cell }))),
        None => Ok(None),
    }
}

// Only `cover` takes a cell.
fn may_give_cell(verb: Verb, cell: Option<&str>) -> bool
    ensures { result ≡ may_give_cell verb (option_copied cell.entry) }
{
    match verb {
        Verb::Cover => true,
        Verb::Check
        | Verb::Place
        | Verb::Key
        | Verb::Identify
        | Verb::Components
        | Verb::Symmetry
        | Verb::Add
        | Verb::Duplicates
        | Verb::Migrate
        | Verb::Union
        | Verb::Same
        | Verb::Verify
        | Verb::Workload => cell.is_none(),
    }
}

// What a command takes beside a cell.
fn task_with<'a>(alloc: Global, verb: Verb, said: &Said<'a>) -> Result<Option<Task<'a>>, NoMemory>
    ensures { IfOk result (λ task.
        option_map task_view task ≡ task_with verb (said_view said.now)) }
{
    match verb {
        Verb::Check => Ok(sole_file(said).map(|file| Task::OnBlocks(BlocksTask::Check { file }))),
        Verb::Place => Ok(sole_file(said).map(|file| Task::OnBlocks(BlocksTask::Place { file }))),
        Verb::Key => Ok(sole_file(said).map(|file| Task::OnBlocks(BlocksTask::Key { file }))),
        Verb::Identify => Ok(identify_in(said)),
        Verb::Components => Ok(sole_file(said).map(|file| Task::OnBlocks(BlocksTask::Components {
            file,
        }))),
        Verb::Symmetry => Ok(sole_file(said).map(|file| Task::OnBlocks(BlocksTask::Symmetry {
            file,
        }))),
        Verb::Add => Ok(add_in(said)),
        Verb::Duplicates => Ok(sole_archive(said).map(|archive| Task::OnBlocks(
            BlocksTask::Duplicates { archive },
        ))),
        Verb::Migrate => Ok(sole_archive(said).map(|archive| Task::OnBlocks(BlocksTask::Migrate {
            archive,
        }))),
        Verb::Union => Ok(union_in(said)),
        Verb::Same => Ok(sole_file(said).map(|file| Task::OnBlocks(BlocksTask::Same { file }))),
        Verb::Verify => Ok(sole_file(said).map(|file| Task::Verify { file })),
        Verb::Workload => Ok(sole_count(said).map(|count| Task::OnBlocks(BlocksTask::Workload {
            count,
        }))),
        Verb::Cover => cover_in(alloc, said),
    }
}

// What a command takes.
fn task_for<'a>(alloc: Global, verb: Verb, said: &Said<'a>) -> Result<Option<Task<'a>>, NoMemory>
    ensures { IfOk result (λ task.
        option_map task_view task ≡ task_for verb (said_view said.now)) }
{
    if may_give_cell(verb, said.cell) {
        task_with(alloc, verb, said)
    } else {
        Ok(None)
    }
}

// The task that is said, if no argument of it is empty.
fn task_in<'a>(alloc: Global, said: &Said<'a>) -> Result<Option<Task<'a>>, NoMemory>
    ensures { IfOk result (λ task. option_map task_view task ≡ task_in (said_view said.now)) }
{
    if has_empty_word(said) {
        return Ok(None);
    }
    let Some(word) = said.command else {
        return Ok(None);
    };
    match verb_named(word) {
        Some(verb) => task_for(alloc, verb, said),
        None => Ok(None),
    }
}

/// The task that the arguments ask for. `Ok(None)` comes if and only if they have no form, and `Err`
/// only if memory is refused.
pub fn task_of<'a>(alloc: Global, words: &'a [String]) -> Result<Option<Task<'a>>, NoMemory>
    ensures task { IfOk result (λ task.
        option_map task_view task ≡ task_of (texts_of words.entry.now)) }
    ensures few { IfOk result (λ task. IfSome task (λ task. MakesFew (task_view task))) }
{
    match read_words(alloc, words)? {
        Some(said) => task_in(alloc, &said),
        None => Ok(None),
    }
}
