// Archives of named nets.
ghost use Rattle.std.specs.Prelude.{◌≤◌, length};
ghost use Rattle.archive_text.specs.Texts.{most_bytes};
ghost use Rattle.least_key.specs.AnyNets.{net_view};
ghost use Rattle.least_key.specs.KeyedNets.{HasKinds};

use coordination::Sequences;
use key_theory::Kinds;
use least_key::{Net, Refusal};
use lists::Items;
use net_archive::{AddFault, Archive, ArchiveFault, Entry, Matches};
use quotient_graph::{AnyGraph, Key, NoMemory};
use std::alloc::Global;

pub fn entry_of(name: Vec<u8>, graph: AnyGraph, key: Key, shells: Sequences) -> Entry {
    Entry {
        name,
        graph,
        key,
        shells,
    }
}

pub fn without_entries(alloc: Global) -> Archive {
    Archive::empty(alloc)
}

pub fn archive_in(alloc: Global, text: Vec<u8>) -> Result<Archive, ArchiveFault>
    requires { length text.items ≤ most_bytes }
{
    Archive::read(alloc, text)
}

pub fn entries_of(archive: &Archive) -> &[Entry] {
    archive.entries()
}

pub fn names_with<'a, 'k>(archive: &'a Archive, key: &'k Key) -> Matches<'a, 'k> {
    archive.lookup(key)
}

pub fn next_name<'a, 'k>(names: &mut Matches<'a, 'k>) -> Option<&'a [u8]> {
    names.next()
}

pub fn groups_of(archive: &Archive) -> Result<Vec<Vec<u32>>, NoMemory> {
    archive.duplicates()
}

pub fn add(archive: &mut Archive, name: &[u8], net: &Net) -> Result<(), AddFault> {
    archive.add(name, net)
}

pub fn add_with_kinds(
    archive: &mut Archive,
    name: &[u8],
    net: &Net,
    kinds: &Kinds,
) -> Result<(), AddFault>
    requires { HasKinds (net_view net.now) kinds.now }
{
    archive.add_with_kinds(name, net, kinds)
}

pub fn text_of(archive: &Archive) -> Result<Vec<u8>, NoMemory> {
    archive.text()
}

pub fn number_of(fault: AddFault) -> Option<u8> {
    match fault {
        AddFault::NameTaken => Some(1),
        AddFault::BadName => Some(2),
        AddFault::Full => Some(3),
        AddFault::NoMemory => None,
    }
}

pub fn entry_refused(line: u32, refusal: Refusal) -> ArchiveFault {
    ArchiveFault::EntryRefused(line, refusal)
}

pub fn key_differs(line: u32, kept: Key, computed: Key) -> ArchiveFault {
    ArchiveFault::KeyDiffers {
        line,
        kept,
        computed,
    }
}

pub fn shells_differ(
    line: u32,
    class: u32,
    kept: Items<u32>,
    computed: Items<u32>,
) -> ArchiveFault {
    ArchiveFault::ShellsDiffer {
        line,
        class,
        kept,
        computed,
    }
}

pub fn count_differs(line: u32, kept: u32, computed: u32) -> ArchiveFault {
    ArchiveFault::CountDiffers {
        line,
        kept,
        computed,
    }
}

pub fn line_of(fault: &ArchiveFault) -> Option<u32> {
    match fault {
        ArchiveFault::BadLine(line) => Some(*line),
        ArchiveFault::RepeatedName(line) => Some(*line),
        ArchiveFault::EntryRefused(line, _) => Some(*line),
        ArchiveFault::KeyDiffers { line, .. } => Some(*line),
        ArchiveFault::TooManyEntries => None,
        ArchiveFault::Version(line) => Some(*line),
        ArchiveFault::CountDiffers { line, .. } => Some(*line),
        ArchiveFault::ShellsDiffer { line, .. } => Some(*line),
        ArchiveFault::NoMemory => None,
    }
}
