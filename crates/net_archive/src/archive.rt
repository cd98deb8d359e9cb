// An archive.
ghost use Rattle.std.specs.Prelude.{◌≡◌, ◌≤◌, All, IfOk, IfErr, OnOk, OnErr, MatchResult, length};
ghost use Rattle.periodic_net.specs.Graph.{Graph, IsGraph};
ghost use Rattle.periodic_net.specs.Maps.{BareIso, Iso};
ghost use Rattle.key_theory.specs.Key.{IsKeyOf};
ghost use Rattle.least_key.specs.AnyNets.{net_view};
ghost use Rattle.least_key.specs.KeyedNets.{HasKinds};
ghost use Rattle.archive_text.specs.Entries.{EntryView, entry_view, entry_views};
ghost use Rattle.archive_text.specs.Groups.{AreGroups, numbers_in};
ghost use Rattle.archive_text.specs.Lookups.{names_with};
ghost use Rattle.archive_text.specs.Regrouped.{regrouped};
ghost use Rattle.net_archive.specs.Adding.{IsAddFault, IsEntryFault, IsEntryOf};
ghost use Rattle.net_archive.specs.Deciding.{AreBareNamesOf, AreGroupsBy, AreNamesOf, StandTogetherBy, is_there};
ghost use Rattle.net_archive.specs.Faults.{IsFaultOf};
ghost use Rattle.net_archive.specs.Archives.{ArchiveView, IsArchive, IsEntry, archive_text, archive_with, empty_archive, most_entries, version_number, with_entry};
ghost use Rattle.net_archive.specs.Migrating.{IsMigrated, IsMigrateFault};
ghost use Rattle.archive_text.specs.Texts.{most_bytes};

use crate::adding::{append, are_many, entry_of, is_too_long, rows_of};
use crate::migrating::newest_text;
use crate::reading::{body_of, read_text};
use crate::regrouping::rows_in_groups;
use crate::{AddFault, ArchiveFault, MigrateFault};
use archive_text::{Entries, Entry, Matches, Version, push_first};
use least_key::{Kinds, Net};
use line_text::is_name;
use quotient_graph::Key;
use std::alloc::{AllocError as NoMemory, Global};
use std::marker::Model;

/// Named nets, each with its key and the sizes of shells of its classes, in a version of the
/// format. Contracts see the version and the entries.
#[derive(Debug, Drop)]
pub struct Archive {
    version: Version,
    entries: Entries,
    body: Vec<u8>,
}

impl Model for Archive {
    ghost use Rattle.net_archive.specs.Archives.{ArchiveView, IsInMemory};

    ghost Value = { ArchiveView };

    ghost view = { λ a. record { version = a.version; entries = a.entries } };

    ghost invariant = { λ a.
        IsInMemory (record { version = a.version; entries = a.entries }) a.body.items };
}

impl Archive {
    /// The archive without entries, in version 2.
    pub fn empty(alloc: Global) -> Archive
        ensures { result ≡ empty_archive }
    {
        Archive {
            version: Version::Two,
            entries: Entries::new(alloc),
            body: Vec::new(alloc),
        }
    }

    /// The archive whose text this is, or the first fault of the text. Every key, and every list of
    /// shells, is computed anew.
    pub fn read(alloc: Global, text: Vec<u8>) -> Result<Archive, ArchiveFault>
        requires { length text.items ≤ most_bytes }
        // What is answered has exactly this text.
        ensures read { IfOk result (λ a. text.items ≡ archive_text a) }
        // The fault is the first one of the text.
        ensures fault { IfErr result (IsFaultOf text.items) }
        // The text of an archive is read as that archive, unless memory runs out.
        ensures every { (a : ArchiveView) → IsArchive a → text.items ≡ archive_text a →
            MatchResult result (λ b. b ≡ a) (λ fault. fault ≡ ArchiveFault.NoMemory) }
    {
        let (version, entries) = read_text(alloc, &text)?;
        let body = Vec::from_slice(alloc, body_of(&text, version));
        drop(text);
        Ok(Archive {
            version,
            entries,
            body: body?,
        })
    }

    /// The entries in their order.
    pub fn entries(&self) -> &[Entry]
        ensures entries { entry_views result.now ≡ self.now.entries }
        ensures archive { IsArchive self.now }
    {
        self.entries.as_slice()
    }

    /// What holds of each archive. A proof knows it only after a call whose contract says so: this
    /// one, which does nothing.
    pub fn recall(&self)
        ensures { IsArchive self.now }
    {
        let _ = &self.entries;
    }

    /// The entries in their order, given away.
    pub fn into_entries(self) -> Vec<Entry>
        ensures entries { entry_views result.items ≡ self.entries }
        ensures each { All (λ entry. IsEntry (entry_view entry)) result.items }
        ensures few { length result.items ≤ most_entries }
        ensures archive { IsArchive self }
    {
        self.entries.into_vec()
    }

    /// The version of the format, 1 or 2.
    pub fn version(&self) -> u8
        ensures { result ≡ version_number self.now.version }
    {
        match self.version {
            Version::One => 1,
            Version::Two => 2,
        }
    }

    /// The names of exactly the entries with this key, in their order. If it is the key of a
    /// graph, these are the entries whose nets are isomorphic to that of the graph.
    pub fn lookup<'a, 'k>(&'a self, key: &'k Key) -> Matches<'a, 'k>
        // The names of exactly the entries with this key, in order,
        ensures names { result ≡ names_with key.now self.now.entries }
        // which are those whose nets are isomorphic to any net with this key,
        ensures isomorphic { (G : Graph) → IsGraph G → IsKeyOf G key.now →
            AreNamesOf G self.now.entries result }
        // and so are their infinite graphs, whatever bijection shows it.
        ensures bare { (G : Graph) → IsGraph G → IsKeyOf G key.now →
            AreBareNamesOf G self.now.entries result }
        ensures archive { IsArchive self.now }
    {
        self.entries.lookup(key)
    }

    /// The groups of two or more entries with equal keys, as rising numbers of entries from 1, in
    /// the order of their first members. Two entries stand in one group if and only if their nets
    /// are isomorphic.
    pub fn duplicates(&self) -> Result<Vec<Vec<u32>>, NoMemory>
        // All groups of two or more entries with equal keys,
        ensures groups { IfOk result (λ groups.
            AreGroups self.now.entries (numbers_in groups.items)) }
        // which are the groups of entries with isomorphic nets,
        ensures isomorphic { IfOk result (λ groups.
            AreGroupsBy Iso self.now.entries (numbers_in groups.items)) }
        // and with isomorphic infinite graphs, whatever bijection shows it.
        ensures bare { IfOk result (λ groups.
            AreGroupsBy BareIso self.now.entries (numbers_in groups.items)) }
        ensures archive { IsArchive self.now }
    {
        self.entries.duplicates()
    }

    /// The text in the archive's version.
    pub fn text(&self) -> Result<Vec<u8>, NoMemory>
        ensures { IfOk result (λ text. text.items ≡ archive_text self.now) }
    {
        let mut text = Vec::new(*self.body.allocator());
        push_first(&mut text, self.version)?;
        text.extend_from_slice(&self.body)?;
        Ok(text)
    }

    /// The text in version 2.
    pub fn migrated(&self) -> Result<Vec<u8>, MigrateFault>
        // The archive of the same entries in version 2.
        ensures text { IfOk result (λ text. IsMigrated self.now text.items) }
        ensures fault { IfErr result (IsMigrateFault self.now) }
    {
        newest_text(*self.body.allocator(), self.entries())
    }

    /// Whether an entry has both this name and this key.
    pub fn has(&self, name: &[u8], key: &Key) -> bool
        ensures there { result ≡ is_there self.now.entries name.now key.now }
        ensures archive { IsArchive self.now }
    {
        let mut names = self.entries.lookup(key);
        while let Some(found) = names.next() {
            if name == found {
                return true;
            }
        }
        false
    }

    /// Puts an entry last. A refusal changes nothing.
    pub fn add_entry(&mut self, entry: Entry) -> Result<(), AddFault>
        requires { IsEntry (entry_view entry) }
        // The entry is last, and the others are as they were.
        ensures added { OnOk result (self.new ≡ with_entry self.old (entry_view entry)) }
        ensures same { OnErr result (self.new ≡ self.old) }
        // The first cause that holds: the name is taken, or the archive is full.
        ensures fault { IfErr result (IsEntryFault self.old (entry_view entry)) }
    {
        if self.entries.has_name(&entry.name) {
            drop(entry);
            return Err(AddFault::NameTaken);
        }
        let rows = rows_of(*self.body.allocator(), self.version, &entry)?;
        if are_many(self.entries.as_slice()) || is_too_long(&self.body, &rows) {
            drop(entry);
            drop(rows);
            return Err(AddFault::Full);
        }
        let appended = append(&mut self.entries, &mut self.body, entry, &rows);
        drop(rows);
        appended?;
        Ok(())
    }

    /// Puts the graph of a net last, under a name. A refusal changes nothing. The coordination
    /// sequence of each class is counted; `add_with_kinds` counts one for each kind of class.
    pub fn add(&mut self, name: &[u8], net: &Net) -> Result<(), AddFault>
        // The entry of this name and net is last, and the others are as they were.
        ensures added { OnOk result ((e : EntryView) × IsEntryOf name.now (net_view net.now) e ×
            (self.new ≡ with_entry self.old e)) }
        ensures same { OnErr result (self.new ≡ self.old) }
        // The first cause that holds: the name is taken, it is no name, the archive is full.
        ensures fault { IfErr result (IsAddFault self.old name.now (net_view net.now)) }
    {
        let kinds = net.separate_kinds(*self.body.allocator())?;
        self.add_with_kinds(name, net, &kinds)
    }

    /// The same as `add`, with kinds of the classes of the net at hand.
    pub fn add_with_kinds(&mut self, name: &[u8], net: &Net, kinds: &Kinds) -> Result<(), AddFault>
        requires { HasKinds (net_view net.now) kinds.now }
        // The entry of this name and net is last, and the others are as they were.
        ensures added { OnOk result ((e : EntryView) × IsEntryOf name.now (net_view net.now) e ×
            (self.new ≡ with_entry self.old e)) }
        ensures same { OnErr result (self.new ≡ self.old) }
        // The first cause that holds: the name is taken, it is no name, the archive is full.
        ensures fault { IfErr result (IsAddFault self.old name.now (net_view net.now)) }
    {
        if self.entries.has_name(name) {
            return Err(AddFault::NameTaken);
        }
        if !is_name(name) {
            return Err(AddFault::BadName);
        }
        let entry = entry_of(*self.body.allocator(), name, net, kinds)?;
        self.add_entry(entry)
    }

    /// Puts entries with equal keys together, in their old order, and the groups in the order of
    /// their first entries. Then entries with isomorphic nets stand together. A refusal changes
    /// nothing.
    pub fn regroup(&mut self) -> Result<(), NoMemory>
        // The same entries, ordered by their groups;
        ensures regrouped { OnOk result (
            self.new ≡ archive_with self.old (regrouped self.old.entries)) }
        // so entries with isomorphic nets stand together,
        ensures isomorphic { OnOk result (StandTogetherBy Iso self.new.entries) }
        // and those with isomorphic infinite graphs.
        ensures bare { OnOk result (StandTogetherBy BareIso self.new.entries) }
        ensures archive { IsArchive self.new }
        ensures same { OnErr result (self.new ≡ self.old) }
    {
        let alloc = *self.body.allocator();
        let body = rows_in_groups(alloc, self.version, self.entries.as_slice())?;
        self.entries.regroup()?;
        self.body = body;
        Ok(())
    }
}
