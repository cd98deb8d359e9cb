// Unites an archive with items.
ghost use Rattle.std.specs.Prelude.{◌≡◌, ◌≤◌, ℕ, All, length, IfOk, IfErr, OnOk};
ghost use Rattle.archive_text.specs.Entries.{entry_view, entry_views};
ghost use Rattle.net_archive.specs.Archives.{IsEntry, archive_with, most_entries};
ghost use Rattle.archive_union.specs.Unions.{united, with_item, IsRefused, IsUnion};
ghost use Rattle.archive_union.specs.Faults.{IsUniteFault, fault_of_add};

use net_archive::{AddFault, Archive, Entry};
use std::alloc::AllocError as NoMemory;

/// Why an archive is not united with items.
#[derive(Clone, Copy, PartialEq, Eq)]
pub enum UniteFault {
    /// The item with this number, counted from 1, cannot be added.
    NotAdded { number: u32, fault: AddFault },
    NoMemory,
}

impl From<NoMemory> for UniteFault {
    ghost use Rattle.archive_union.specs.declared.uniting.UniteFault.{UniteFault};

    ghost from_gives = { λ _ fault. fault ≡ UniteFault.NoMemory };

    fn from(_refused: NoMemory) -> UniteFault {
        UniteFault::NoMemory
    }
}

// The fault of the item with this number, which cannot be added.
fn not_added(number: u32, fault: AddFault) -> UniteFault
    ensures { result ≡ fault_of_add number fault }
{
    match fault {
        AddFault::NoMemory => UniteFault::NoMemory,
        _ => UniteFault::NotAdded { number, fault },
    }
}

// Adds an item, unless it is there.
fn add_item(archive: &mut Archive, item: Entry) -> Result<(), AddFault>
    requires { IsEntry (entry_view item) }
    ensures added { OnOk result (archive.new ≡
        archive_with archive.old (with_item archive.old.entries (entry_view item))) }
    ensures refused { IfErr result (IsRefused archive.old (entry_view item)) }
{
    if archive.has(&item.name, &item.key) {
        return Ok(());
    }
    archive.add_entry(item)
}

// Adds each of the items that is not there.
fn add_items(archive: &mut Archive, items: Vec<Entry>) -> Result<(), UniteFault>
    requires each { All (λ e. IsEntry (entry_view e)) items.items }
    requires few { length items.items ≤ most_entries }
    ensures united { OnOk result (archive.new ≡
        archive_with archive.old (united archive.old.entries (entry_views items.items))) }
    ensures fault { IfErr result (IsUniteFault archive.old (entry_views items.items)) }
{
    let mut number = 1u32;
    for item in items {
        if let Err(fault) = add_item(archive, item) {
            return Err(not_added(number, fault));
        }
        number += 1;
    }
    Ok(())
}

/// The union of an archive and of items. These are taken in order: one whose name and key an entry
/// has already is passed over, and any other one is added. Then the archive is regrouped.
pub fn unite(archive: Archive, items: Vec<Entry>) -> Result<Archive, UniteFault>
    requires each { All (λ e. IsEntry (entry_view e)) items.items }
    requires few { length items.items ≤ most_entries }
    ensures union { IfOk result (IsUnion archive (entry_views items.items)) }
    ensures fault { IfErr result (IsUniteFault archive (entry_views items.items)) }
{
    let mut archive = archive;
    add_items(&mut archive, items)?;
    archive.regroup()?;
    Ok(archive)
}
