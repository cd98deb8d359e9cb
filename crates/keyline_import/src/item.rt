// What is read of a text: its items.
ghost use Rattle.std.specs.Prelude.{◌≡◌};
ghost use Rattle.keyline_import.specs.Faults.{name_of_kind, number_of_kind};

use crate::NoMemory;
use quotient_graph::AnyGraph;

/// A net under a name, or the first fault of an item that is none.
#[derive(Debug, Drop)]
pub struct Item<'a> {
    /// The line that begins it, numbered from 1.
    pub line: u32,
    /// What its id line says, if one was read before a fault.
    pub name: Option<&'a [u8]>,
    pub body: ItemBody,
}

/// What an item holds.
#[derive(Debug, Drop)]
pub enum ItemBody {
    /// The graph of its key line, and the number of rows that repeat an edge of an earlier one.
    Graph(AnyGraph, u32),
    Faulty(ItemFault),
}

/// The first fault of an item, with its line, numbered from 1.
#[derive(Clone, Copy, Debug, PartialEq, Eq)]
pub struct ItemFault {
    pub line: u32,
    pub kind: ItemFaultKind,
}

/// Why an item has no net: the first sentence that is true, by the lines in order, and in one line
/// in the order Twice, BadKey, BadId, Missing.
#[derive(Clone, Copy, Debug, PartialEq, Eq)]
pub enum ItemFaultKind {
    /// A key line says no key.
    BadKey,
    /// An id line gives no name.
    BadId,
    /// There is a second key line or a second id line.
    Twice,
    /// The item ends without a key line or without an id line.
    Missing,
    /// The text ends in the item. The line is the one that begins it.
    NoEnd,
}

impl ItemFaultKind {
    /// The number by which it is reported.
    pub fn number(self) -> u8
        ensures { result ≡ number_of_kind self }
    {
        match self {
            ItemFaultKind::BadKey => 1,
            ItemFaultKind::BadId => 2,
            ItemFaultKind::Twice => 3,
            ItemFaultKind::Missing => 4,
            ItemFaultKind::NoEnd => 5,
        }
    }

    /// The name by which it is reported.
    pub fn name(self) -> &'static [u8]
        ensures { result.now ≡ name_of_kind self }
    {
        match self {
            ItemFaultKind::BadKey => b"BadKey",
            ItemFaultKind::BadId => b"BadId",
            ItemFaultKind::Twice => b"Twice",
            ItemFaultKind::Missing => b"Missing",
            ItemFaultKind::NoEnd => b"NoEnd",
        }
    }
}

/// Why a text is not read.
#[derive(Clone, Copy, Debug, PartialEq, Eq)]
pub enum ItemRefusal {
    /// A 4,097th item begins.
    TooManyItems,
    NoMemory,
}

impl From<NoMemory> for ItemRefusal {
    ghost use Rattle.keyline_import.specs.declared.item.ItemRefusal.{ItemRefusal};

    ghost from_gives = { λ _ refusal. refusal ≡ ItemRefusal.NoMemory };

    fn from(_refused: NoMemory) -> ItemRefusal {
        ItemRefusal::NoMemory
    }
}
