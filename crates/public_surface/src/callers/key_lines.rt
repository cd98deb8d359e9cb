// Nets from key lines.
ghost use Rattle.std.specs.Prelude.{◌≤◌, length};
ghost use Rattle.cgd_lex.specs.Limits.{longest_text};

use keyline_import::{Item, ItemBody, ItemFault, ItemFaultKind, ItemRefusal, items};
use quotient_graph::AnyGraph;
use std::alloc::Global;

pub fn items_in<'a>(alloc: Global, text: &'a [u8]) -> Result<Vec<Item<'a>>, ItemRefusal>
    requires { length text.now ≤ longest_text }
{
    items(alloc, text)
}

pub fn item<'a>(line: u32, name: Option<&'a [u8]>, body: ItemBody) -> Item<'a> {
    Item { line, name, body }
}

pub fn graph_of(body: ItemBody) -> Option<(AnyGraph, u32)> {
    match body {
        ItemBody::Graph(graph, repeats) => Some((graph, repeats)),
        ItemBody::Faulty(_) => None,
    }
}

pub fn fault(line: u32, kind: ItemFaultKind) -> ItemFault {
    ItemFault { line, kind }
}

pub fn is_of_the_key(kind: ItemFaultKind) -> bool {
    match kind {
        ItemFaultKind::BadKey => true,
        ItemFaultKind::BadId
        | ItemFaultKind::Twice
        | ItemFaultKind::Missing
        | ItemFaultKind::NoEnd => false,
    }
}

pub fn has_too_many(refusal: ItemRefusal) -> bool {
    match refusal {
        ItemRefusal::TooManyItems => true,
        ItemRefusal::NoMemory => false,
    }
}
