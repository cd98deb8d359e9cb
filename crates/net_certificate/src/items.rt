// What a text of maps has: its items, and the text of the maps from the first of some nets to the others.
ghost use Rattle.std.specs.Prelude.{◌≡◌, ◌≤◌, IfOk, ◌<◌, ◌+◌, ◌^◌, ◌++◌, length, map, OnOk};
ghost use Rattle.line_text.specs.Lines.{rows_text};
ghost use Rattle.quotient_graph.specs.AnyGraphs.{graph_view};
ghost use Rattle.map_check.specs.Conditions.{most_images};
ghost use Rattle.graph_rows.specs.Rows.{graph_lines};
ghost use Rattle.least_key.specs.AnyNets.{net_view};
ghost use Rattle.least_key.specs.KeyedNets.{KeyedNet};
ghost use Rattle.net_certificate.specs.Items.{IsWritable, item_view};
ghost use Rattle.net_certificate.specs.NetItems.{IsItemOf, images_in, IsMapsTextOf};
ghost use Rattle.net_certificate.specs.NetSteps.{AreItemsLast, IsItemLast};

use crate::{MapAnswer, NoMemory, map_between, push_item, push_title};
use graph_rows::push_graph;
use least_key::Net;
use lists::Items;
use map_check::PeriodicMap;
use quotient_graph::AnyGraph;
use std::alloc::Global;

/// Why no map is written.
#[derive(Clone, Copy, Debug, PartialEq, Eq)]
pub enum NoMap {
    /// The graphs have different keys.
    Different,
    /// The map has more images than may be written.
    Long { entries: u64 },
    /// A number of the map is too great.
    Wide { value: i128 },
}

/// A later graph of a text: why there is no map, or the graph and a map from the first one to it.
#[derive(Debug, Drop)]
pub enum Item {
    Without(NoMap),
    With(AnyGraph, PeriodicMap),
}

/// What a text says where it has a graph: the first graph, and the items of the others.
#[derive(Debug, Drop)]
pub struct MapsText {
    pub first: AnyGraph,
    pub items: Items<Item>,
}

/// What lends a net: a net itself, or a reference to one.
pub trait LendsNet {
    ghost net: { Self → KeyedNet };

    fn net(&self) -> &Net
        ensures { net_view result.now ≡ net self.now };
}

impl LendsNet for Net {
    ghost net = { net_view };

    fn net(&self) -> &Net {
        self
    }
}

impl<'a> LendsNet for &'a Net {
    ghost net = { λ n. net_view n.now };

    fn net(&self) -> &Net {
        self
    }
}

/// The dimension of a net.
pub fn dimension_of(net: &Net) -> u8
    ensures { result ≡ (net_view net.now).placed.graph.dimension }
{
    match net {
        Net::Flat(net) => net.stable.graph().dimension(),
        Net::Space(net) => net.stable.graph().dimension(),
    }
}

/// The item of a net, if so many images may be printed.
pub fn item_of(alloc: Global, first: &Net, net: &Net, room: u64) -> Result<Item, NoMemory>
    requires { room ≤ most_images }
    ensures item { IfOk result (λ item.
        IsItemOf (net_view first.now) room (net_view net.now) (item_view item)) }
    ensures writable { IfOk result (λ item. IsWritable (item_view item)) }
    ensures few { IfOk result (λ item. images_in (item_view item) ≤ room) }
{
    match map_between(alloc, first, net, room)? {
        MapAnswer::Different => Ok(Item::Without(NoMap::Different)),
        MapAnswer::LongMap { entries } => Ok(Item::Without(NoMap::Long { entries })),
        MapAnswer::WideMap { value } => Ok(Item::Without(NoMap::Wide { value })),
        MapAnswer::Found(map) => Ok(Item::With(net.copy_graph()?, map)),
    }
}

/// So many images prints an item.
pub fn images_in(item: &Item) -> u64
    ensures { result ≡ images_in (item_view item.now) }
{
    match item {
        Item::Without(_) => 0,
        Item::With(_, map) => map.images.len() as u64,
    }
}

/// So many images are printed at most.
const MOST_IMAGES: u64 = 100_000;

// Puts the rows of the graph of a net last.
fn push_net(text: &mut Vec<u8>, net: &Net) -> Result<(), NoMemory>
    ensures { OnOk result (text.new.items ≡
        text.old.items ++ rows_text (graph_lines (net_view net.now).placed.graph)) }
{
    let graph = net.copy_graph()?;
    push_graph(text, &graph)
}

// Puts the item of net k last, and answers how many images may be printed after it.
fn push_map(text: &mut Vec<u8>, k: u32, first: &Net, net: &Net, room: u64) -> Result<u64, NoMemory>
    requires { room ≤ most_images }
    ensures { IfOk result (λ left. IsItemLast (net_view first.now) k room (net_view net.now) left
        text.old.items text.new.items) }
{
    let item = item_of(*text.allocator(), first, net, room)?;
    push_item(text, k, dimension_of(first), &item)?;
    Ok(room - images_in(&item))
}

// Puts the items of these nets last, from net 2 on.
fn push_maps<T: LendsNet>(text: &mut Vec<u8>, first: &Net, nets: &[T]) -> Result<(), NoMemory>
    requires { length nets.now + 2 < 2 ^ 32 }
    ensures { OnOk result (AreItemsLast (net_view first.now) 2 most_images (map T.net nets.now)
        text.old.items text.new.items) }
{
    let mut room = MOST_IMAGES;
    let mut k = 2u32;
    for lender in nets {
        let net = lender.net();
        room = push_map(text, k, first, net, room)?;
        k += 1;
    }
    Ok(())
}

/// The text that the command `same` prints for these nets: the maps from the first to the others,
/// or the first line alone, if there is no net. At most 100,000 images are printed.
pub fn maps_text(alloc: Global, nets: &[Net]) -> Result<Vec<u8>, NoMemory>
    requires few { length nets.now + 1 < 2 ^ 32 }
    ensures { IfOk result (λ text. IsMapsTextOf (map net_view nets.now) text.items) }
{
    maps_text_of(alloc, nets)
}

/// The same text, for nets that are lent.
pub fn maps_text_of<T: LendsNet>(alloc: Global, nets: &[T]) -> Result<Vec<u8>, NoMemory>
    requires few { length nets.now + 1 < 2 ^ 32 }
    ensures { IfOk result (λ text. IsMapsTextOf (map T.net nets.now) text.items) }
{
    let mut text = Vec::new(alloc);
    push_title(&mut text)?;
    let [lender, others @ ..] = nets else {
        return Ok(text);
    };
    let first = lender.net();
    push_net(&mut text, first)?;
    push_maps(&mut text, first, others)?;
    Ok(text)
}
