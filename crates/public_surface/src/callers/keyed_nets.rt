// Nets with their keys, and why a graph gets none.
ghost use Rattle.least_key.specs.KeyedNets.{HasKinds, IsKeyed};
ghost use Rattle.least_key.specs.AnyNets.{net_view};

use barycentre::WidePlacement;
use coordination::Sequences;
use key_theory::Kinds;
use least_key::{KindedNet, Net, NetOf, Refusal, identify, identify_with_kinds, keys_of};
use primitive_cell::Primitive;
use quotient_graph::{AnyGraph, Classes, Key, NoMemory, Split, Stable};
use std::alloc::Global;
use vecdim::Triple;

pub fn identified(alloc: Global, g: AnyGraph) -> Result<Net, Refusal> {
    identify(alloc, g)
}

pub fn identified_with_kinds(alloc: Global, g: AnyGraph) -> Result<KindedNet, Refusal> {
    identify_with_kinds(alloc, g)
}

pub fn answers_of(
    alloc: Global,
    graphs: &[AnyGraph],
) -> Result<Vec<Result<Net, Refusal>>, NoMemory> {
    keys_of(alloc, graphs)
}

pub fn flat_net(net: Net) -> Result<NetOf<2>, NetOf<3>> {
    match net {
        Net::Flat(net) => Ok(net),
        Net::Space(net) => Err(net),
    }
}

pub fn net_from<const D: usize>(
    stable: Stable<D>,
    classes: Classes<D>,
    primitive: Primitive<D>,
    key: Key,
) -> NetOf<D>
    requires { IsKeyed (record {
      placed = stable;
      classes = classes;
      cell = primitive;
      key = key;
    }) }
{
    NetOf {
        stable,
        classes,
        primitive,
        key,
    }
}

pub fn key_of(net: &Net) -> &Key {
    net.key()
}

pub fn kinded(net: Net, kinds: Kinds) -> KindedNet {
    KindedNet { net, kinds }
}

pub fn kinds_apart(net: &Net, alloc: Global) -> Result<Kinds, NoMemory> {
    net.separate_kinds(alloc)
}

pub fn sequences_of(net: &Net, alloc: Global, kinds: &Kinds) -> Result<Sequences, NoMemory>
    requires { HasKinds (net_view net.now) kinds.now }
{
    net.sequences(alloc, kinds)
}

pub fn without_modulus(first: u32, second: u32, third: u32) -> Refusal {
    Refusal::NoModulus {
        first,
        second,
        third,
    }
}

pub fn colliding(dim: u8, u: u32, v: u32, t: Triple) -> Refusal {
    Refusal::Collision { dim, u, v, t }
}

pub fn with_much_work(starts_done: u32, counted: u64) -> Refusal {
    Refusal::TooMuch {
        starts_done,
        counted,
    }
}

pub fn split_told(refusal: Refusal) -> Option<Split> {
    match refusal {
        Refusal::Disconnected(split) => Some(split),
        Refusal::Degenerate(split) => Some(split),
        Refusal::NoModulus { .. } => None,
        Refusal::WidePlacement(_) => None,
        Refusal::Collision { .. } => None,
        Refusal::TooMuch { .. } => None,
        Refusal::NoMemory => None,
    }
}

pub fn placed_wide(wide: WidePlacement) -> Refusal {
    Refusal::WidePlacement(wide)
}
