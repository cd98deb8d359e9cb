// What is reported of a net with its key.
ghost use Rattle.std.specs.Prelude.{◌≡◌, ◌≢◌, ◌++◌, IfOk, OnOk, true};
ghost use Rattle.least_key.specs.AnyNets.{net_view};
ghost use Rattle.least_key.specs.KeyedNets.{IsKeyed};
ghost use Rattle.primitive_net.specs.Faults.{IsFaultOf, no_memory};
ghost use Rattle.primitive_net.specs.PrimitiveNets.{IsPrimitiveNet};
ghost use Rattle.symmetry_answers.specs.Due.{IsFaultTold, IsGroupTold, IsSymmetryTold};

use crate::NoMemory;
use crate::group_lines::push_group;
use crate::lines::{push_cell, push_fault, push_placing};
use cgd_read::Names;
use least_key::{Net, NetOf, Refusal};
use lists::Items;
use net_operations::group_of;
use net_report::Judged;
use primitive_net::{PrimitiveFault, divided_net, is_primitive};
use quotient_graph::{Classes, Placed};
use std::alloc::Global;

// The lines of a net, whose primitive graph is placed so and has these classes.
fn group_lines<const D: usize>(
    alloc: Global,
    net: &NetOf<D>,
    placed: &Placed<D>,
    classes: &Classes<D>,
) -> Result<Judged<Items<u8>>, NoMemory>
    requires { IsPrimitiveNet net.now placed.now classes.now }
    ensures { IfOk result (λ lines. IsSymmetryTold net.now lines.accepted lines.told) }
{
    let group = group_of(alloc, placed, classes, net.key.numbers())?;
    let mut text = Vec::new(alloc);
    push_cell(&mut text, net)?;
    push_placing(&mut text, placed)?;
    push_group(&mut text, placed.graph().dimension(), &group)?;
    Ok(Judged {
        told: Items::from_vec(text),
        accepted: true,
    })
}

// Whether a fault is reported: running out of memory is not.
fn is_told(fault: &PrimitiveFault) -> bool
    ensures { result ≡ true → fault.now ≢ no_memory }
{
    !matches!(fault, PrimitiveFault::Refused(Refusal::NoMemory))
}

// The lines of a net whose primitive graph is not placed.
fn fault_lines<const D: usize>(
    alloc: Global,
    net: &NetOf<D>,
    fault: &PrimitiveFault,
) -> Result<Judged<Items<u8>>, NoMemory>
    requires { IsFaultOf (net.now).cell.graph fault.now }
    ensures { IfOk result (λ lines. IsSymmetryTold net.now lines.accepted lines.told) }
{
    if !is_told(fault) {
        return Err(NoMemory);
    }
    let names = Names::new(alloc);
    let mut text = Vec::new(alloc);
    push_cell(&mut text, net)?;
    push_fault(&mut text, &names, net.stable.graph().dimension(), fault)?;
    Ok(Judged {
        told: Items::from_vec(text),
        accepted: false,
    })
}

// The lines of a net of dimension D.
fn lines_of<const D: usize>(alloc: Global, net: &NetOf<D>) -> Result<Judged<Items<u8>>, NoMemory>
    requires { IsKeyed net.now }
    ensures { IfOk result (λ lines. IsSymmetryTold net.now lines.accepted lines.told) }
{
    if is_primitive(net) {
        return group_lines(alloc, net, net.stable.placed(), &net.classes);
    }
    match divided_net(alloc, net) {
        Ok(found) => group_lines(alloc, net, found.stable.placed(), &found.classes),
        Err(fault) => fault_lines(alloc, net, &fault),
    }
}

/// The lines of a net with its key, and whether it has its group.
pub fn symmetry_lines(alloc: Global, net: &Net) -> Result<Judged<Items<u8>>, NoMemory>
    ensures { IfOk result (λ lines.
        IsSymmetryTold (net_view net.now) lines.accepted lines.told) }
{
    net.key(); // it is a net with its key
    match net {
        Net::Flat(net) => lines_of(alloc, net),
        Net::Space(net) => lines_of(alloc, net),
    }
}
