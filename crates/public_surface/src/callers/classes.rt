// From a placement to the primitive graph and the coordination sequences.
ghost use Rattle.std.specs.Prelude.{◌≡◌};
ghost use Rattle.periodic_net.specs.Correspondence.{IsClass};

use coordination::shells;
use net_translations::{Unstable, classes, settle};
use primitive_cell::{PrimEdge, Primitive, divide};
use quotient_graph::{Classes, NoMemory, Placed, Stable};
use std::alloc::Global;
use vecdim::{Triple, Vect};

pub fn stable_of<const D: usize>(alloc: Global, p: Placed<D>) -> Result<Stable<D>, Unstable> {
    settle(alloc, p)
}

pub fn twins(fault: Unstable) -> Option<(u32, u32, Triple)> {
    match fault {
        Unstable::Collision { u, v, t } => Some((u, v, t)),
        Unstable::NoMemory => None,
    }
}

pub fn classes_of<const D: usize>(alloc: Global, s: &Stable<D>) -> Result<Classes<D>, NoMemory> {
    classes(alloc, s)
}

pub fn divided<const D: usize>(
    alloc: Global,
    s: &Stable<D>,
    c: &Classes<D>,
) -> Result<Primitive<D>, NoMemory>
    requires { c.now.graph ≡ s.now.graph }
{
    divide(alloc, s, c)
}

pub fn primitive_from<const D: usize>(
    basis: Vec<Vect<D>>,
    vertices: u32,
    edges: Vec<PrimEdge<D>>,
    class_of: Vec<u32>,
) -> Primitive<D> {
    Primitive {
        basis,
        vertices,
        edges,
        class_of,
    }
}

pub fn primitive_edge<const D: usize>(u: u32, v: u32, shift: Vect<D>) -> PrimEdge<D> {
    PrimEdge { u, v, shift }
}

pub fn shells_of<const D: usize>(
    alloc: Global,
    c: &Classes<D>,
    class: u32,
) -> Result<Vec<u32>, NoMemory>
    requires { IsClass c.now.classes class }
{
    shells(alloc, c, class)
}
