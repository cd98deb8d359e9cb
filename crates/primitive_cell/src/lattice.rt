// The lattices of a net: that of its translations, and that of the vectors of its class graph.
ghost use Rattle.std.specs.Prelude.{◌≤ℤ◌, ◌≤◌, pos};
ghost use Rattle.integers.specs.Vectors.{Vector};
ghost use Rattle.periodic_net.specs.Classes.{AreTranslations};
ghost use Rattle.periodic_net.specs.Correspondence.{IsClass};
ghost use Rattle.periodic_net.specs.Limits.{most_units};
ghost use Rattle.quotient_graph.specs.ClassNets.{arcs_of};
ghost use Rattle.vecdim.specs.Lattices.{Members};
ghost use Rattle.primitive_cell.specs.Lattices.{AreInside};
ghost use Rattle.primitive_cell.specs.PrimitiveCells.{IsTranslationLattice};

use quotient_graph::{ClassArc, ClassGraph, Stable};
use vecdim::{Staircase, Vect};

/// The lattice of all translations, from those with parts from 0 to D0 - 1.
pub fn translation_lattice<const D: usize>(
    net: &Stable<D>,
    translations: &[Vect<D>],
) -> Staircase<D>
    requires { AreTranslations net.now.graph net.now.placement translations.now }
    ensures { IsTranslationLattice D net.now result }
{
    net.graph().recall();
    let mut stairs = Staircase::from_bound(net.placed().d0());
    stairs.insert_all(translations);
    stairs.recall();
    stairs
}

// Adds the vectors of these arcs, and all that they generate.
fn insert_arcs<const D: usize>(lattice: &mut Staircase<D>, arcs: &[ClassArc<D>])
    ensures kept { (v : Vector) → Members D lattice.old v → Members D lattice.new v }
    ensures added { AreInside D lattice.new arcs.now }
{
    for arc in arcs {
        lattice.insert(&arc.vector);
    }
}

// The lattice that the vectors of all arcs span, with `bound` times each whole vector.
pub fn arc_lattice<const D: usize>(net: &ClassGraph<D>, bound: i128) -> Staircase<D>
    requires from { pos 1 ≤ℤ bound }
    requires to { bound ≤ℤ pos most_units }
    ensures { (c : _) → IsClass net.now c → AreInside D result (arcs_of net.now c) }
{
    let count = net.count();
    let mut lattice = Staircase::from_bound(bound);
    for c in 1..count + 1 {
        insert_arcs(&mut lattice, net.arcs(c));
    }
    lattice
}
