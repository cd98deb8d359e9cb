// A class graph in the coordinates of a lattice.
ghost use Rattle.std.specs.Prelude.{◌≡◌, ◌⊎◌, ◌≤ℤ◌, pos, IfOk};
ghost use Rattle.integers.specs.Vectors.{HasDimension, IsWithin};
ghost use Rattle.periodic_net.specs.Limits.{most_coordinate, most_units};
ghost use Rattle.key_theory.specs.Coordinates.{arc_by_basis, AreCoordinates};
ghost use Rattle.primitive_cell.specs.Lattices.{basis_of, AreInside, AreWithinUnits, IsInCoordinates, IsInside};

use crate::NoMemory;
use crate::lattice::arc_lattice;
use quotient_graph::{ClassArc, ClassGraph, Classes};
use std::alloc::Global;
use vecdim::Staircase;

// The arc, with its vector in coordinates.
fn arc_in<const D: usize>(lattice: &Staircase<D>, arc: &ClassArc<D>) -> ClassArc<D>
    requires dimension { (D ≡ 2) ⊎ (D ≡ 3) }
    requires inside { IsInside D lattice.now arc.now }
    requires short { IsWithin most_units (arc.now).vector }
    ensures same { arc_by_basis (basis_of lattice.now) result ≡ arc.now }
    ensures dimension { HasDimension D result.vector }
    ensures within { IsWithin most_coordinate result.vector }
{
    ClassArc {
        from: arc.from,
        to: arc.to,
        vector: lattice.coordinates(&arc.vector).to_vector(),
    }
}

// These arcs, with their vectors in coordinates.
fn arcs_in<const D: usize>(
    alloc: Global,
    lattice: &Staircase<D>,
    arcs: &[ClassArc<D>],
) -> Result<Vec<ClassArc<D>>, NoMemory>
    requires dimension { (D ≡ 2) ⊎ (D ≡ 3) }
    requires inside { AreInside D lattice.now arcs.now }
    requires short { AreWithinUnits arcs.now }
    ensures { IfOk result (λ s. IsInCoordinates D lattice.now arcs.now s.items) }
{
    let mut coordinates = Vec::with_capacity(alloc, arcs.len())?;
    for arc in arcs {
        coordinates.push(arc_in(lattice, arc))?;
    }
    Ok(coordinates)
}

/// The class graph of these classes, with its vectors in the coordinates of the lattice that they
/// span with `bound` times each whole vector. The least list is the same in all coordinates; in
/// these, numbers are small.
pub fn in_coordinates<const D: usize>(
    alloc: Global,
    classes: &Classes<D>,
    bound: i128,
) -> Result<ClassGraph<D>, NoMemory>
    requires from { pos 1 ≤ℤ bound }
    requires to { bound ≤ℤ pos most_units }
    ensures { IfOk result (λ k. AreCoordinates k classes.now.classes) }
{
    let net = classes.net();
    let count = net.count();
    let lattice = arc_lattice(net, bound);
    lattice.recall();
    let mut stars = Vec::with_capacity(alloc, count as usize)?;
    for c in 1..count + 1 {
        stars.push(arcs_in(alloc, &lattice, net.arcs(c))?)?;
    }
    Ok(ClassGraph::from_parts(stars))
}
