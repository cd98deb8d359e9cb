// Lattices of full rank.
ghost use Rattle.std.specs.Prelude.{◌≤◌, ◌≤ℤ◌, ◌<ℤ◌, ◌^◌, pos};

use vecdim::{Staircase, Triple, Vect};

pub fn multiples<const D: usize>(b: i128) -> Staircase<D>
    requires two { 2 ≤ D }
    requires three { D ≤ 3 }
    requires from { pos 1 ≤ℤ b }
    requires to { b <ℤ pos (2 ^ 60) }
{
    Staircase::from_bound(b)
}

pub fn insert<const D: usize>(lattice: &mut Staircase<D>, v: &Vect<D>) {
    lattice.insert(v);
}

pub fn rows<const D: usize>(lattice: &Staircase<D>) -> &[Vect<D>] {
    lattice.rows()
}

pub fn pivots<const D: usize>(lattice: &Staircase<D>) -> Triple {
    lattice.pivots()
}
