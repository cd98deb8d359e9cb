// The lattice of closed walks of full rank.
ghost use Rattle.std.specs.Prelude.{◌≡◌, ◌⊎◌, ◌^◌, pos, ◌≤ℤ◌, ◌<ℤ◌};
ghost use Rattle.connected_dim.specs.Lattices.{IsLatticeOf};

use vecdim::{Staircase, Vect};

/// The lattice of the multiples of m and of these vectors.
pub fn lattice<const D: usize>(gs: &[Vect<D>], m: i128) -> Staircase<D>
    requires dimension { (D ≡ 2) ⊎ (D ≡ 3) }
    requires from { pos 1 ≤ℤ m }
    requires to { m <ℤ pos (2 ^ 60) }
    ensures { IsLatticeOf D m gs.now result }
{
    let mut s = Staircase::from_bound(m);
    s.insert_all(gs);
    s
}
