// The colouring of a net whose closed walks have full rank and are not all shifts.
ghost use Rattle.std.specs.Prelude.{◌≡◌, ◌≤◌, ◌^◌, pos, neg_ℤ, unsigned_abs, ◌≤ℤ◌, IfOk, All, map};
ghost use Rattle.std.specs.Int.{int_rem_euclid};
ghost use Rattle.integers.specs.Vectors.{IsWithin};
ghost use Rattle.periodic_net.specs.Limits.{most_walk};
ghost use Rattle.quotient_graph.specs.Splits.{split_view};
ghost use Rattle.connected_dim.specs.Search.{shift_of};
ghost use Rattle.connected_dim.specs.Sparse.{sparse_colour, sparse_colouring};

use crate::duals::Dual;
use crate::{NoMemory, shift_of};
use quotient_graph::{Entries, Split};
use std::alloc::Global;
use vecdim::Shift;

// -x modulo q.
fn residue(x: i128, q: i128) -> i64
    requires x { unsigned_abs x ≤ 2 ^ 82 }
    requires from { pos 1 ≤ℤ q }
    requires to { q ≤ℤ pos (2 ^ 60) }
    ensures { result ≡ int_rem_euclid (neg_ℤ x) q }
{
    let turned = -x;
    turned.rem_euclid(q) as i64
}

// The entry of a vertex with this walk.
fn sparse_colour<const D: usize>(d: &Dual, walk: &Option<Shift<D>>) -> i64
    requires from { pos 1 ≤ℤ d.now.q }
    requires to { d.now.q ≤ℤ pos (2 ^ 60) }
    requires c { IsWithin (2 ^ 60) d.now.c }
    requires walk { IsWithin most_walk (shift_of walk.now) }
    ensures { result ≡ sparse_colour d.now.q d.now.c walk.now }
{
    residue(d.c.dot(&shift_of(walk).to_triple()), d.q)
}

fn sparse_colours<const D: usize>(
    alloc: Global,
    d: &Dual,
    found: &[Option<Shift<D>>],
) -> Result<Vec<i64>, NoMemory>
    requires from { pos 1 ≤ℤ d.now.q }
    requires to { d.now.q ≤ℤ pos (2 ^ 60) }
    requires c { IsWithin (2 ^ 60) d.now.c }
    requires found { All (λ walk. IsWithin most_walk (shift_of walk)) found.now }
    ensures { IfOk result (λ h. h.items ≡ map (sparse_colour d.now.q d.now.c) found.now) }
{
    let mut h = Vec::with_capacity(alloc, found.len())?;
    for walk in found {
        h.push(sparse_colour(d, walk))?;
    }
    Ok(h)
}

// The modulus as a split has it.
fn modulus(d: &Dual) -> u64
    requires from { pos 1 ≤ℤ d.now.q }
    requires to { d.now.q ≤ℤ pos (2 ^ 60) }
    ensures { result ≡ unsigned_abs d.now.q }
{
    d.q as u64
}

/// The colouring by the first pivot above 1.
pub fn sparse_split<const D: usize>(
    alloc: Global,
    dim: u8,
    d: Dual,
    found: &[Option<Shift<D>>],
) -> Result<Split, NoMemory>
    requires from { pos 1 ≤ℤ d.q }
    requires to { d.q ≤ℤ pos (2 ^ 60) }
    requires c { IsWithin (2 ^ 60) d.c }
    requires found { All (λ walk. IsWithin most_walk (shift_of walk)) found.now }
    ensures dimension { IfOk result (λ s. s.dim ≡ dim) }
    ensures split { IfOk result (λ s. split_view s ≡ sparse_colouring d.q d.c found.now) }
{
    Ok(Split {
        dim,
        q: modulus(&d),
        h: Entries::from_vec(sparse_colours(alloc, &d, found)?),
        c: d.c,
    })
}
