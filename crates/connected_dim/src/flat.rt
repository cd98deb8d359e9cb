// The colouring of a net whose closed walks have a rank below its dimension.
ghost use Rattle.std.specs.Prelude.{◌≡◌, ◌≤◌, ◌^◌, neg_ℤ, unsigned_abs, IfOk, All, map};
ghost use Rattle.integers.specs.Vectors.{IsWithin};
ghost use Rattle.periodic_net.specs.Limits.{most_walk};
ghost use Rattle.quotient_graph.specs.Splits.{split_view};
ghost use Rattle.connected_dim.specs.Bounds.{most_normal};
ghost use Rattle.connected_dim.specs.Search.{shift_of};
ghost use Rattle.connected_dim.specs.Flat.{flat_colour, flat_colouring};

use crate::{NoMemory, shift_of};
use quotient_graph::{Entries, Split};
use std::alloc::Global;
use vecdim::{Shift, Triple};

// -x.
fn negative(x: i128) -> i64
    requires { unsigned_abs x ≤ 2 ^ 62 }
    ensures { result ≡ neg_ℤ x }
{
    -x as i64
}

// The entry of a vertex with this walk.
fn flat_colour<const D: usize>(c: &Triple, walk: &Option<Shift<D>>) -> i64
    requires c { IsWithin most_normal c.now }
    requires walk { IsWithin most_walk (shift_of walk.now) }
    ensures { result ≡ flat_colour c.now walk.now }
{
    negative(c.dot(&shift_of(walk).to_triple()))
}

fn flat_colours<const D: usize>(
    alloc: Global,
    c: &Triple,
    found: &[Option<Shift<D>>],
) -> Result<Vec<i64>, NoMemory>
    requires c { IsWithin most_normal c.now }
    requires found { All (λ walk. IsWithin most_walk (shift_of walk)) found.now }
    ensures { IfOk result (λ h. h.items ≡ map (flat_colour c.now) found.now) }
{
    let mut h = Vec::with_capacity(alloc, found.len())?;
    for walk in found {
        h.push(flat_colour(c, walk))?;
    }
    Ok(h)
}

/// The colouring by a vector that is orthogonal to the closed walks.
pub fn flat_split<const D: usize>(
    alloc: Global,
    dim: u8,
    c: Triple,
    found: &[Option<Shift<D>>],
) -> Result<Split, NoMemory>
    requires c { IsWithin most_normal c }
    requires found { All (λ walk. IsWithin most_walk (shift_of walk)) found.now }
    ensures dimension { IfOk result (λ s. s.dim ≡ dim) }
    ensures split { IfOk result (λ s. split_view s ≡ flat_colouring c found.now) }
{
    Ok(Split {
        dim,
        q: 0,
        h: Entries::from_vec(flat_colours(alloc, &c, found)?),
        c,
    })
}
