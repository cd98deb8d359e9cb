// The colouring of a quotient graph that is not connected.
ghost use Rattle.std.specs.Prelude.{◌≡◌, ◌↔◌, IfOk, IsTrue, IsSome, None, All, Contains, true, false, map};
ghost use Rattle.quotient_graph.specs.Splits.{split_view};
ghost use Rattle.connected_dim.specs.Quotient.{part_colour, part_colouring};

use crate::NoMemory;
use quotient_graph::{Entries, Split};
use std::alloc::Global;
use vecdim::{Shift, Triple};

/// Whether each vertex was found.
pub fn all_found<const D: usize>(found: &[Option<Shift<D>>]) -> bool
    ensures yes { result ≡ true → All IsSome found.now }
    ensures no { result ≡ false → Contains found.now None }
{
    found.iter().all(
        |walk| -> bool
            ensures { IsTrue result ↔ IsSome walk.now }
        { walk.is_some() },
    )
}

fn part_colour<const D: usize>(walk: &Option<Shift<D>>) -> i64
    ensures { result ≡ part_colour walk.now }
{
    match walk {
        Some(_) => 0,
        None => 1,
    }
}

fn part_colours<const D: usize>(
    alloc: Global,
    found: &[Option<Shift<D>>],
) -> Result<Vec<i64>, NoMemory>
    ensures { IfOk result (λ h. h.items ≡ map part_colour found.now) }
{
    found.iter().map(part_colour).collect(alloc)
}

/// The colouring that separates the found vertices from the others.
pub fn part_split<const D: usize>(
    alloc: Global,
    dim: u8,
    found: &[Option<Shift<D>>],
) -> Result<Split, NoMemory>
    ensures dimension { IfOk result (λ s. s.dim ≡ dim) }
    ensures split { IfOk result (λ s. split_view s ≡ part_colouring found.now) }
{
    Ok(Split {
        dim,
        q: 0,
        c: Triple { x: 0, y: 0, z: 0 },
        h: Entries::from_vec(part_colours(alloc, found)?),
    })
}
