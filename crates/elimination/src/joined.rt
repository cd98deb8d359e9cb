// The vertices that the last one is joined to: its line without the weights that are 0.
ghost use Rattle.std.specs.Prelude.{ℕ, ◌+◌, ◌<◌, ◌≤◌, ◌^◌, length, All, AllPairs};
ghost use Rattle.std.specs.Prelude.{IfOk, OnOk};
ghost use Rattle.exact.specs.Values.{HasValue};
ghost use Rattle.elimination.specs.Listed.{Level};
ghost use Rattle.elimination.specs.Lines.{AreJoinedVertices, AreWeights, AreWide, IsSymmetric};

use crate::NoMemory;
use exact::Exact;
use std::alloc::Global;

/// A vertex, counted from 0, and its weight with the last one.
#[derive(Clone, Copy)]
pub struct Joined<N: Exact> {
    pub place: u32,
    pub weight: N,
}

// Vertex i goes after those below it, unless its weight is 0. The first vertex always does, since
// the division of its weight shows that the pivot has an inverse.
#[inline(always)]
fn push_joined<N: Exact>(joined: &mut Vec<Joined<N>>, weight: N, i: usize) -> Result<(), NoMemory>
    requires small { i < 2 ^ 32 }
    requires below { All (λ x. x.place < i) joined.old.items }
    requires rising { AllPairs (λ x y. x.place < y.place) joined.old.items }
    ensures below { OnOk result (All (λ x. x.place < i + 1) joined.new.items) }
    ensures rising { OnOk result (AllPairs (λ x y. x.place < y.place) joined.new.items) }
    ensures values { (l : Level) (k : ℕ)
        → AreJoinedVertices N.modulus N.value joined.old.items l 0 i k
        → HasValue N.modulus (N.value weight) (l.w k i)
        → OnOk result (AreJoinedVertices N.modulus N.value joined.new.items l 0 (i + 1) k) }
{
    let is_later = i > 0;
    if is_later && weight.is_zero() {
        return Ok(());
    }
    joined.push(Joined {
        place: i as u32,
        weight,
    })?;
    Ok(())
}

// For so many vertices a list has room from the start.
const FEW: usize = 8;

// The vertices below k that it is joined to, of their lines.
pub fn joined_to<N: Exact>(
    alloc: Global,
    lines: &[Vec<N>],
    k: usize,
) -> Result<Vec<Joined<N>>, NoMemory>
    requires lines { k ≤ length lines.now }
    requires wide { AreWide lines.now (k + 1) k }
    requires small { k + 1 < 2 ^ 32 }
    ensures below { IfOk result (λ joined. All (λ x. x.place < k) joined.items) }
    ensures rising { IfOk result (λ joined. AllPairs (λ x y. x.place < y.place) joined.items) }
    ensures values { (l : Level) → AreWeights N.modulus N.value lines.now l (k + 1) k
        → IsSymmetric N.modulus l (k + 1)
        → IfOk result (λ joined. AreJoinedVertices N.modulus N.value joined.items l 0 k k) }
{
    let mut joined = Vec::with_capacity(alloc, k.min(FEW))?;
    for i in 0..k {
        push_joined(&mut joined, lines[i][k - i - 1], i)?;
    }
    Ok(joined)
}
