// The placement modulo the first of three numbers with which each weight sum has an inverse.
ghost use Rattle.std.specs.Prelude.{◌≡◌, ◌<◌, ◌≤◌, ◌^◌, ◌*◌, IfOk};
ghost use Rattle.periodic_net.specs.Graph.{IsConnected};
ghost use Rattle.barycentre.specs.Attempts.{IsAttempt, IsTried};

use crate::steps::{by_one_step, by_two_steps};
use crate::units::Units;
use elimination::{SolveFault, solve};
use quotient_graph::Graph;
use residue::Residue;
use std::alloc::{AllocError as NoMemory, Global};

// The moduli, tried in this order: the primes 2^61 - 1, 2^60 - 93 and 2^59 - 55.
const FIRST_MODULUS: u64 = 2305843009213693951;

const SECOND_MODULUS: u64 = 1152921504606846883;

const THIRD_MODULUS: u64 = 576460752303423433;

/// What one modulus gives.
#[derive(Drop)]
pub(crate) enum Attempt {
    /// The weight sum of this vertex is the first without an inverse.
    NoInverse(u32),
    /// The normal placement is past a limit.
    Failed,
    /// The normal placement, within the limits.
    Found(Units),
}

// The placement by residues modulo M.
fn by_modulus<const M: u64, const D: usize>(
    alloc: Global,
    g: &Graph<D>,
) -> Result<Attempt, NoMemory>
    requires least { 2 ≤ M }
    requires most { M < 2 ^ 62 }
    requires large { 2 ^ 117 < M * M }
    requires connected { IsConnected g.now }
    ensures { IfOk result (IsAttempt M g.now) }
{
    let firsts = match solve::<Residue<M>, D>(alloc, g) {
        Ok(firsts) => firsts,
        Err(SolveFault::NoInverse { pivot, .. }) => return Ok(Attempt::NoInverse(pivot)),
        Err(SolveFault::Wide { .. }) => unreachable!(),
        Err(SolveFault::NoMemory) => return Err(NoMemory),
    };
    if let Some(units) = by_one_step(alloc, g, &firsts)? {
        return Ok(Attempt::Found(units));
    }
    match by_two_steps(alloc, g, &firsts)? {
        Some(units) => Ok(Attempt::Found(units)),
        None => Ok(Attempt::Failed),
    }
}

/// What the three moduli give.
#[derive(Drop)]
pub(crate) enum Tried {
    /// With each of them some weight sum has no inverse: these are the first.
    NoModulus { first: u32, second: u32, third: u32 },
    /// The normal placement is past a limit.
    Failed,
    /// The normal placement, within the limits.
    Found(Units),
}

/// The placement by the first modulus that serves.
pub(crate) fn by_residues<const D: usize>(alloc: Global, g: &Graph<D>) -> Result<Tried, NoMemory>
    requires connected { IsConnected g.now }
    ensures { IfOk result (IsTried g.now) }
{
    let first = match by_modulus::<FIRST_MODULUS, D>(alloc, g)? {
        Attempt::NoInverse(k) => k,
        Attempt::Failed => return Ok(Tried::Failed),
        Attempt::Found(units) => return Ok(Tried::Found(units)),
    };
    let second = match by_modulus::<SECOND_MODULUS, D>(alloc, g)? {
        Attempt::NoInverse(k) => k,
        Attempt::Failed => return Ok(Tried::Failed),
        Attempt::Found(units) => return Ok(Tried::Found(units)),
    };
    let third = match by_modulus::<THIRD_MODULUS, D>(alloc, g)? {
        Attempt::NoInverse(k) => k,
        Attempt::Failed => return Ok(Tried::Failed),
        Attempt::Found(units) => return Ok(Tried::Found(units)),
    };
    Ok(Tried::NoModulus {
        first,
        second,
        third,
    })
}
