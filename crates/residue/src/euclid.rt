// Euclid's algorithm on a modulus and a number of 64 bits, whose quotients are quick.
ghost use Rattle.std.specs.Prelude.{◌<◌, ◌≤◌, ◌^◌};
ghost use Rattle.residue.specs.Remainders.{AreRemainders};

// Two remainders in a row of the algorithm on m and x: up to their signs they are above_factor·x
// and factor·x modulo m.
#[derive(Clone, Copy)]
pub(crate) struct Remainders {
    pub(crate) above: u64,
    pub(crate) rest: u64,
    pub(crate) above_factor: u64,
    pub(crate) factor: u64,
    pub(crate) negative: bool,
}

// The first remainder up to the bound, and the one before it.
pub(crate) fn remainders_within(x: u64, m: u64, bound: u64) -> Remainders
    requires below { x < m }
    requires small { m < 2 ^ 62 }
    requires bound { bound < m }
    ensures remainders { AreRemainders x m result.above result.rest result.above_factor
        result.factor result.negative }
    ensures large { bound < result.above }
    ensures small { result.rest ≤ bound }
    ensures factor { result.above_factor ≤ m }
{
    let mut above = m;
    let mut rest = x;
    let mut above_factor = 0;
    let mut factor = 1;
    let mut negative = false;
    while rest > bound {
        let quotient = above / rest;
        let next = above % rest;
        let next_factor = above_factor + quotient * factor;
        above = rest;
        rest = next;
        above_factor = factor;
        factor = next_factor;
        negative = !negative;
    }
    Remainders {
        above,
        rest,
        above_factor,
        factor,
        negative,
    }
}
