// Exact numbers: the trait, fractions, and residues.
ghost use Rattle.std.specs.Prelude.{◌≤◌, ◌<◌, ◌*◌, ◌^◌};

use exact::{Exact, Op, OverFault, Wide, gcd};
use fraction::{Fraction, FractionFault};
use residue::{Residue, reconstruct};
use std::cmp::Ordering;

pub fn zero<N: Exact>() -> N
    requires { N.usable }
{
    N::zero()
}

pub fn one<N: Exact>() -> N
    requires { N.usable }
{
    N::one()
}

pub fn from_small<N: Exact>(v: i32) -> N
    requires { N.usable }
{
    N::from_small(v)
}

pub fn plus<N: Exact>(a: N, o: N) -> Result<N, Wide<N>> {
    a.plus(o)
}

pub fn minus<N: Exact>(a: N, o: N) -> Result<N, Wide<N>> {
    a.minus(o)
}

pub fn times<N: Exact>(a: N, o: N) -> Result<N, Wide<N>> {
    a.times(o)
}

pub fn over<N: Exact>(a: N, o: N) -> Result<N, OverFault<N>> {
    a.over(o)
}

pub fn is_zero<N: Exact>(a: &N) -> bool {
    a.is_zero()
}

pub fn is_equal<N: Exact>(a: &N, o: &N) -> bool {
    a == o
}

pub fn operation_number(op: Op) -> u8 {
    match op {
        Op::Plus => 1,
        Op::Minus => 2,
        Op::Times => 3,
        Op::Over => 4,
    }
}

pub fn wide_of<N: Exact>(op: Op, left: N, right: N) -> Wide<N> {
    Wide { op, left, right }
}

pub fn divisor_of<N: Exact>(fault: OverFault<N>) -> N {
    match fault {
        OverFault::Wide(wide) => wide.right,
        OverFault::NoInverse(divisor) => divisor,
    }
}

pub fn common_divisor(a: u128, b: u128) -> u128 {
    gcd(a, b)
}

pub fn fraction_of(num: i128, den: i128) -> Result<Fraction, FractionFault> {
    Fraction::new(num, den)
}

pub fn fraction_order(a: &Fraction, o: &Fraction) -> Ordering {
    Fraction::cmp(a, o)
}

pub fn numerator(a: &Fraction) -> i64 {
    a.num()
}

pub fn denominator(a: &Fraction) -> i64 {
    a.den()
}

pub fn is_zero_denominator(fault: FractionFault) -> bool {
    match fault {
        FractionFault::Zero => true,
        FractionFault::TooBig => false,
    }
}

pub fn fraction_sum(a: Fraction, o: Fraction) -> Result<Fraction, Wide<Fraction>> {
    plus(a, o)
}

pub fn residue_of<const M: u64>(v: u64) -> Residue<M>
    requires least { 2 ≤ M }
    requires most { M < 2 ^ 62 }
{
    Residue::from_value(v)
}

pub fn residue_value<const M: u64>(a: &Residue<M>) -> u64 {
    a.value()
}

pub fn residue_sum<const M: u64>(
    a: Residue<M>,
    o: Residue<M>,
) -> Result<Residue<M>, Wide<Residue<M>>> {
    plus(a, o)
}

pub fn reconstructed(x: u128, m: u128, bound: u64) -> Option<(i64, u64)>
    requires below { x < m }
    requires modulus { m < 2 ^ 124 }
    requires positive { 1 ≤ bound }
    requires small { bound < 2 ^ 62 }
    requires square { 2 * (bound * bound) < m }
{
    reconstruct(x, m, bound)
}
