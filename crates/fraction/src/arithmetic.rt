// The arithmetic of fractions, with the laws of exact numbers.
ghost use Rattle.std.specs.Prelude.{◌≡◌, ◌*◌, ⊤, pos, MatchResult};
ghost use Rattle.exact.specs.Faults.{IsWide};
ghost use Rattle.exact.specs.Ratio.{Same};
ghost use Rattle.fraction.specs.Quotients.{quotient};
ghost use Rattle.fraction.specs.Reduced.{IsNarrow};
ghost use Rattle.fraction.specs.Values.{fraction_value};
ghost use Rattle.exact.proofs.CallerLemmas.{zero_not_one, lowest_denominator, equal_decides};
ghost use Rattle.fraction.specs.Laws.{reduced_narrow, narrow_same};

use crate::Fraction;
use crate::products::{cross, denominators, numerators};
use crate::reducing::reduced;
use exact::{Exact, Op, OverFault, Wide};

// An operation whose exact result does not fit.
fn wide(op: Op, left: Fraction, right: Fraction) -> Wide<Fraction>
    ensures { result ≡ record { op = op; left = left; right = right } }
{
    Wide { op, left, right }
}

// The fraction with this numerator over both denominators, for the operation on a and b.
#[inline]
fn over_both(op: Op, num: i128, a: Fraction, b: Fraction) -> Result<Fraction, Wide<Fraction>>
    ensures { let exact = quotient num (pos ((fraction_value a).den * (fraction_value b).den)) in
        MatchResult result (λ r. Same 0 (fraction_value r) exact) (IsWide IsNarrow op a b exact) }
{
    reduced(num, denominators(a, b)).ok_or(wide(op, a, b))
}

impl Exact for Fraction {
    ghost value = { fraction_value };

    ghost modulus = { 0 };

    ghost fits = { IsNarrow };

    ghost usable = { ⊤ };

    fn zero() -> Fraction {
        Fraction::from_small(0)
    }

    fn one() -> Fraction {
        Fraction::from_small(1)
    }

    fn from_small(v: i32) -> Fraction {
        Fraction {
            num: v as i64,
            den: 1,
        }
    }

    fn plus(self, o: Fraction) -> Result<Fraction, Wide<Fraction>> {
        over_both(Op::Plus, cross(self, o) + cross(o, self), self, o)
    }

    fn minus(self, o: Fraction) -> Result<Fraction, Wide<Fraction>> {
        over_both(Op::Minus, cross(self, o) - cross(o, self), self, o)
    }

    fn times(self, o: Fraction) -> Result<Fraction, Wide<Fraction>> {
        over_both(Op::Times, numerators(self, o), self, o)
    }

    fn over(self, o: Fraction) -> Result<Fraction, OverFault<Fraction>> {
        if o.num == 0 {
            return Err(OverFault::NoInverse(o));
        }
        reduced(cross(self, o), cross(o, self)).ok_or(OverFault::Wide(wide(Op::Over, self, o)))
    }

    fn is_zero(&self) -> bool {
        self.num == 0
    }

    ghost has_modulus = { λ u. zero_not_one };

    ghost is_usable = { λ x. tt };

    ghost is_denominator = { λ x. lowest_denominator (fraction_value x) x.reduced };

    ghost same_is_equal = { λ x y.
        equal_decides x.num x.den y.num y.den x.positive y.positive x.reduced y.reduced };

    ghost every_fits = { λ x. reduced_narrow (fraction_value x) x.reduced x.small };

    ghost same_fits = { narrow_same };
}
