// Reduced fractions: their parts, and their order.
ghost use Rattle.std.specs.Prelude.{◌≡◌, pos, ◌<ℤ◌};
ghost use Rattle.exact.specs.Ratio.{IsInLowestTerms, ratio};
ghost use Rattle.exact.proofs.CallerLemmas.{lowest_terms-prop};
ghost use Rattle.fraction.specs.Reduced.{HasSmallParts};

use crate::products::cross;
use crate::reducing::reduced;
use std::cmp::Ordering;

/// A reduced fraction: the denominator is at least 1, and both parts are at most 2^62 - 1 in
/// absolute value.
#[derive(Clone, Copy, Debug, PartialEq, Eq)]
pub struct Fraction {
    pub(crate) num: i64,
    pub(crate) den: i64,
    pub ghost positive: { pos 0 <ℤ den },
    pub ghost reduced: { IsInLowestTerms (ratio num den) } by { lowest_terms-prop (ratio num den) },
    pub ghost small: { HasSmallParts (ratio num den) },
}

/// Why there is no such fraction.
#[derive(Clone, Copy, Debug, PartialEq, Eq)]
pub enum FractionFault {
    /// The denominator is 0.
    Zero,
    /// A part of the reduced fraction is above 2^62 - 1 in absolute value.
    TooBig,
}

impl Fraction {
    ghost use Rattle.std.specs.Prelude.{◌≢◌, MatchResult};
    ghost use Rattle.exact.specs.Ratio.{Same};
    ghost use Rattle.fraction.specs.Values.{fraction_value, value_cmp};
    ghost use Rattle.fraction.specs.Quotients.{quotient};
    ghost use Rattle.fraction.specs.Faults.{IsFractionFault};

    /// The reduced fraction: `Zero` if `den` is 0, and else `TooBig` if the reduced parts
    /// do not fit.
    pub fn new(num: i128, den: i128) -> Result<Fraction, FractionFault>
        ensures { MatchResult result
            (λ f. (den ≢ pos 0) × Same 0 (fraction_value f) (quotient num den))
            (IsFractionFault num den) }
    {
        if den == 0 {
            return Err(FractionFault::Zero);
        }
        reduced(num, den).ok_or(FractionFault::TooBig)
    }

    /// The numerator.
    pub fn num(&self) -> i64
        ensures num { result ≡ (fraction_value self.now).num }
        ensures reduced { IsInLowestTerms (fraction_value self.now) }
        ensures small { HasSmallParts (fraction_value self.now) }
    {
        self.num
    }

    /// The denominator.
    pub fn den(&self) -> i64
        ensures den { result ≡ pos (fraction_value self.now).den }
        ensures reduced { IsInLowestTerms (fraction_value self.now) }
        ensures small { HasSmallParts (fraction_value self.now) }
    {
        self.den
    }

    /// The order of the values.
    pub fn cmp(&self, o: &Fraction) -> Ordering
        ensures { result ≡ value_cmp (fraction_value self.now) (fraction_value o.now) }
    {
        cross(*self, *o).cmp(&cross(*o, *self))
    }
}
