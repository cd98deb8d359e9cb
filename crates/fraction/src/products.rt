// Products of the parts of two fractions.
ghost use Rattle.std.specs.Prelude.{◌≡◌, ◌≤◌, ◌*◌, ◌*ℤ◌, ◌^◌, pos, unsigned_abs};
ghost use Rattle.fraction.specs.Values.{fraction_value};

use crate::Fraction;

// The numerator of a times the denominator of b.
pub(crate) fn cross(a: Fraction, b: Fraction) -> i128
    ensures value { result ≡ (fraction_value a).num *ℤ pos (fraction_value b).den }
    ensures small { unsigned_abs result ≤ 2 ^ 124 }
{
    a.num as i128 * b.den as i128
}

// The product of the numerators.
pub(crate) fn numerators(a: Fraction, b: Fraction) -> i128
    ensures { result ≡ (fraction_value a).num *ℤ (fraction_value b).num }
{
    a.num as i128 * b.num as i128
}

// The product of the denominators.
pub(crate) fn denominators(a: Fraction, b: Fraction) -> i128
    ensures value { result ≡ pos ((fraction_value a).den * (fraction_value b).den) }
    ensures positive { 1 ≤ (fraction_value a).den * (fraction_value b).den }
{
    a.den as i128 * b.den as i128
}
