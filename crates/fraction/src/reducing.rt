// Quotients of whole numbers as fractions in lowest terms, if they fit.
ghost use Rattle.std.specs.Prelude.{◌≡◌, ◌≢◌, ◌≤◌, pos, unsigned_abs, MatchOption};
ghost use Rattle.std.specs.Int.{IsGcd};
ghost use Rattle.fraction.specs.Reduced.{AreSmall};
ghost use Rattle.fraction.specs.Quotients.{quotient, signed_ratio, IsLowest};
ghost use Rattle.fraction.specs.Values.{fraction_value, IsFractionOf};

use crate::Fraction;
use exact::{gcd, short_gcd};

// What no part of a fraction exceeds.
const MOST: u128 = 4611686018427387903;

// Whether a quotient is negative, its numerator being other than 0.
fn is_negative(num: i128, den: i128) -> bool
    ensures { quotient num den ≡ signed_ratio result (unsigned_abs num) (unsigned_abs den) }
{
    (num < 0) != (den < 0)
}

// The fraction of these parts without a common divisor, if they are small.
fn fitted(negative: bool, num: u128, den: u128) -> Option<Fraction>
    requires positive { 1 ≤ den }
    requires coprime { IsGcd num den 1 }
    ensures { MatchOption result (¬ AreSmall num den)
        (λ f. fraction_value f ≡ signed_ratio negative num den) }
{
    if num > MOST || den > MOST {
        return None;
    }
    let size = num as i64;
    let num = if negative { -size } else { size };
    Some(Fraction {
        num,
        den: den as i64,
    })
}

// A numerator and a denominator, without a sign.
#[derive(Clone, Copy)]
struct Parts {
    num: u128,
    den: u128,
}

// The same quotient without a common divisor, of numbers of 64 bits, whose quotients are quick.
fn short_lowest(num: u64, den: u64) -> Parts
    requires { 1 ≤ den }
    ensures { IsLowest num den result.num result.den }
{
    let common = short_gcd(num, den);
    Parts {
        num: (num / common) as u128,
        den: (den / common) as u128,
    }
}

// The same quotient without a common divisor.
fn lowest(num: u128, den: u128) -> Parts
    requires { 1 ≤ den }
    ensures { IsLowest num den result.num result.den }
{
    if den == 1 {
        return Parts { num, den };
    }
    if num <= u64::MAX as u128 && den <= u64::MAX as u128 {
        return short_lowest(num as u64, den as u64);
    }
    let common = gcd(num, den);
    Parts {
        num: num / common,
        den: den / common,
    }
}

// The quotient in lowest terms, if its parts are small.
pub(crate) fn reduced(num: i128, den: i128) -> Option<Fraction>
    requires { den ≢ pos 0 }
    ensures { IsFractionOf (quotient num den) result }
{
    let negative = is_negative(num, den);
    let parts = lowest(num.unsigned_abs(), den.unsigned_abs());
    fitted(negative, parts.num, parts.den)
}
