// Greatest common divisors of whole numbers, by Euclid's algorithm.
ghost use Rattle.std.specs.Int.{IsGcd};
ghost use Rattle.exact.specs.Combination.{IsCombination};

/// The greatest common divisor of numbers of 64 bits, whose remainders are quick.
pub fn short_gcd(a: u64, b: u64) -> u64
    ensures { IsGcd a b result }
{
    let mut divisor = a;
    let mut rest = b;
    while rest != 0 {
        let next = divisor % rest;
        divisor = rest;
        rest = next;
    }
    divisor
}

/// The greatest common divisor, and 0 for two zeros.
pub fn gcd(a: u128, b: u128) -> u128
    ensures greatest { IsGcd a b result }
    ensures combination { IsCombination a b result }
{
    let mut divisor = a;
    let mut rest = b;
    while rest > u64::MAX as u128 {
        let next = divisor % rest;
        divisor = rest;
        rest = next;
    }
    if rest == 0 {
        return divisor;
    }
    if divisor <= u64::MAX as u128 {
        return short_gcd(divisor as u64, rest as u64) as u128;
    }
    short_gcd(rest as u64, (divisor % rest) as u64) as u128
}
