// The laws of exact numbers. Contracts see each number as a whole numerator over a whole
// denominator of any size, and each type as having a modulus, which is 0 or at least 2.
ghost use Rattle.std.specs.Prelude.{◌≡◌, ◌≢◌, ◌≤◌, ◌↔◌, ℕ, ℤ, pos, IsTrue, IfSome, MatchResult};
ghost use Rattle.exact.specs.Faults.{IsWide, IsOverFault};
ghost use Rattle.exact.specs.Ratio.{Ratio, Same, HasInverse, IsInverseOf, IsDenominator};
ghost use Rattle.exact.specs.Ratio.{ratio_plus, ratio_minus, ratio_times, whole};

/// An operation on two numbers.
#[derive(Clone, Copy, Debug, PartialEq, Eq)]
pub enum Op {
    Plus,
    Minus,
    Times,
    Over,
}

/// An operation whose exact result does not fit the number type, with its operands.
#[derive(Clone, Copy, Debug, PartialEq, Eq)]
pub struct Wide<N> {
    pub op: Op,
    pub left: N,
    pub right: N,
}

/// Why there is no quotient.
#[derive(Clone, Copy, Debug, PartialEq, Eq)]
pub enum OverFault<N> {
    Wide(Wide<N>),
    /// The divisor, which has no inverse.
    NoInverse(N),
}

/// A type of exact numbers. None of its functions takes memory.
pub trait Exact: Copy + Eq {
    /// The number, as a numerator over a denominator.
    ghost value: { Self → Ratio };

    /// Numbers are the same if their difference is a multiple of this; 0 for fractions.
    ghost modulus: { ℕ };

    /// Which values fit the type.
    ghost fits: { Ratio → Type 0 };

    /// Whether the type's parameters are within their limits.
    ghost usable: { Type 0 };

    fn zero() -> Self
        requires { usable }
        ensures { Same modulus (value result) (whole (pos 0)) };

    fn one() -> Self
        requires { usable }
        ensures { Same modulus (value result) (whole (pos 1)) };

    /// The whole number `v`, which always fits.
    fn from_small(v: i32) -> Self
        requires { usable }
        ensures { Same modulus (value result) (whole v) };

    fn plus(self, o: Self) -> Result<Self, Wide<Self>>
        ensures sum { MatchResult result
            (λ r. Same modulus (value r) (ratio_plus (value self) (value o)))
            (IsWide fits Op.Plus self o (ratio_plus (value self) (value o))) };

    fn minus(self, o: Self) -> Result<Self, Wide<Self>>
        ensures difference { MatchResult result
            (λ r. Same modulus (value r) (ratio_minus (value self) (value o)))
            (IsWide fits Op.Minus self o (ratio_minus (value self) (value o))) };

    fn times(self, o: Self) -> Result<Self, Wide<Self>>
        ensures product { MatchResult result
            (λ r. Same modulus (value r) (ratio_times (value self) (value o)))
            (IsWide fits Op.Times self o (ratio_times (value self) (value o))) };

    /// The quotient: times the divisor it is the dividend.
    fn over(self, o: Self) -> Result<Self, OverFault<Self>>
        ensures quotient { MatchResult result
            (λ r. HasInverse modulus (value o)
            × Same modulus (ratio_times (value r) (value o)) (value self))
            (IsOverFault fits modulus value self o) };

    /// An inverse to multiply by in place of dividing, or none. Only a type that all values fit may
    /// have one, and writes this function itself.
    fn reciprocal(self) -> Option<Self>
        ensures inverse { IfSome result (λ r. IsInverseOf modulus (value self) (value r)) }
        ensures fit { IfSome result (λ r. (a : Ratio) → fits a) }
    {
        None
    }

    fn is_zero(&self) -> bool
        ensures zero { IsTrue result ↔ Same modulus (value self.now) (whole (pos 0)) };

    ghost has_modulus: { usable → modulus ≢ 1 };

    ghost is_usable: { Self → usable };

    ghost is_denominator: { (x : Self) → IsDenominator modulus (value x).den };

    ghost same_is_equal: { (x y : Self) → IsTrue (Self.eq x y) ↔ Same modulus (value x) (value y) };

    ghost every_fits: { (x : Self) → fits (value x) };

    ghost same_fits: { (a b : Ratio) → IsDenominator modulus a.den → IsDenominator modulus b.den
        → Same modulus a b → fits a → fits b };
}
