//! Exact numbers: the laws that a number type keeps, and greatest common divisors.
#![tactic(auto)]

mod divisors;
mod number;

pub use divisors::{gcd, short_gcd};
pub use number::{Exact, Op, OverFault, Wide};
