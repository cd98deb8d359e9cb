//! Reduced fractions of 64 bits, as exact numbers.
#![tactic(auto)]

mod arithmetic;
mod numbers;
mod products;
mod reducing;

pub use numbers::{Fraction, FractionFault};
