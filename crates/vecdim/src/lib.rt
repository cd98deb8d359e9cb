//! Vectors of whole numbers in two and three dimensions, their sums, products and quotients.
#![tactic(auto)]

mod arithmetic;
mod columns;
mod division;
mod insertion;
mod products;
mod quotients;
mod rows;
mod small;
mod staircase;
mod sums;
mod vectors;

pub use columns::Division;
pub use division::split;
pub use products::{cross, independent, product_of_three, triple};
pub use quotients::{modulo, quotient};
pub use rows::Row;
pub use small::SmallVector;
pub use staircase::{Staircase, rows_are_one};
pub use vectors::{Shift, Triple, Vect};
