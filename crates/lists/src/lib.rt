//! Lists of values, and lists of lists of numbers.
#![tactic(auto)]

mod items;
mod number_lists;

pub use items::Items;
pub use number_lists::{NumberLists, Numbers};
pub use std::alloc::AllocError as NoMemory;
