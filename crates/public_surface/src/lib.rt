//! The public surface, as other programs use it: callers of each item, which an item that changes
//! does not leave proved, and tests. All of it is proved with the tests, and a program has none.
#![tactic(auto)]

#[cfg(test)]
pub mod callers;
#[cfg(test)]
mod tests;
