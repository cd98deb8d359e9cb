//! The arguments of a command line: which task they ask for.
#![tactic(auto)]

mod counts;
mod grammar;
mod parse;
mod tasks;

pub use tasks::{BlocksTask, Task, task_of};
