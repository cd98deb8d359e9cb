//! What is answered to the arguments, of the bytes of the files that they name.
#![tactic(auto)]

mod adding;
mod answer;
mod laws;
mod workloads;

pub use answer::answer_to;
pub use laws::{
    blocks_of_workload, few_endings, one_due_answer, some_answer_is_due, union_endings,
};
pub use net_archive::MOST_BYTES;
