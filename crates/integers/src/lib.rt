//! The whole numbers: ring laws, sums, divisibility, vectors and lists.
#![tactic(auto)]
