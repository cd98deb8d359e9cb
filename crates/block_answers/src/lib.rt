//! What a command reports on each block of a text, beside an archive.
#![tactic(auto)]

mod bodies;
mod component_faults;
mod component_lines;
mod laws;
mod outcomes;
mod telling;

pub use component_lines::tell_components;
pub use laws::{
    equal_reports_tell, key_lines_decide, one_report, one_telling, parts_tell, refusals_tell,
    reports_are_legible,
};
pub use net_archive::Archive;
pub use net_report::{Judged, KeyedOutcomes, Outcome, OutcomeBody, are_accepted, report};
pub use outcomes::{keyed_outcome_of, outcomes_of};
pub use std::alloc::AllocError as NoMemory;
pub use telling::{Told, tell_blocks};
