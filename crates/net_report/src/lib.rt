//! The texts that are printed of the blocks of a file.
#![tactic(auto)]

mod answer;
mod command;
mod headers;
mod identified;
mod keyed;
mod keys;
mod laws;
mod numbers;
mod outcome;
mod placements;
mod primitives;
mod refused;
mod sequences;
mod status;
mod texts;

pub use answer::{Answer, Silence};
pub use command::Command;
pub use headers::push_quoted;
pub use keyed::KeyedOutcomes;
pub use keys::push_key;
pub use laws::{
    identified_lines_tell, key_lines_tell, name_lines_tell, placement_lines_tell,
    primitive_lines_tell, reports_tell, sequence_lines_tell,
};
pub use least_key::{AnyPlaced, Refusal};
pub use numbers::push_vertex;
pub use outcome::{Judged, Outcome, OutcomeBody, Outcomes, Size, are_accepted};
pub use primitives::push_primitive;
pub use refused::{push_arc, push_refused, refused_line};
pub use status::{Status, ending_of};
pub use std::alloc::AllocError as NoMemory;
pub use texts::{push_outcome, report};
