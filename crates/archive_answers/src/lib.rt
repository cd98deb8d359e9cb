//! What is due to the union of an archive with the nets of a file, and the code that answers it.
#![tactic(auto)]

mod archive_texts;
mod laws;
mod outcomes;
mod reading;
mod uniting;

pub use archive_texts::{add_fault_text, groups_text, migrate_fault_text};
pub use laws::{many_items, one_item_report, one_union_due};
pub use outcomes::outcomes_of;
pub use reading::{archive_fault_text, archive_in};
pub use std::alloc::AllocError as NoMemory;
pub use uniting::union_of;
