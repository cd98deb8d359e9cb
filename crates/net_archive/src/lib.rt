//! Archives of named nets: read, searched, grown and written.
#![tactic(auto)]

mod adding;
mod archive;
mod faults;
mod judge;
mod laws;
mod migrating;
mod reading;
mod regrouping;

pub use adding::entry_of;
pub use archive::Archive;
pub use archive_text::{Entry, MOST_BYTES, Matches, Version};
pub use faults::{AddFault, ArchiveFault, MigrateFault};
pub use laws::{archives_have_no_fault, one_add_fault, one_archive, one_fault};
