//! The library in one crate, for other programs: a net from its edges or from a text, its key,
//! whether two nets are isomorphic, and the names that an archive has for one.
#![tactic(auto)]

mod calls;
mod text_fault;

pub use calls::{are_isomorphic, names_of, net_in, net_of};
pub use cgd_read::{Names, normal_edge};
pub use least_key::{Net, Refusal, keys_of};
pub use net_archive::{AddFault, Archive, ArchiveFault, MOST_BYTES, Matches};
pub use net_report::refused_line;
pub use quotient_graph::{AnyGraph, Key, RawEdge, from_unsorted};
pub use text_fault::TextFault;
