//! The union of an archive and of items, which are entries too.
#![tactic(auto)]

mod laws;
mod uniting;

pub use laws::{one_union, unions_have_all};
pub use uniting::{UniteFault, unite};
