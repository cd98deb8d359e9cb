//! The primitive graph of a net with its key, as a placed graph with its classes.
#![tactic(auto)]

mod divided;
mod edges;
mod fault;
mod laws;
mod whole;

pub use divided::{PrimitiveNet, divided_net};
pub use fault::PrimitiveFault;
pub use laws::{one_primitive_fault, one_primitive_net};
pub use std::alloc::AllocError as NoMemory;
pub use whole::is_primitive;
