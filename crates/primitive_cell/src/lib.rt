//! The primitive graph of a stable net.
#![tactic(auto)]

mod coordinates;
mod dividing;
mod edges;
mod lattice;
mod places;
mod prim_edge;
mod primitive;

pub use coordinates::in_coordinates;
pub use dividing::divide;
pub use prim_edge::PrimEdge;
pub use primitive::Primitive;
pub use std::alloc::AllocError as NoMemory;
