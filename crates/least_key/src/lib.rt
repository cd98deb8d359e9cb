//! The path from a graph to its key, and why a graph is refused on it.
#![tactic(auto)]

mod keying;
mod keys;
mod laws;
mod net;
mod path;
mod refusal;

pub use key_theory::Kinds;
pub use keying::{identify, identify_graph, identify_with_kinds, settle_graph};
pub use keys::keys_of;
pub use laws::{
    certain_is_not_refused, keyed_is_certain, one_net, one_refusal, placed_is_not_refused,
};
pub use net::{KindedNet, Net, NetOf};
pub use path::{AnyPlaced, check_any, connect_graph, place_any, place_graph};
pub use refusal::Refusal;
