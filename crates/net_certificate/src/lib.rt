//! The map between two nets with equal keys.
#![tactic(auto)]

mod boxes;
mod checking;
mod items;
mod laws;
mod maps;
mod reading;
mod tables;
mod write;

pub use boxes::{box_images, entries, first_wide, map_rows};
pub use checking::{CheckedMaps, MapsFault, check_maps, push_unproved, push_verdict};
pub use items::{Item, LendsNet, MapsText, NoMap, maps_text, maps_text_of};
pub use laws::{bad_line_is_first, found_maps_pass, one_map_answer, texts_tell_maps};
pub use maps::{MapAnswer, map_between};
pub use reading::{Heading, read, read_first, read_item, size_of};
pub use std::alloc::AllocError as NoMemory;
pub use write::{push_item, push_title};
