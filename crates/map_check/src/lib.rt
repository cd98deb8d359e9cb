//! The check of a periodic map between two nets.
#![tactic(auto)]

mod arcs;
mod boxes;
mod carrying;
mod check;
mod conditions;
mod copies;
mod degrees;
mod images;
mod lost;
mod map;
mod naturals;
mod numbers;
mod repeats;
mod shifts;
mod small_rows;
mod verdict;

ghost use Rattle.map_check.specs.Laws.{TablesOfBijections, TablesThatJoin, TablesGiveIso};

pub use boxes::{NetVertex, box_size, vertex_at};
pub use check::verify;
pub use conditions::{MOST_IMAGES, MOST_PART, MOST_PERIOD, fits};
pub use map::{BaseRows, Image, Images, PeriodicMap};
pub use quotient_graph::NoMemory;
pub use verdict::{MapFault, Verdict};

/// The map of a table is a bijection if and only if the counts agree and no image is another, moved
/// by the shifts.
pub fn tables_of_bijections()
    ensures theorem { TablesOfBijections }
{}

/// A bijection joins images if and only if vertices are joined, just when degrees agree and arcs
/// are kept.
pub fn tables_that_join()
    ensures theorem { TablesThatJoin }
{}

/// A table passes if and only if its map is an isomorphism.
#[tactic(auto, using(crate::proofs::Theorems::tables_give_iso))]
pub fn tables_give_iso()
    ensures theorem { TablesGiveIso }
{}
