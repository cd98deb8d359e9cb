// Rows of numbers: a position, or a right-hand side.
use exact::Exact;

/// The parts of a position or of a right-hand side, in numbers of the type `N`; in dimension 2 the
/// part `z` has the value 0.
#[derive(Clone, Copy, Debug, PartialEq, Eq)]
pub struct Row<N: Exact, const D: usize> {
    pub x: N,
    pub y: N,
    pub z: N,
}
