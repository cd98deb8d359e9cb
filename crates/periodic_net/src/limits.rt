//! The limits of the nets that are taken, as numbers of code.

/// Vertices of a quotient graph that is read.
pub const MOST_VERTICES: usize = 512;

/// Edges of a quotient graph that is read.
pub const MOST_EDGES: usize = 4096;

/// A part of a shift that is read, as an absolute value.
pub const MOST_SHIFT: i32 = 500;

/// The denominator of a placement, and a part of an arc's vector, as an absolute value.
pub const MOST_UNITS: i128 = 1 << 40;
