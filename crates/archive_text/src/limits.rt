//! How long the text of an archive may be.

/// Bytes of a text, at most.
pub const MOST_BYTES: usize = 16_777_216;
