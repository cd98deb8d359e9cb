// The versions of the format.

/// The version of a text. In version 2 an entry has its classes with their coordination sequences.
#[derive(Clone, Copy, Debug, PartialEq, Eq)]
pub enum Version {
    One,
    Two,
}
