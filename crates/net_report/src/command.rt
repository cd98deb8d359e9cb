// The commands that report on nets.

/// What is reported of each net of a file.
#[derive(Clone, Copy, Debug, PartialEq, Eq)]
pub enum Command {
    /// Is the net connected?
    Check,
    /// Where do its vertices stand?
    Place,
    /// What is its key?
    Key,
    /// Which nets of an archive is it?
    Identify,
    /// What are its components?
    Components,
}
