//! What a script can ask to see of a mounted outcome.

/// A part of an outcome, or all of it.
#[derive(Clone, Copy, PartialEq, Eq)]
pub enum Part {
    /// The inodes in use.
    Tree,
    /// The free blocks of each CPU's pool.
    Free,
    /// The faults.
    Faults,
    /// The region's numbers, and then all of these.
    Report,
}
