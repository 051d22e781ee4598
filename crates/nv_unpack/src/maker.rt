//! In whose name calls are made: by whose journal and table, and first of all in whose free blocks.

/// In whose name calls are made.
#[derive(Clone, Copy, Debug)]
pub enum Maker {
    /// Each inode in the name of a CPU whose table has an unused number, where one has.
    Free,
    /// All in the name of this CPU.
    Named(u64),
}
