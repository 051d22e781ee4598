//! What became of an entry of a log.

/// What became of an entry: whether the inode's state would be another without it.
#[derive(Clone, Copy, PartialEq, Eq)]
pub enum Fate {
    /// It would.
    Stands,
    /// It wouldn't, nor was the state another when the log ended with it.
    ChangesNothing,
    /// It wouldn't since the entry at this byte address.
    DeadBy(u64),
}
