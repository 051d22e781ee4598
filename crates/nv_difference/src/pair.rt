//! Two directories of one path.

/// A path, and the directories that it leads to in the first tree and in the second.
#[derive(Drop)]
pub(crate) struct Pair {
    /// Each name on the way behind a `/`.
    pub(crate) path: Vec<u8>,
    pub(crate) a: u64,
    pub(crate) b: u64,
}

/// A pair that was looked at, and whether its names are compared.
#[derive(Drop)]
pub(crate) struct Visit {
    pub(crate) pair: Pair,
    pub(crate) compared: bool,
}
