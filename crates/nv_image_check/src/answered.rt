//! What comes of looking into a region.

/// What came of looking into a region: the exit status, which is 0, or 2 where the region or the call was refused, and
/// how many faults the region has, told as 0 where it was refused.
#[derive(Clone, Copy, PartialEq, Eq)]
pub struct Answered {
    pub status: u8,
    pub faults: usize,
}
