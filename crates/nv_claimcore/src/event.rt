//! The events of the core: what one worker does in one step.
use nv_super::Owner;

/// One step of one worker. Workers and blocks count from 0.
#[derive(Clone, Copy, PartialEq, Eq, Drop)]
pub enum Event {
    /// The worker draws the cursor's number, and the cursor is raised by one.
    Draw {
        worker: u32,
    },
    /// The worker claims the block, which wins where the block is not in the first set.
    Claim {
        worker: u32,
        block: u64,
        owner: Owner,
    },
    /// The worker marks its oldest lost claim of the block that is not marked yet.
    Mark {
        worker: u32,
        block: u64,
    },
}
