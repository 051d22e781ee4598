//! The claim map that the workers of a recovery share while they run: a cursor that hands out tickets, and two sets of
//! blocks. A worker owns a seat. It draws tickets, and claims for their owners the blocks that it finds; a block that
//! was claimed before goes to the second set. Each change is one atomic step on one word, under no lock, and no worker
//! waits for another.
//!
//! Between any two steps of any threads the words and what the seats have seen are a legal state of the claim core. So
//! once all seats are joined, every ticket was drawn once, the first set has the claimed blocks and the second set those
//! that were claimed twice or more, whichever worker came first.
#![tactic(auto)]

mod claimed_runs;
mod laws;
mod map;
mod places;
mod rule;
mod seat;
mod steps;

pub use claimed_runs::{ClaimedRuns, OwnedRun};
pub use laws::steps_are_events;
pub use map::{ClaimMap, Claimed};
pub use seat::ClaimSeat;
