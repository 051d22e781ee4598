//! Recovery, the mount after an unclean stop: the journals are rolled back, and what the region then holds is read from
//! its bytes, inode by inode, into rows, free lists, doubled blocks and faults.
//!
//! On one thread, on many, or by a written schedule, the answer is the same outcome, which is defined without any of them.
#![tactic(auto)]

mod errors;
mod finishing;
mod one;
mod parallel;
mod replaying;
mod scanned;
mod sets;
mod starting;
mod workers;

pub use errors::{MOST_WORKERS, RecoverError};
pub use nv_outcome::{Recovered, Rows};
pub use nv_scan::{NoGate, Row};
pub use one::recover_one;
pub use parallel::recover;
pub use replaying::recover_replay;
pub use starting::slots_end;
