//! Changes of a region: it is recovered over its bytes, and the calls of one change are made.
//!
//! `change` has the changes, and `calls` the calls that each of them makes. `changing` makes them.
#![tactic(auto)]

mod calls;
mod change;
mod changing;

pub use change::Change;
pub use changing::{Changed, change_image};
