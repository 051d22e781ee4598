//! Runs of calls on a mounted file system: what a list of calls makes of the tree, and what a power cut leaves of it, at
//! any store of any of the calls.
#![tactic(auto)]

mod calls;
mod laws;
mod runs;
#[cfg(test)]
mod tests;

pub use calls::{Answer, Call, make_call};
pub use laws::{
    calls_make_one_tree, new_numbers_are_the_same, stopped_recoveries_undo_the_same,
    tables_stay_but_for_upgrades,
};
pub use runs::{Halted, make_calls};
