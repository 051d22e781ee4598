//! Unpacking archives: the members of one are put into a region that is recovered over its bytes, all of them or none.
//!
//! `step` has the steps, each with the member that it is for, and `places` where the member's path leads. `way` makes the way to
//! it, and `calls` has the calls of a step. `maker` and `turns` say in whose name they are made. `running` makes calls, `making`
//! the steps of what is mounted, and `halt` says why one is refused. `unpacking` does it all, and `told` tells of a refusal.
#![tactic(auto)]

mod calls;
mod halt;
mod maker;
mod making;
mod places;
mod running;
mod step;
mod told;
mod turns;
mod unpacking;
mod way;

pub use maker::Maker;
pub use unpacking::{Unpacked, unpack_image};
