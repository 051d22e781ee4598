//! Values found by a small number in constant time, and kept densely, so that adding one moves no other.
#![tactic(auto)]

mod chunks;
mod iter;
mod leaves;
mod table;

pub use chunks::Chunks;
pub use iter::Iter;
pub use leaves::Leaves;
pub use table::Numbered;
