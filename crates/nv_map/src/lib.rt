//! The map of a region: which blocks are what, in cells of some blocks each, and its text.
#![tactic(auto)]

mod cells;
mod marks;
mod shares;
mod text;
mod uses;

pub use cells::{Cells, cells_of};
pub use shares::Share;
pub use text::cells_text;
pub use uses::BlockUse;
