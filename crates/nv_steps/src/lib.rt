//! The steps of a call, by the rows of the inodes that it changes: it takes blocks, writes behind their logs and commits that, and
//! settles the rows and the free lists.
//!
//! Each step makes ready first: all growths of memory, and the blocks that it takes. Then it stores what nothing shown reads,
//! commits, and settles without taking memory.
#![tactic(auto)]

mod across;
mod appending;
mod attributes;
mod blocks;
mod cleaning;
mod committing_names;
mod copying;
mod giving;
mod growing;
mod growing_less;
mod growing_three;
mod lessening;
mod linking;
mod making;
mod planning;
mod preparing;
mod preparing_data;
mod removing;
mod renaming;
mod resizing;
mod settling;
mod settling_data;
mod settling_names;
mod slots;
mod storing_data;
mod tables;
mod taking;
mod unlinking;
mod writing;

pub use across::{lessen_across, take_across};
pub use attributes::change_attributes;
pub use cleaning::{clean_log, dead_pages_of};
pub use giving::give_row;
pub use lessening::append_less;
pub use linking::link_both;
pub use making::{NewName, make_named};
pub use planning::Plan;
pub use removing::{Gone, cut_name};
pub use renaming::{OtherName, move_both, move_within};
pub use resizing::resize;
pub use slots::slots_of_fixed_tables;
pub use tables::{make_grown, shown_tables_can_grow};
pub use taking::{Displaced, lessen_within, take_within};
pub use unlinking::unlink_both;
pub use writing::change_bytes;
