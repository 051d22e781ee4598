//! The pending records of a region's journals, as a roll back puts their values back: as a list and as text.
//!
//! `records` reads them, and `naming` says of each which word of which inode's slot it names. `text` has a line for each.
//! `rolling` tells them, and rolls them back.
#![tactic(auto)]

mod naming;
mod records;
mod rolling;
mod text;

pub use naming::{NamedWord, SlotPart};
pub use records::{PendingRecord, pending_records};
pub use rolling::{Journals, RolledBack, find_pending, recover_journals};
pub use text::records_text;
