//! A mounted file system, and its calls.
#![tactic(auto)]

mod arguments;
mod attributes;
mod by_number;
mod cleaning;
mod creating;
mod fs;
mod growing;
mod laws;
mod linking;
mod listing;
mod mounting;
mod reading;
mod removing;
mod removing_directory;
mod renaming;
mod replace;
mod replacing;
mod replacing_across;
mod sizes;
mod stating;
mod stops;
mod unlinking;
mod upgrading;
mod write;
mod writing;

pub use arguments::{Cpu, Time};
pub use fs::Fs;
pub use laws::{
    alike_regions, calls_are_decided, calls_keep_regions_alike, upgraded_regions_are_alike,
};
pub use nv_bytes::Data;
pub use nv_format::{FormatRefusal, format};
pub use nv_recover::RecoverError;
pub use nv_tree::Stat;
pub use stops::{stopped_format, stopped_recoveries_change_nothing};
