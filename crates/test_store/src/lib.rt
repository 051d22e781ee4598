//! Tests of the crates that hold a region (its words, superblock, slots, chains of tables, journals, logs and format), and of
//! those that are kept in memory (the indexes of names and of pages, values by number, the allocator, and the claims of
//! recovery's workers). They stand here since a crate that has tests is proved twice, once with them and once without.
#![tactic(auto)]

#[cfg(test)]
mod allocator;
#[cfg(test)]
mod chains;
#[cfg(test)]
mod checks;
#[cfg(test)]
mod chunks;
#[cfg(test)]
mod claim_core;
#[cfg(test)]
mod claim_map;
#[cfg(test)]
mod entry;
#[cfg(test)]
mod format;
#[cfg(test)]
mod inode;
#[cfg(test)]
mod journal;
#[cfg(test)]
mod log;
#[cfg(test)]
mod name_index;
#[cfg(test)]
mod numbered;
#[cfg(test)]
mod pages;
#[cfg(test)]
mod region;
#[cfg(test)]
mod small;
#[cfg(test)]
mod superblock;
