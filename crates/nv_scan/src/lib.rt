//! The state of one inode: its slot and its log become its row, its indexes, the blocks that it owns and its faults.
//!
//! The last word counts: each number of an inode, the block of each page and the target of each name come from the
//! last good entry that gives them. A log is read entry by entry and none is kept, so the memory goes with its pages and
//! the indexes, not with the entries. What is found of one inode rests on its slot and its log alone, so the pieces of
//! all inodes can be made in any order, and on any thread, before they are put together.
#![tactic(auto)]

mod all_claims;
mod chain_block;
mod claiming;
mod claims;
mod fold;
mod in_a_row;
mod in_use;
mod inodes;
mod laws;
mod names;
mod numbers;
mod pages;
mod piece;
mod reading;
mod row_list;
mod scan;
mod tickets;
mod touching;
mod unused;
mod working;

pub use all_claims::claims_of;
pub use chain_block::ChainBlock;
pub use claims::Claims;
pub use fold::{Fold, NameRoom};
pub use inodes::{Inodes, ListedInodes};
pub use laws::{
    directories_have_no_pages, files_have_no_names, in_use_by_the_slot, inode_alone,
    mapped_pages_begin_below_the_size, names_are_listed, one_block, one_inode,
    owned_blocks_are_data_blocks, tickets_are_blocks_of_slots,
};
pub use numbers::Numbers;
pub use pages::first_page_past;
pub use piece::{LogPages, Piece, Row};
pub use row_list::{RowHead, RowList, push_heads};
pub use scan::{Scanner, scan_slot};
pub use tickets::{SLOTS, ticket_count};
pub use unused::{UnusedBlocks, scan_slots_once};
pub use working::{Gate, NoGate, WorkerResult, room_for_ticket, scan_slots, worker};
