//! Slots: what a region's tables hold of each inode, and the words of them that a journal may name. Tables that grow by
//! chains of blocks, as layout version 2 has them: they are read, and a block is linked to one.
#![tactic(auto)]

mod blocks;
mod chains;
mod growing;
mod laws;
mod slot;
mod tables;
mod upgrading;
mod words;

pub use blocks::SlotBlock;
pub use chains::{Tables, read_tables};
pub use growing::link_block;
pub use laws::{
    blocks_have_all_slots, chains_are_laid, chains_grow, linked_blocks_are_tables,
    linked_slots_are_unused, no_link_is_permitted, numbers_have_an_end, numbers_with_slots,
    one_chain, slots_are_in_one_block, slots_have_names, slots_of_blocks, tables_grow,
    upgraded_names_stay, upgraded_regions_are_the_same, version_1_has_fixed_tables,
};
pub use slot::{LINK, Slot, SlotState};
pub use tables::nth_slot;
pub use upgrading::upgrade_tables;
pub use words::{read_slot, read_slot_at, set_word, store_slot};
