//! The entries of a log: what each says, the one spelling that it has in words, and whether what it says can be.
//!
//! Reading and writing go between an entry and the words of its spelling. Nothing above this crate sees those words.
//! No call takes memory.
#![tactic(auto)]

mod content;
mod entry;
mod first;
mod laws;
mod light;
mod name;
mod reading;
mod writing;

pub use content::{
    ContentFault, check_bare, check_content, check_name, check_write, has_bad_byte, is_dots,
    is_out_of_range, is_wrong_kind,
};
pub use entry::{
    AttrEntry, Entry, LinksEntry, NameEntry, Operation, WRITE_LENGTH, WriteEntry, name_entry,
};
pub use laws::{
    an_entry_or_none_at_a_place, no_spelling_begins_another, one_entry_at_a_place, one_spelling,
};
pub use light::{LightEntry, LightName};
pub use name::FileName;
pub use reading::{Framing, read_entry, read_light, read_write};
pub use writing::{length, write_entry};
