//! `format` makes a file system of a region of any content, with the root directory alone.
#![tactic(auto)]

mod clearing;
mod formatting;
mod laws;

pub use formatting::{FormatRefusal, format, format_is_determined};
pub use laws::the_root_has_an_attributes_entry;
