//! The text of each line that a script prints, from the values that it shows.
//!
//! Each line ends with byte 10 and is ASCII: of a name, every byte that could be mistaken is escaped.
//! A `push` adds its text to the end of a `String`. Where the `String` can't grow it answers `AllocError`,
//! and what it added by then is of no use.
#![tactic(auto)]

mod answers;
mod digits;
mod escapes;
mod faults;
mod fields;
mod free;
mod inodes;
mod names;
mod output;
mod refusal_lines;
mod refusals;
mod region;

pub use answers::{
    push_bad_line, push_cleaned, push_ok, push_recovered, push_refused, push_stopped, push_word,
};
pub use digits::put_digits;
pub use escapes::{one_name, unescaped};
pub use faults::{push_fault_line, push_faults};
pub use free::{push_free_line, push_free_lines};
pub use inodes::{push_inode_line, push_log_line, push_page_line, push_stat_line};
pub use names::{push_data_line, push_escaped, push_list_line, push_name_line};
pub use output::Output;
pub use refusal_lines::{is_refusal_line, no_list_is_refused};
pub use refusals::Refusal;
pub use region::push_region_line;
