//! The lines of a script: how each command is spelled, and what a line is to the script.
//!
//! A line that begins with `#`, or has no byte, is skipped. Any other is a command, or it is bad:
//! the words of a command stand with one space between two, its numbers in decimal without leading
//! zeros and below 2^64. The grammar is a table with a row for each command; the parser is proved to find what a line spells by
//! it, and nothing else. `table` has the same rows in code, `shapes` reads what stands behind a name. `reasons` says for a user why a line is bad,
//! `excess` which number of it is too large, and `nearest` which command has almost its first word.
#![tactic(auto)]

mod commands;
mod excess;
mod lines;
mod nearest;
mod numeral;
mod parsing;
mod reasons;
mod shapes;
mod table;

pub use commands::{Command, Line};
pub use lines::{classify, no_skipped_command};
pub use numeral::number;
pub use parsing::{one_reading, parse};
pub use reasons::{Excess, Form, Reason, why_bad};
