//! The words of the command line: the command that they name, with the values of its arguments.
//!
//! `command_line` builds the command line for `clap` out of kinds of `arguments`, with the help that a user reads.
//! `reading` makes of the words what the program is to do (`todo`), with `sizes` as a user writes them, or a text for the user
//! (`usage`). `changing` does so for the commands that change an image (`change`), which `change_forms` has, with `owners`, and
//! `views` with what is shown of an image. `version` has the version.
#![tactic(auto)]

mod arguments;
mod change;
mod change_forms;
mod changing;
mod command_line;
mod owners;
mod reading;
mod sizes;
mod todo;
mod usage;
mod version;
mod views;

pub use change::NamedChange;
pub use reading::read_words;
pub use todo::{CheckOutput, LayoutVersion, Todo, Which};
pub use usage::Usage;
pub use version::VERSION;
pub use views::View;
