//! Sessions: what the commands of a script have made so far.
//!
//! `session` runs each command and answers the text that it prints. `calls` makes those that are calls of nv_history, and `commands`
//! says which these are. `making` makes a region, `store` keeps it, alone or mounted, and `stop` is a stop that is set for the next
//! command. `files` has what the file calls that read print, `by_number` the same of an inode that its number names, and `texts`
//! the answers that tell of no recovery. `printed` is what a command prints, and `parts` writes long parts of files a piece at a
//! time.
#![tactic(auto)]

mod by_number;
mod calls;
mod commands;
mod files;
mod laws;
mod making;
mod parts;
mod printed;
mod session;
mod stop;
mod store;
mod texts;

pub use by_number::{list_inode_text, stat_inode_text};
pub use files::{CallText, list_text, refused_call_text, stat_text};
pub use laws::{alike_states_answer_alike, one_step};
pub use making::{Made, new_region};
pub use nv_calls::{FormatRefusal, Fs};
pub use nv_tree::Refusal as CallRefusal;
pub use printed::{FilePart, Printed};
pub use session::Session;
pub use stop::Stop;
pub use store::keep_all;
