//! Lines from a reader, texts to a writer, and the bytes of a file.
//!
//! `reading` cuts the input into lines, `writing` puts texts out, and both say of an error how much came before it.
//! `contents` reads a file up to a limit. `place` holds the place of a file that is to be written, `saving` writes it whole or not
//! at all, and `beside` names the new file until it is in its place.
//! `fault` has the errors of what reads and writes so.
#![tactic(auto)]

mod beside;
mod contents;
mod fault;
mod place;
mod reading;
mod saving;
mod writing;

pub use beside::Beside;
pub use contents::{Contents, Opened, Unread, contents_of, copy_whole, open_at, read_whole};
pub use fault::ScriptError;
pub use place::{Allowed, Lock, Place, Stamp, hold_place, hold_saved};
pub use reading::{LINE_LIMIT, Next, read_line};
pub use saving::{Content, Unsaved, save_at, try_beside};
pub use writing::write_text;
