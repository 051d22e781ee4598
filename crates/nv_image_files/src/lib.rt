//! What programs share that work on images in files.
//!
//! `image` reads the bytes of a file, `superblock` tells why they are refused, and `saving` writes them. `drawing` draws the map
//! of an image, and `explaining` what a class of faults means. `words` has the words that a program was started with, and
//! `shown` shows them again. `failure` and `reason` tell what ends a command before its answer, and `telling` says that and
//! more on standard error.
#![tactic(auto)]

mod drawing;
mod explaining;
mod failure;
mod image;
mod reason;
mod saving;
mod shown;
mod superblock;
mod telling;
mod words;

pub use drawing::svg_text;
pub use explaining::explain;
pub use failure::{Failure, exit_of};
pub use image::{
    Image, ImageFile, Loaded, Unaccepted, image_at, load_image, open_image, read_image,
    refuse_length, region_at, tell_length, tell_refused, tell_unaccepted, why_file_refused,
    why_refused, why_region_refused,
};
pub use nv_stream::{Lock, Stamp};
pub use reason::Reason;
pub use saving::{Held, Target, hold, save_and_hold, save_file, save_region, see_ready};
pub use shown::Shown;
pub use telling::{ended, print_line, refuse_words, tell_explain, tell_failure, tell_faults};
pub use words::{Words, words_of};
