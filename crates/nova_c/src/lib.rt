//! A mounted file system for C, and for what calls C: a static library with one export for each call.
//!
//! A handle (`NovaFs`) is closed, or owns a mount. The memory of a mount is the library's own (`nova_open`, `nova_format`), or words
//! that the caller hands over, as those of a mapped file (`nova_map`). Each export takes the mount out of the handle, makes one
//! call, puts it back, and answers a status (`codes`): 0, or why it was refused. No export requires anything.
//!
//! What C owes, which nothing checks, stands in docs/MOUNT.md.
#![tactic(auto)]

mod by_number;
mod cleaning;
mod codes;
mod files;
mod files_by_number;
mod handle;
mod image;
mod listing;
mod loose;
mod names;
mod names_by_number;
mod numbers;
mod opening;
mod reading;
mod saving;

pub use cleaning::NovaCleaned;
pub use handle::NovaFs;
pub use image::NovaImage;
pub use numbers::{NovaNumbers, NovaSpace};
