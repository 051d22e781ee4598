//! Trees of the host, as the items that are unpacked into an image.
//!
//! `walking` finds what stands in a tree, level by level: `listing` reads what a directory lists, `names` puts its names in order, and
//! `found` says what the system tells of each. `links` tells further names of a file from its first one, `held` reads the bytes of
//! files, and `items` makes the items of all that. `places` has paths, and `errors` says why a tree isn't taken.
//!
//! What a directory and a file of the host hold is the system's: no contract says it.
#![tactic(auto)]

mod errors;
mod found;
mod held;
mod items;
mod laws;
mod links;
mod listing;
mod names;
mod places;
mod walking;

pub use errors::{HostError, Misfit};
pub use found::{Found, HostKind};
pub use held::{Held, hold_files};
pub use items::items_of;
pub use laws::names_have_one_order;
pub use links::links_of;
pub use walking::{HostEntry, walk};
