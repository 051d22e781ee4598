//! Where paths lead, among the rows of the inodes in use: the inode that one leads to, and the place where a name comes or goes, or
//! the refusal that the call has there.
#![tactic(auto)]

mod moving;
mod named;
mod naming;
mod passing;
mod replacing;
mod spotting;
mod targeting;
mod walking;

pub use moving::{Move, rename_for};
pub use named::{Named, rmdir_in, row_named, unlink_in};
pub use naming::directory_for;
pub use replacing::{Replacement, replace_for};
pub use spotting::{new_number, spot_in};
pub use targeting::{link_for, link_in};
pub use walking::row_at;
