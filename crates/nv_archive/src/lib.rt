//! An archive of what rows show: a path or a number chooses an inode, and all that it holds is written, with the blocks of files
//! read as their bytes go out.
//!
//! `chosen` finds the inode and the path that it has in the archive, `shown` gives the rows and a reader of blocks as what an
//! archive is made of, and `archiving` writes it.
#![tactic(auto)]

mod archiving;
mod chosen;
mod shown;

pub use archiving::write_archive;
pub use chosen::{Chosen, inode_of};
pub use shown::inode_numbers;
