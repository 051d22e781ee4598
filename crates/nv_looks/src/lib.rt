//! Looks into a region's bytes: what they hold is shown, and nothing is changed.
//!
//! `looking` makes calls that read of a region that is recovered over its bytes, and `looking_by_number` the same of an inode
//! that its number names. `gathered` makes such calls of the metadata alone, `catting` writes the bytes of a file whose blocks
//! are read by and by, and `archiving` an archive of what is found.
#![tactic(auto)]

mod archiving;
mod catting;
mod gathered;
mod looking;
mod looking_by_number;

pub use archiving::{tar_blocks, tar_gathered};
pub use catting::{cat_blocks, cat_gathered};
pub use gathered::{list_blocks, list_gathered, stat_blocks, stat_gathered};
pub use looking::{cat_image, list_image, stat_image};
pub use looking_by_number::{cat_inode_image, list_inode_image, stat_inode_image};
pub use nv_archive::Chosen;
pub use nv_image_check::Answered;
