//! The inodes and names of a file system as a graph: what each file call makes of it, what it tells of a region's faults, and
//! that no call makes a fault between inodes where there is none.
//!
//! There is no code here but the names of laws.
#![tactic(auto)]

mod faultless_calls;
mod laws;
mod steps;
mod trees;

pub use faultless_calls::{
    changes_follow, create_keeps, link_keeps, rename_keeps, renamed_into_itself, replace_keeps,
    rmdir_keeps, root_has_none, unlink_keeps,
};
pub use laws::{faultless_outcome, faults_of_a_graph, graph_of_rows, one_graph};
pub use nv_outcome::{Recovered, Rows};
pub use steps::{
    create_leaves_none, link_leaves_none, rename_leaves_none, rmdir_leaves_none,
    same_words_same_inode, touch_leaves_none, unlink_leaves_none,
};
pub use trees::{bytes_leave_the_graph, no_call_makes_a_fault};
