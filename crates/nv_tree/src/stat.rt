//! The numbers of an inode, as callers see them.

use nv_super::Kind;

/// An inode's number, kind, mode, owner, group, size in bytes, link count and time.
#[derive(Clone, Copy, Debug, PartialEq, Eq)]
pub struct Stat {
    pub inode: u64,
    pub kind: Kind,
    pub mode: u32,
    pub owner: u32,
    pub group: u32,
    pub size: u64,
    pub links: u32,
    pub time: u64,
}
