//! What is compared.

ghost use Rattle.std.specs.Prelude.{◌≡◌, ◌≤◌, ◌+◌, Some, length, map};
ghost use Rattle.std.specs.List.{range_with_len};
ghost use Rattle.std.specs.Option.{option_map};
ghost use Rattle.nv_tree.specs.Tree.{Node, name_in};
ghost use Rattle.nv_difference.specs.Inodes.{numbers_of};

use nv_members::Inodes;
use nv_super::Kind;

/// What is told of an inode but for its names and its bytes.
#[derive(Clone, Copy)]
pub struct Numbers {
    pub kind: Kind,
    pub mode: u32,
    pub owner: u32,
    pub group: u32,
    /// In bytes.
    pub size: u64,
    pub links: u32,
    /// In seconds since 1970.
    pub time: u64,
}

/// Inodes with what they hold.
pub trait Contents: Inodes {
    /// The numbers of an inode, if it is in use.
    fn numbers_of(&self, inode: u64) -> Option<Numbers>
        ensures { result ≡ option_map numbers_of (Self.tree self.now inode) };

    /// The inode that a name of a directory stands for.
    fn named(&self, directory: u64, name: &[u8]) -> Option<u64>
        ensures { result ≡ name_in (Self.tree self.now) directory name.now };

    /// Fills a buffer with the bytes of a file from one on, all of which it has. Holes are zeros.
    fn read(&self, inode: u64, at: u64, buffer: &mut [u8])
        requires within { (node : Node) × (Self.tree self.now inode ≡ Some node) × (node.kind ≡ Kind.File) × (at + length buffer.old ≤ node.size) }
        ensures read { (node : Node) → Self.tree self.now inode ≡ Some node → buffer.new ≡ map node.bytes (range_with_len at (length buffer.old)) };
}
