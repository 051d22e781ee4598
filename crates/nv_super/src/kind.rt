//! The kinds of inodes.

ghost use Rattle.std.specs.Prelude.{◌≡◌};
ghost use Rattle.nv_super.specs.Kind.{kind_number};

use std::fmt;

/// What an inode is.
#[derive(Clone, Copy, Debug, PartialEq, Eq)]
pub enum Kind {
    File,
    Directory,
}

impl Kind {
    /// The number that stands for the kind in a slot: 1 for a file, 2 for a directory.
    pub fn number(self) -> u64
        ensures { result ≡ kind_number self }
    {
        match self {
            Kind::File => 1,
            Kind::Directory => 2,
        }
    }
}

impl fmt::Display for Kind {
    ghost use Rattle.std.specs.Prelude.{Some};
    ghost use Rattle.nv_super.specs.Kind.{kind_word};

    ghost output = { λ kind. Some (kind_word kind) };

    fn fmt<W: fmt::Write>(&self, f: &mut fmt::Formatter<W>) -> fmt::Result {
        f.write_str(match self {
            Kind::File => "file",
            Kind::Directory => "dir",
        })
    }
}
