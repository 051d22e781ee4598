//! Why a file call was refused.

ghost use Rattle.std.specs.Prelude.{◌≡◌};
ghost use Rattle.nv_tree.specs.Refusals.{refusal_word};
ghost use Rattle.nv_tree.specs.Sentences.{refusal_sentence};

use std::error::Error;
use std::fmt;

/// Why a file call was refused. All but `Stopped` leave everything as it was.
#[derive(Clone, Copy, Debug, PartialEq, Eq)]
pub enum Refusal {
    /// A name on the way, or the last one, stands for no inode in use.
    NotFound,
    /// There is an inode of that name.
    Exists,
    /// An inode on the way, or the last one, is no directory.
    NotDirectory,
    /// The inode is a directory.
    IsDirectory,
    /// The directory has names.
    NotEmpty,
    /// The path is none, or it is `/` where a name is wanted.
    BadName,
    /// The region has fewer free blocks than the call needs.
    NoSpace,
    /// The table of that CPU has no unused slot.
    NoInodes,
    /// The file would have more than 1,073,741,824 bytes.
    TooLarge,
    /// The region was mounted with faults.
    ReadOnly,
    /// The file has 1,000 links.
    LinkLimit,
    /// The directory would lie in itself.
    IntoItself,
    /// There is no CPU of that number.
    BadCpu,
    /// A growth was refused.
    Memory,
    /// The memory's fuse has burnt. From then on every call answers it, until the region is recovered again.
    Stopped,
    /// The region has version 2 already.
    IsVersion2,
}

impl Refusal {
    /// The name that scripts print.
    pub fn name(self) -> &'static str
        ensures { result.now ≡ refusal_word self }
    {
        match self {
            Refusal::NotFound => "NotFound",
            Refusal::Exists => "Exists",
            Refusal::NotDirectory => "NotDirectory",
            Refusal::IsDirectory => "IsDirectory",
            Refusal::NotEmpty => "NotEmpty",
            Refusal::BadName => "BadName",
            Refusal::NoSpace => "NoSpace",
            Refusal::NoInodes => "NoInodes",
            Refusal::TooLarge => "TooLarge",
            Refusal::ReadOnly => "ReadOnly",
            Refusal::LinkLimit => "LinkLimit",
            Refusal::IntoItself => "IntoItself",
            Refusal::BadCpu => "BadCpu",
            Refusal::Memory => "Memory",
            Refusal::Stopped => "Stopped",
            Refusal::IsVersion2 => "IsVersion2",
        }
    }

    /// What is shown of it to people.
    fn sentence(self) -> &'static str
        ensures { result.now ≡ refusal_sentence self }
    {
        match self {
            Refusal::NotFound => "there is no such inode",
            Refusal::Exists => "there is an inode of that name",
            Refusal::NotDirectory => "a file stands where a directory is wanted",
            Refusal::IsDirectory => "a directory stands where a file is wanted",
            Refusal::NotEmpty => "the directory has names",
            Refusal::BadName => "the text is no path, or it is / where a name is wanted",
            Refusal::NoSpace => "fewer blocks are free than the call needs",
            Refusal::NoInodes => "the table of that CPU has no unused slot",
            Refusal::TooLarge => "the file would have more than 1,073,741,824 bytes",
            Refusal::ReadOnly => "the region was mounted with faults, so it can only be read",
            Refusal::LinkLimit => "the file has 1,000 links",
            Refusal::IntoItself => "the directory would lie in itself",
            Refusal::BadCpu => "there is no CPU of that number",
            Refusal::Memory => "out of memory",
            Refusal::Stopped => "the memory has been stopped",
            Refusal::IsVersion2 => "the region has version 2 already",
        }
    }
}

/// Shows a sentence. The word of scripts is its `name`.
impl fmt::Display for Refusal {
    ghost use Rattle.std.specs.Prelude.{Some};

    ghost output = { λ refusal. Some (refusal_sentence refusal) };

    fn fmt<W: fmt::Write>(&self, f: &mut fmt::Formatter<W>) -> fmt::Result {
        f.write_str(self.sentence())
    }
}

impl Error for Refusal {}
