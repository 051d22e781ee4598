//! What a block is used for.

ghost use Rattle.std.specs.Prelude.{◌≡◌};
ghost use Rattle.nv_map.specs.Rank.{rank};
ghost use Rattle.nv_map.specs.Text.{letter};

/// What a block is used for. Of several blocks, or of several uses, the last of these is told.
#[derive(Clone, Copy, PartialEq, Eq)]
pub enum BlockUse {
    /// It is free.
    Free,
    /// It stands before the data blocks: the superblock, a journal or a part of a table.
    System,
    /// It is a block of a table's chain, behind those of the system.
    Table,
    /// It holds a page of a file.
    Data,
    /// It is a page of a log.
    Log,
    /// It has two owners or more.
    Doubled,
}

impl BlockUse {
    /// The letter or sign that stands for it in a map.
    pub fn letter(self) -> &'static str
        ensures { result.now ≡ letter self }
    {
        match self {
            BlockUse::Free => ".",
            BlockUse::System => "S",
            BlockUse::Table => "T",
            BlockUse::Data => "D",
            BlockUse::Log => "L",
            BlockUse::Doubled => "!",
        }
    }

    // Its place in the order of telling.
    pub(crate) fn rank(self) -> u8
        ensures { result ≡ rank self }
    {
        match self {
            BlockUse::Free => 0,
            BlockUse::System => 1,
            BlockUse::Table => 2,
            BlockUse::Data => 3,
            BlockUse::Log => 4,
            BlockUse::Doubled => 5,
        }
    }
}
