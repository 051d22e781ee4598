//! What a command prints: a text, or the line of a long part of a file, which is made a piece at a time as it is written.

ghost use Rattle.std.specs.Prelude.{◌≡◌, ◌<◌, length};

/// How many bytes of a file are shown at a time.
pub(crate) const PIECE: usize = 131_072;

/// What a command prints, until the next command is run.
#[derive(Drop)]
pub enum Printed {
    /// This text.
    Text(String),
    /// The line of a part of a file. It needs no memory to be written.
    Part(FilePart),
}

/// A part of the file at a path, from an offset up to an end, with room for a piece of its bytes and for their digits.
#[derive(Drop)]
pub struct FilePart {
    pub(crate) path: Vec<u8>,
    pub(crate) offset: u64,
    pub(crate) end: u64,
    pub(crate) bytes: Vec<u8>,
    pub(crate) digits: Vec<u8>,
    pub ghost some: { offset < end },
    pub ghost bytes_room: { length bytes.items ≡ 131072 },
    pub ghost digits_room: { length digits.items ≡ 262144 },
}
