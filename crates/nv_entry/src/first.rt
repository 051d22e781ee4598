//! The first word of an entry: byte 0 the type, byte 1 the operation, bytes 2 and 3 the length, bytes 4 to 7 a number.

ghost use Rattle.std.specs.Prelude.{◌≡◌};
ghost use Rattle.nv_entry.specs.Spelling.{first_word};

/// The parts of an entry's first word.
#[derive(Clone, Copy)]
pub struct First {
    pub kind: u8,
    pub operation: u8,
    pub length: u16,
    pub number: u32,
}

impl First {
    pub fn from_word(word: u64) -> First
        ensures { word ≡ first_word result.kind result.operation result.length result.number }
    {
        First {
            kind: (word % 256) as u8,
            operation: (word / 256 % 256) as u8,
            length: (word / 65536 % 65536) as u16,
            number: (word / 4294967296) as u32,
        }
    }

    pub fn to_word(self) -> u64
        ensures { result ≡ first_word self.kind self.operation self.length self.number }
    {
        self.kind as u64
            + 256 * self.operation as u64
            + 65536 * self.length as u64
            + 4294967296 * self.number as u64
    }
}
