//! Bytes for a file: given ones, or one byte many times.

ghost use Rattle.std.specs.Prelude.{◌≡◌, ◌+◌, ◌*◌, ◌<◌, ◌≤◌, ℕ, length, get_or};
ghost use Rattle.nv_bytes.specs.Bytes.{byte_of_word};
ghost use Rattle.nv_bytes.specs.Data.{data_bytes};

use byteorder::{ByteOrder, LittleEndian};

/// Bytes for a file.
#[derive(Clone, Copy)]
pub enum Data<'a> {
    /// These.
    Given(&'a [u8]),
    /// One byte so many times. However many they are, they take no memory.
    Same { byte: u8, count: u64 },
}

impl Data<'_> {
    /// How many bytes they are.
    pub fn len(&self) -> u64
        ensures { result ≡ length (data_bytes self.now) }
    {
        match self {
            Data::Given(bytes) => bytes.len() as u64,
            Data::Same { byte: _, count } => *count,
        }
    }

    /// The byte at a place.
    pub(crate) fn byte(&self, at: u64) -> u8
        requires { at < length (data_bytes self.now) }
        ensures { result ≡ get_or (data_bytes self.now) at 0 }
    {
        match self {
            Data::Given(bytes) => bytes[at as usize],
            Data::Same { byte, count: _ } => *byte,
        }
    }

    /// The word of the eight bytes from a place on.
    pub(crate) fn word(&self, at: u64) -> u64
        requires { at + 8 ≤ length (data_bytes self.now) }
        ensures { (k : ℕ) → k < 8 → byte_of_word result k ≡ get_or (data_bytes self.now) (at + k) 0 }
    {
        match self {
            Data::Given(bytes) => first_word(&bytes[at as usize..]),
            Data::Same { byte, count: _ } => word_of(*byte),
        }
    }

    /// Reads the words from a place on, as many as there is room for.
    pub(crate) fn read(&self, at: u64, words: &mut [u64])
        requires { at + 8 * length words.old ≤ length (data_bytes self.now) }
        ensures read { (j k : ℕ) → j < length words.old → k < 8 → byte_of_word (get_or words.new j 0) k ≡ get_or (data_bytes self.now) (at + 8 * j + k) 0 }
        ensures as_long { length words.new ≡ length words.old }
    {
        match self {
            Data::Given(bytes) => {
                let start = at as usize;
                read_words(&bytes[start..start + 8 * words.len()], words);
            }
            Data::Same { byte, count: _ } => words.fill(word_of(*byte)),
        }
    }
}

// The word all of whose bytes are this one.
fn word_of(byte: u8) -> u64
    ensures { (k : ℕ) → k < 8 → byte_of_word result k ≡ byte }
{
    u64::from_le_bytes([byte; 8])
}

// The word of the first eight bytes.
fn first_word(bytes: &[u8]) -> u64
    requires { 8 ≤ length bytes.now }
    ensures { (k : ℕ) → k < 8 → byte_of_word result k ≡ get_or bytes.now k 0 }
{
    LittleEndian::read_u64(bytes)
}

// Reads the words of bytes, which are as many as there is room for.
fn read_words(bytes: &[u8], words: &mut [u64])
    requires { length bytes.now ≡ 8 * length words.old }
    ensures read { (j k : ℕ) → j < length words.old → k < 8 → byte_of_word (get_or words.new j 0) k ≡ get_or bytes.now (8 * j + k) 0 }
    ensures as_long { length words.new ≡ length words.old }
{
    LittleEndian::read_u64_into(bytes, words);
}
