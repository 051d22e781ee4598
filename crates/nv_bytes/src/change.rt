//! New bytes of a file, as they fall into its words.

ghost use Rattle.std.specs.Prelude.{◌≡◌, ◌+◌, ◌*◌, ◌<◌, ◌≤◌, ◌^◌, ℕ, length, get_or, IsTrue};
ghost use Rattle.nv_bytes.specs.Bytes.{byte_of_word, byte_after};
ghost use Rattle.nv_bytes.specs.Data.{data_bytes};

use crate::contents::Data;

/// The bytes of a line.
pub(crate) const LINE_SIZE: u64 = 64;

/// New bytes of a file from an offset on, and the size of the file before.
///
/// What stood past the size counts as zeros.
#[derive(Clone, Copy)]
pub struct NewBytes<'a> {
    pub offset: u64,
    pub content: Data<'a>,
    pub size: u64,
}

impl NewBytes<'_> {
    /// The end of the new bytes.
    fn end(&self) -> u64
        requires { self.now.offset + length (data_bytes self.now.content) ≤ 2 ^ 62 }
        ensures { result ≡ self.now.offset + length (data_bytes self.now.content) }
    {
        self.offset + self.content.len()
    }

    /// Whether so many bytes from byte `x` on are all new ones.
    pub(crate) fn covers(&self, x: u64, count: u64) -> bool
        requires place { x + count ≤ 2 ^ 62 }
        requires small { self.now.offset + length (data_bytes self.now.content) ≤ 2 ^ 62 }
        ensures from { IsTrue result → self.now.offset ≤ x }
        ensures to { IsTrue result → x + count ≤ self.now.offset + length (data_bytes self.now.content) }
    {
        self.offset <= x && x + count <= self.end()
    }

    /// Reads the words of the new bytes from byte `x` on, as many as there is room for.
    pub(crate) fn read(&self, x: u64, words: &mut [u64])
        requires from { self.now.offset ≤ x }
        requires to { x + 8 * length words.old ≤ self.now.offset + length (data_bytes self.now.content) }
        ensures read { (j k : ℕ) (old : ℕ → ℕ) → j < length words.old → k < 8
            → byte_of_word (get_or words.new j 0) k ≡ byte_after self.now.offset (data_bytes self.now.content) self.now.size old (x + 8 * j + k) }
        ensures as_long { length words.new ≡ length words.old }
    {
        self.content.read(x - self.offset, words);
    }

    /// The words of the new bytes in the line from byte `x` on.
    pub(crate) fn line(&self, x: u64) -> [u64; 8]
        requires from { self.now.offset ≤ x }
        requires to { x + 64 ≤ self.now.offset + length (data_bytes self.now.content) }
        ensures { (j k : ℕ) (old : ℕ → ℕ) → j < 8 → k < 8 → byte_of_word (get_or result j 0) k ≡ byte_after self.now.offset (data_bytes self.now.content) self.now.size old (x + 8 * j + k) }
    {
        let mut words = [0; 8];
        self.read(x, &mut words);
        words
    }

    /// Whether the word from byte `x` on stays: it lies below the size, and has no new byte.
    pub(crate) fn leaves(&self, x: u64) -> bool
        requires place { x + 8 ≤ 2 ^ 62 }
        requires small { self.now.offset + length (data_bytes self.now.content) ≤ 2 ^ 62 }
        ensures { IsTrue result → (k : ℕ) (old : ℕ → ℕ) → k < 8 → byte_after self.now.offset (data_bytes self.now.content) self.now.size old (x + k) ≡ old (x + k) }
    {
        x + 8 <= self.size && (x + 8 <= self.offset || self.end() <= x)
    }

    /// The word of the new bytes from byte `x` on.
    pub(crate) fn whole(&self, x: u64) -> u64
        requires from { self.now.offset ≤ x }
        requires to { x + 8 ≤ self.now.offset + length (data_bytes self.now.content) }
        ensures { (k : ℕ) (old : ℕ → ℕ) → k < 8 → byte_of_word result k ≡ byte_after self.now.offset (data_bytes self.now.content) self.now.size old (x + k) }
    {
        self.content.word(x - self.offset)
    }

    /// The word from byte `x` on, of the word that stood there, byte by byte.
    pub(crate) fn patched(&self, x: u64, old: u64) -> u64
        requires { x + 8 ≤ 2 ^ 62 }
        ensures { (k : ℕ) → k < 8 → byte_of_word result k ≡ byte_after self.now.offset (data_bytes self.now.content) self.now.size (λ _. byte_of_word old k) (x + k) }
    {
        let mut bytes = old.to_le_bytes();
        for k in 0..8 {
            bytes[k] = self.byte(x + k as u64, bytes[k]);
        }
        u64::from_le_bytes(bytes)
    }

    /// Byte `x`, of the byte that stood there.
    fn byte(&self, x: u64, old: u8) -> u8
        ensures { result ≡ byte_after self.now.offset (data_bytes self.now.content) self.now.size (λ _. old) x }
    {
        if self.offset <= x && x - self.offset < self.content.len() {
            self.content.byte(x - self.offset)
        } else if x < self.size {
            old
        } else {
            0
        }
    }
}
