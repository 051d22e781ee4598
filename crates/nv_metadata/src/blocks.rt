//! The bytes of an image, read piece by piece.

ghost use Rattle.std.specs.Prelude.{◌≡◌, ◌≤◌, ◌+◌, ℕ, List, Option, Some, None, IfOk, OnOk, false, is_err, length};
ghost use Rattle.nv_metadata.specs.Blocks.{AreBytesAt};

use std::fs::File;
use std::io;
use std::io::{Error, ErrorKind};
use std::marker::Model;
use std::os::unix::fs::FileExt;

/// The bytes of an image, which are read where they are wanted.
///
/// Of bytes in memory it is known what they are. What a file holds is not, and then nothing is claimed of it.
pub trait Blocks {
    /// The bytes of the image, where they are known.
    ghost bytes: { Self → Option (List ℕ) };

    /// How many bytes there are.
    ///
    /// Errors: that of the system, and none where the bytes are known.
    fn len(&self) -> io::Result<u64>
        ensures count { (image : List ℕ) → bytes self.now ≡ Some image → IfOk result (λ count. count ≡ length image) }
        ensures known { (image : List ℕ) → bytes self.now ≡ Some image → is_err result ≡ false };

    /// Reads the bytes from `at` on, as many as `into` has room for.
    ///
    /// Errors: that of the system, and one where the image ends before: no other where the bytes are known.
    fn read(&self, at: u64, into: &mut [u8]) -> io::Result<()>
        ensures read { (image : List ℕ) → bytes self.now ≡ Some image → OnOk result (AreBytesAt image at into.new) }
        ensures known { (image : List ℕ) → bytes self.now ≡ Some image → at + length into.old ≤ length image → is_err result ≡ false };
}

/// Bytes in memory.
#[derive(Drop)]
pub struct HeldBytes<'a> {
    bytes: &'a [u8],
}

impl<'a> Model for HeldBytes<'a> {
    ghost use Rattle.std.specs.Prelude.{ℕ, List};

    ghost Value = { List ℕ };

    ghost view = { λ m. m.bytes.now };
}

impl<'a> HeldBytes<'a> {
    pub fn new(bytes: &'a [u8]) -> HeldBytes<'a>
        ensures { result ≡ bytes.now }
    {
        HeldBytes { bytes }
    }
}

impl Blocks for HeldBytes<'_> {
    ghost bytes = { λ held. Some held };

    fn len(&self) -> io::Result<u64> {
        Ok(self.bytes.len() as u64)
    }

    fn read(&self, at: u64, into: &mut [u8]) -> io::Result<()> {
        let length = self.bytes.len() as u64;
        let count = into.len();
        if at > length {
            return Err(Error::from(ErrorKind::UnexpectedEof));
        }
        if count as u64 > length - at {
            return Err(Error::from(ErrorKind::UnexpectedEof));
        }
        let start = at as usize;
        into.copy_from_slice(&self.bytes[start..start + count]);
        Ok(())
    }
}

impl Blocks for File {
    ghost bytes = { λ _. None };

    fn len(&self) -> io::Result<u64> {
        Ok(self.metadata()?.len())
    }

    fn read(&self, at: u64, into: &mut [u8]) -> io::Result<()> {
        self.read_exact_at(into, at)
    }
}
