//! The lengths that a region can have, for a user whose region is refused for its own.

ghost use Rattle.std.specs.Prelude.{◌≡◌, Some, true, false};
ghost use Rattle.nv_region.specs.Region.{Region, size};
ghost use Rattle.nv_super.specs.Super.{Applies};
ghost use Rattle.nv_super.specs.declared.superblock.SuperFault.TheVariants as faults;
ghost use Rattle.nv_report.specs.Lengths.{length_text};

use nv_super::{BLOCK_SIZE, LEAST_BLOCKS, MOST_BLOCKS};
use std::fmt;

/// The bytes of the longest region.
pub const LONGEST_REGION: usize = (MOST_BLOCKS * BLOCK_SIZE) as usize;

/// A length that no region has.
#[derive(Clone, Copy, Debug, PartialEq, Eq)]
pub enum BadLength {
    /// So many bytes.
    Bytes(u64),
    /// More bytes than this.
    MoreThan(u64),
}

/// Whether a region can have so many bytes.
pub fn is_region_length(bytes: u64) -> bool
    ensures taken { result ≡ true → (R : Region) → size R ≡ bytes → Applies R faults.Length → ⊥ }
    ensures refused { result ≡ false → (R : Region) → size R ≡ bytes → Applies R faults.Length }
{
    let blocks = bytes / BLOCK_SIZE;
    bytes % BLOCK_SIZE == 0 && LEAST_BLOCKS <= blocks && blocks <= MOST_BLOCKS
}

impl fmt::Display for BadLength {
    ghost output = { λ length. Some (length_text length) };

    fn fmt<W: fmt::Write>(&self, f: &mut fmt::Formatter<W>) -> fmt::Result {
        match self {
            BadLength::Bytes(bytes) => write!(f, "it has {bytes} bytes")?,
            BadLength::MoreThan(bytes) => write!(f, "it has more than {bytes} bytes")?,
        }
        f.write_str("; a region has a multiple of 4096, from 32768 to 1073741824")
    }
}
