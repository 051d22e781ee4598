//! Reading a file's bytes, a word at a time.

ghost use Rattle.std.specs.Prelude.{◌≡◌, ◌+◌, ◌-◌, ◌*◌, ◌/◌, ◌%◌, ◌<◌, ◌≤◌, ◌^◌, ℕ, ◌++◌, map, IfOk, IfSome, OnOk};
ghost use Rattle.std.specs.List.{range_with_len};
ghost use Rattle.nv_region.specs.Region.{size};
ghost use Rattle.nv_mounted.specs.Bytes.{byte_in};
ghost use Rattle.nv_bytes.specs.Bytes.{byte_of_word, file_byte, LieInside};

use crate::change::LINE_SIZE;
use byteorder::{ByteOrder, LittleEndian};
use nv_radix::FileIndex;
use nv_region::Pmem;
use nv_super::BLOCK_SIZE;
use std::alloc::{AllocError, Global};

/// The bytes of a file from an offset on, so many of them. Pages without a block read as zeros.
///
/// `AllocError` where there is no memory for them.
pub fn read_bytes<P: Pmem>(
    alloc: Global,
    memory: &P,
    index: &FileIndex,
    offset: u64,
    count: u64,
) -> Result<Vec<u8>, AllocError>
    requires inside { LieInside (P.region memory.now) index.now }
    requires small { offset + count ≤ 2 ^ 62 }
    ensures { IfOk result (λ bytes. bytes.items ≡ map (file_byte (P.region memory.now) index.now) (range_with_len offset count)) }
{
    let mut bytes = Vec::with_capacity(alloc, count as usize)?;
    let end = offset + count;
    let mut at = offset;
    while at < end {
        let stop = end.min((at / BLOCK_SIZE + 1) * BLOCK_SIZE);
        push_page(&mut bytes, memory, index.get(at / BLOCK_SIZE), at, stop)?;
        at = stop;
    }
    Ok(bytes)
}

/// Adds the bytes of one page from a place up to another.
fn push_page<P: Pmem>(
    bytes: &mut Vec<u8>,
    memory: &P,
    block: Option<u64>,
    start: u64,
    end: u64,
) -> Result<(), AllocError>
    requires inside { IfSome block (λ b. b * 4096 + 4096 ≤ size (P.region memory.now)) }
    requires rises { start ≤ end }
    requires small { end ≤ 2 ^ 62 }
    ensures { OnOk result (bytes.new.items ≡ bytes.old.items ++ map (byte_in (P.region memory.now) block) (range_with_len start (end - start))) }
{
    let mut at = start;
    while at < end {
        at = push_some(bytes, memory, block, at, end)?;
    }
    Ok(())
}

/// Adds the bytes of one line, or of one word where it isn't wanted whole. Answers where the next one begins.
fn push_some<P: Pmem>(
    bytes: &mut Vec<u8>,
    memory: &P,
    block: Option<u64>,
    start: u64,
    end: u64,
) -> Result<u64, AllocError>
    requires inside { IfSome block (λ b. b * 4096 + 4096 ≤ size (P.region memory.now)) }
    requires rises { start < end }
    requires small { end ≤ 2 ^ 62 }
    ensures place { IfOk result (λ stop. (start < stop) × (stop ≤ end)) }
    ensures added { IfOk result (λ stop. bytes.new.items ≡ bytes.old.items ++ map (byte_in (P.region memory.now) block) (range_with_len start (stop - start))) }
{
    if start % LINE_SIZE == 0 && end - start >= LINE_SIZE {
        bytes.extend_from_slice(&line_at(memory, block, start))?;
        return Ok(start + LINE_SIZE);
    }
    let stop = end.min((start / 8 + 1) * 8);
    push_part(bytes, memory, block, start, stop)?;
    Ok(stop)
}

/// The 64 bytes of a line of a page.
pub(crate) fn line_at<P: Pmem>(memory: &P, block: Option<u64>, x: u64) -> [u8; 64]
    requires inside { IfSome block (λ b. b * 4096 + 4096 ≤ size (P.region memory.now)) }
    requires whole { x % 8 ≡ 0 }
    requires small { x + 64 ≤ 2 ^ 62 }
    ensures { result ≡ map (byte_in (P.region memory.now) block) (range_with_len x 64) }
{
    let mut words = [0; 8];
    for j in 0..8 {
        words[j] = word_at(memory, block, x + 8 * j as u64);
    }
    let mut bytes = [0; 64];
    LittleEndian::write_u64_into(&words, &mut bytes);
    bytes
}

/// Adds the bytes of one word from a place up to another.
fn push_part<P: Pmem>(
    bytes: &mut Vec<u8>,
    memory: &P,
    block: Option<u64>,
    start: u64,
    end: u64,
) -> Result<(), AllocError>
    requires inside { IfSome block (λ b. b * 4096 + 4096 ≤ size (P.region memory.now)) }
    requires rises { start ≤ end }
    requires one_word { start % 8 + (end - start) ≤ 8 }
    ensures { OnOk result (bytes.new.items ≡ bytes.old.items ++ map (byte_in (P.region memory.now) block) (range_with_len start (end - start))) }
{
    let word = word_at(memory, block, start).to_le_bytes();
    let from = (start % 8) as usize;
    bytes.extend_from_slice(&word[from..from + (end - start) as usize])
}

/// The word of a page in which byte `x` of a file stands. A page without a block is zeros.
pub(crate) fn word_at<P: Pmem>(memory: &P, block: Option<u64>, x: u64) -> u64
    requires { IfSome block (λ b. b * 4096 + 4096 ≤ size (P.region memory.now)) }
    ensures { (y : ℕ) → y / 8 ≡ x / 8 → byte_of_word result (y % 8) ≡ byte_in (P.region memory.now) block y }
{
    let _length = memory.len();
    match block {
        Some(block) => memory.load(block * BLOCK_SIZE + x % BLOCK_SIZE / 8 * 8),
        None => 0,
    }
}
