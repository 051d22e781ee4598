//! Reading a file's bytes into a buffer of the caller's, a word at a time. It takes no memory.

ghost use Rattle.std.specs.Prelude.{◌≡◌, ◌+◌, ◌*◌, ◌/◌, ◌%◌, ◌<◌, ◌≤◌, ◌^◌, ◌++◌, map, drop, length, IfSome};
ghost use Rattle.std.specs.List.{range_with_len};
ghost use Rattle.nv_region.specs.Region.{size};
ghost use Rattle.nv_mounted.specs.Bytes.{byte_in};
ghost use Rattle.nv_bytes.specs.Bytes.{file_byte, LieInside};

use crate::change::LINE_SIZE;
use crate::reading::{line_at, word_at};
use nv_radix::FileIndex;
use nv_region::Pmem;
use nv_super::BLOCK_SIZE;

/// Fills a buffer with the bytes of a file from an offset on. Pages without a block read as zeros.
pub fn fill_bytes<P: Pmem>(memory: &P, index: &FileIndex, offset: u64, buffer: &mut [u8])
    requires inside { LieInside (P.region memory.now) index.now }
    requires small { offset + length buffer.old ≤ 2 ^ 62 }
    ensures { buffer.new ≡ map (file_byte (P.region memory.now) index.now) (range_with_len offset (length buffer.old)) }
{
    let mut done = 0;
    while done < buffer.len() {
        let at = offset + done as u64;
        let stop = buffer
            .len()
            .min(done + (BLOCK_SIZE - at % BLOCK_SIZE) as usize);
        fill_page(
            memory,
            index.get(at / BLOCK_SIZE),
            at,
            &mut buffer[done..stop],
        );
        done = stop;
    }
}

/// Fills a buffer with bytes of one page, from byte `start` of the file on.
fn fill_page<P: Pmem>(memory: &P, block: Option<u64>, start: u64, buffer: &mut [u8])
    requires inside { IfSome block (λ b. b * 4096 + 4096 ≤ size (P.region memory.now)) }
    requires small { start + length buffer.old ≤ 2 ^ 62 }
    ensures { buffer.new ≡ map (byte_in (P.region memory.now) block) (range_with_len start (length buffer.old)) }
{
    let mut done = 0;
    while done < buffer.len() {
        done += fill_some(memory, block, start + done as u64, &mut buffer[done..]);
    }
}

/// Fills the front of a buffer with the bytes of one line, or of one word where the line isn't wanted whole. Answers how many
/// they are.
fn fill_some<P: Pmem>(memory: &P, block: Option<u64>, start: u64, buffer: &mut [u8]) -> usize
    requires inside { IfSome block (λ b. b * 4096 + 4096 ≤ size (P.region memory.now)) }
    requires some { 0 < length buffer.old }
    requires small { start + length buffer.old ≤ 2 ^ 62 }
    ensures count { (0 < result) × (result ≤ length buffer.old) }
    ensures filled { buffer.new ≡ map (byte_in (P.region memory.now) block) (range_with_len start result) ++ drop result buffer.old }
{
    if start % LINE_SIZE == 0 && buffer.len() >= 64 {
        buffer[..64].copy_from_slice(&line_at(memory, block, start));
        return 64;
    }
    let word = word_at(memory, block, start).to_le_bytes();
    let from = (start % 8) as usize;
    let count = buffer.len().min(8 - from);
    buffer[..count].copy_from_slice(&word[from..from + count]);
    count
}
