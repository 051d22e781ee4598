//! Formatting, opening and closing.

ghost use Rattle.std.specs.Prelude.{◌≡◌, ◌≢◌, ◌⊎◌, IfErr, IfOk};
ghost use Rattle.nv_region.specs.Region.{region_of};
ghost use Rattle.nv_region.specs.Stops.{NothingPending};
ghost use Rattle.nv_lent.specs.WordsState.{as_it_reads, region_over};
ghost use Rattle.nova_c.specs.Codes.{RefusesFormat, RefusesMount};
ghost use Rattle.nova_c.specs.Handles.{IsClosed, IsOpen, KeepsAll, TellsClosed};
ghost use Rattle.nova_c.specs.Mounted.{Mounts, MountsFormatted, blank};

use crate::codes::{
    BAD_FORMAT_LENGTH, BAD_LENGTH, BUSY, CLOSED, DONE, MEMORY, format_code, recover_code,
    region_code,
};
use crate::handle::{Mounted, NovaFs};
use crate::image::NovaImage;
use nv_calls::Fs;
use nv_format::format;
use nv_lent::WordRegion;
use std::alloc::Global;

// Mounts a region, or says by a status why not.
fn mounted(alloc: Global, memory: WordRegion<'static>) -> Result<Box<Mounted>, u32>
    requires settled { NothingPending memory (as_it_reads memory) }
    ensures mounted { IfOk result (λ b. Mounts memory.entry b.value) }
    ensures refused { IfErr result (RefusesMount memory.entry) }
{
    let mount = match Fs::mount(alloc, memory) {
        Ok(mount) => mount,
        Err((_memory, error)) => return Err(recover_code(error)),
    };
    match Box::new(alloc, mount) {
        Ok(mount) => Ok(mount),
        Err(_) => Err(MEMORY),
    }
}

// Copies the bytes of a region, and mounts it.
fn opened(alloc: Global, bytes: &[u8]) -> Result<Box<Mounted>, u32>
    ensures mounted { IfOk result (λ b. Mounts (region_of bytes.now) b.value) }
    ensures refused { IfErr result (RefusesMount (region_of bytes.now)) }
{
    match WordRegion::from_bytes(alloc, bytes) {
        Ok(memory) => mounted(alloc, memory),
        Err(refusal) => Err(region_code(refusal, BAD_LENGTH)),
    }
}

// Mounts a region over the words that it has.
fn mapped(alloc: Global, image: NovaImage) -> Result<Box<Mounted>, u32>
    ensures mounted { IfOk result (λ b. Mounts (region_over image.words) b.value) }
    ensures refused { IfErr result (RefusesMount (region_over image.words)) }
{
    match WordRegion::from_words(alloc, image.into_words()) {
        Ok(memory) => mounted(alloc, memory),
        Err(refusal) => Err(region_code(refusal, BAD_LENGTH)),
    }
}

// Formats blocks of zeros, and mounts them.
fn formatted(
    alloc: Global,
    blocks: u64,
    cpus: u64,
    tables: u64,
    time: u64,
) -> Result<Box<Mounted>, u32>
    ensures mounted { IfOk result (λ b. MountsFormatted blocks cpus tables time b.value) }
    ensures refused { IfErr result (RefusesFormat (blank blocks) cpus tables) }
{
    let mut memory = match WordRegion::new(alloc, blocks) {
        Ok(memory) => memory,
        Err(refusal) => return Err(region_code(refusal, BAD_FORMAT_LENGTH)),
    };
    if let Err(refusal) = format(&mut memory, cpus, tables, time) {
        return Err(format_code(refusal));
    }
    mounted(alloc, memory)
}

/// Formats so many blocks of zeros, in memory of the library's own, and mounts them: for each CPU a pool of blocks, and so many
/// table blocks, each of 32 inodes.
///
/// Statuses: 17 where the handle is open already; 30 where there aren't 8 to 262,144 blocks, 31 where there aren't 1 to 64 CPUs,
/// 32 where there aren't 1 to 64 table blocks for each or no block is left behind them; 14 where memory was refused.
#[unsafe(no_mangle)]
pub extern "C" fn nova_format(
    alloc: Global,
    fs: &mut NovaFs,
    blocks: u64,
    cpus: u64,
    tables: u64,
    time: u64,
) -> u32
    ensures mounted { IsClosed fs.old → result ≡ 0 → IsOpen fs.new × MountsFormatted blocks cpus tables time fs.new.mount }
    ensures refused { IsClosed fs.old → result ≢ 0 → IsClosed fs.new × RefusesFormat (blank blocks) cpus tables result }
    ensures busy { IsOpen fs.old → (result ≡ 17) × KeepsAll fs.old fs.new }
{
    match fs.take(alloc) {
        Some(mount) => {
            fs.put(mount);
            BUSY
        }
        None => match formatted(alloc, blocks, cpus, tables, time) {
            Ok(mount) => {
                fs.put(mount);
                DONE
            }
            Err(status) => status,
        },
    }
}

/// Copies the bytes of an image, recovers the region that they are, and mounts it: damaged ones too, which can only be read.
///
/// Statuses: 17 where the handle is open already; 20 to 26 for the superblock's first fault, `S1` to `S7`; 14 where memory was
/// refused.
#[unsafe(no_mangle)]
pub extern "C" fn nova_open(alloc: Global, fs: &mut NovaFs, bytes: &[u8]) -> u32
    // An open handle owns the outcome that is defined of the bytes, as a mount.
    ensures mounted { IsClosed fs.old → result ≡ 0 → IsOpen fs.new × Mounts (region_of bytes.now) fs.new.mount }
    ensures refused { IsClosed fs.old → result ≢ 0 → IsClosed fs.new × RefusesMount (region_of bytes.now) result }
    ensures busy { IsOpen fs.old → (result ≡ 17) × KeepsAll fs.old fs.new }
{
    match fs.take(alloc) {
        Some(mount) => {
            fs.put(mount);
            BUSY
        }
        None => match opened(alloc, bytes) {
            Ok(mount) => {
                fs.put(mount);
                DONE
            }
            Err(status) => status,
        },
    }
}

/// Recovers the region that these words are, and mounts it over them: each store of a later call goes to them at once. They are
/// the library's from the call on, whatever it answers, until the handle is closed.
///
/// Statuses as `nova_open` has them.
#[unsafe(no_mangle)]
pub extern "C" fn nova_map(alloc: Global, fs: &mut NovaFs, image: NovaImage) -> u32
    ensures mounted { IsClosed fs.old → result ≡ 0 → IsOpen fs.new × Mounts (region_over image.words) fs.new.mount }
    ensures refused { IsClosed fs.old → result ≢ 0 → IsClosed fs.new × RefusesMount (region_over image.words) result }
    ensures busy { IsOpen fs.old → (result ≡ 17) × KeepsAll fs.old fs.new }
{
    match fs.take(alloc) {
        Some(mount) => {
            fs.put(mount);
            BUSY
        }
        None => match mapped(alloc, image) {
            Ok(mount) => {
                fs.put(mount);
                DONE
            }
            Err(status) => status,
        },
    }
}

/// Closes a handle, and gives the library's memory back.
///
/// Status: 16 where it is closed already.
#[unsafe(no_mangle)]
pub extern "C" fn nova_close(alloc: Global, fs: &mut NovaFs) -> u32
    ensures closes { IsOpen fs.old → (result ≡ 0) × IsClosed fs.new }
    ensures closed { IsClosed fs.old → TellsClosed fs.new result }
{
    match fs.take(alloc) {
        Some(mount) => {
            drop(mount);
            DONE
        }
        None => CLOSED,
    }
}
