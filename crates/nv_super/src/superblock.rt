//! The superblock: block 0 of a region, whose words lay out all other areas.
//!
//! At byte 0 stands the magic, at 8 the version, at 16 the number of CPUs, at 24 that of blocks, at 32 that of table
//! blocks for each CPU, and at 40 the state. The magic is stored last when a region is made, so a region without it is
//! no file system.

ghost use Rattle.std.specs.Prelude.{◌≡◌, ◌≤◌, ◌<◌, ◌+◌, ◌-◌, ◌*◌, ◌/◌, ◌%◌, IfOk, IfErr, OnOk, is_err};
ghost use Rattle.nv_region.specs.Region.{HasBlocks, size};
ghost use Rattle.nv_region.specs.Fuses.{KeepsFuse};
ghost use Rattle.nv_region.specs.Stored.{StoresOnly, Within};
ghost use Rattle.nv_super.specs.Layout.{system_blocks, pool_start, slot_address, is_page_start, inode_limit, is_number, name_limit, is_name_number, HasAreas, IsLayout};
ghost use Rattle.nv_super.specs.Super.{IsSuper, IsRefused, with_numbers};

use nv_region::{MOST_BLOCKS, Pmem, Stopped};
use thiserror::Error;

/// The bytes of a block.
pub const BLOCK_SIZE: u64 = 4096;

/// The eight ASCII bytes `NOVAPM01`, as a little-endian word.
pub const MAGIC: u64 = 0x3130_4d50_4156_4f4e;

/// The fewest blocks of a region.
pub const LEAST_BLOCKS: u64 = 8;

/// The most CPUs of a region.
pub const MOST_CPUS: u64 = 64;

/// The most table blocks of a CPU.
pub const MOST_TABLE_BLOCKS: u64 = 64;

/// The bytes of an inode's slot.
pub const SLOT_SIZE: u64 = 128;

/// The layout version whose tables have chains of blocks.
pub const WITH_CHAINS: u64 = 2;

/// How many slots a block of a chain has.
pub const EXTRA_SLOTS: u64 = 31;

/// The most pages of a file.
pub const MOST_FILE_PAGES: u64 = 262_144;

/// The most bytes of a file.
pub const MOST_FILE_BYTES: u64 = MOST_FILE_PAGES * BLOCK_SIZE;

/// The most links of a file.
pub const MOST_LINKS: u32 = 1000;

/// The numbers of a superblock: the layout's version, CPUs, blocks of the region, table blocks for each CPU, and the
/// state, which is shown and never used.
#[derive(Clone, Copy, Debug, PartialEq, Eq)]
pub struct Super {
    pub version: u64,
    pub cpus: u64,
    pub blocks: u64,
    pub table_blocks: u64,
    pub state: u64,
}

/// Why a region is no file system, in the order in which the faults are looked for.
#[derive(Clone, Copy, Debug, PartialEq, Eq, Error)]
pub enum SuperFault {
    /// The length isn't a multiple of 4096 bytes, or isn't of 8 to 262,144 blocks.
    #[error("S1, the length isn't that of 8 to 262,144 blocks of 4096 bytes")]
    Length,
    /// The magic word is another.
    #[error("S2, the magic word is another")]
    Magic,
    /// The version is neither 1 nor 2.
    #[error("S3, the version is neither 1 nor 2")]
    Version,
    /// There aren't 1 to 64 CPUs.
    #[error("S4, there aren't 1 to 64 CPUs")]
    Cpus,
    /// The number of blocks isn't that of the region.
    #[error("S5, the number of blocks isn't that of the region")]
    Blocks,
    /// There aren't 1 to 64 table blocks for each CPU, or no data block is left behind the tables.
    #[error("S6, there aren't 1 to 64 table blocks for each CPU, or no data block is left")]
    Tables,
    /// The state is neither 0 nor 1.
    #[error("S7, the state is neither 0 nor 1")]
    State,
}

/// Reads the superblock of any region. It takes no memory.
///
/// Errors: the first fault that applies, in the order of `SuperFault`.
pub fn read_super<P: Pmem>(memory: &P) -> Result<Super, SuperFault>
    ensures accepted { IfOk result (λ s. IsSuper (P.region memory.now) s) }
    ensures layout { IfOk result (λ s. IsLayout s) }
    ensures blocks { IfOk result (λ s. HasBlocks (P.region memory.now) s.blocks) }
    ensures refused { IfErr result (λ fault. IsRefused (P.region memory.now) fault) }
{
    let length = memory.len();
    let blocks = length / BLOCK_SIZE;
    if length % BLOCK_SIZE != 0 || blocks < LEAST_BLOCKS || blocks > MOST_BLOCKS {
        return Err(SuperFault::Length);
    }
    if memory.load(0) != MAGIC {
        return Err(SuperFault::Magic);
    }
    let found = Super {
        version: memory.load(8),
        cpus: memory.load(16),
        blocks: memory.load(24),
        table_blocks: memory.load(32),
        state: memory.load(40),
    };
    if found.version != 1 && found.version != WITH_CHAINS {
        return Err(SuperFault::Version);
    }
    if found.cpus < 1 || found.cpus > MOST_CPUS {
        return Err(SuperFault::Cpus);
    }
    if found.blocks != blocks {
        return Err(SuperFault::Blocks);
    }
    if found.table_blocks < 1 || found.table_blocks > MOST_TABLE_BLOCKS {
        return Err(SuperFault::Tables);
    }
    if 1 + found.cpus + found.cpus * found.table_blocks >= found.blocks {
        return Err(SuperFault::Tables);
    }
    if found.state > 1 {
        return Err(SuperFault::State);
    }
    Ok(found)
}

/// Stores the five numbers of the superblock, in rising order and without a fence. The magic stays.
///
/// Errors: `Stopped` exactly where the fuse has burnt by the end of the call; only words of these numbers may have
/// changed then.
pub fn write_super<P: Pmem>(memory: &mut P, sup: &Super) -> Result<(), Stopped>
    requires { 4096 ≤ size (P.region memory.old) }
    ensures done { OnOk result (P.region memory.new ≡ with_numbers (P.region memory.old) sup.now) }
    ensures wrote { StoresOnly (Within 8 40) (P.region memory.old) (P.region memory.new) (P.may_hold memory.old) (P.may_hold memory.new) }
    ensures stopped { is_err result ≡ (P.fuse memory.new).has_burnt }
    ensures keeps_fuse { KeepsFuse (λ limit. 48 ≤ limit) (P.fuse memory.old) (P.fuse memory.new) }
{
    memory.store_words(
        8,
        &[
            sup.version,
            sup.cpus,
            sup.blocks,
            sup.table_blocks,
            sup.state,
        ],
    )
}

impl Super {
    /// The number of blocks before the data blocks: the superblock, the journals and the tables. It is also the
    /// number of the first data block.
    pub fn system_blocks(&self) -> u64
        requires { HasAreas self.now }
        ensures { result ≡ system_blocks self.now }
    {
        1 + self.cpus + self.cpus * self.table_blocks
    }

    /// Whether a data block begins at the byte address.
    pub fn is_page_start(&self, address: u64) -> bool
        requires { HasAreas self.now }
        ensures { result ≡ is_page_start self.now address }
    {
        self.system_blocks() <= address / BLOCK_SIZE
            && address / BLOCK_SIZE < self.blocks
            && address % BLOCK_SIZE == 0
    }

    /// The numbers of inodes are below this: it is the number of all slots.
    pub fn inode_limit(&self) -> u64
        requires { HasAreas self.now }
        ensures { result ≡ inode_limit self.now }
    {
        BLOCK_SIZE / SLOT_SIZE * self.cpus * self.table_blocks
    }

    /// Whether an inode can have this number.
    pub fn is_number(&self, inode: u64) -> bool
        requires { HasAreas self.now }
        ensures { result ≡ is_number self.now inode }
    {
        inode > 0 && inode < self.inode_limit()
    }

    /// The numbers that a name may say are below this, whatever the chains of tables are. In version 1 they are the
    /// numbers of inodes.
    pub fn name_limit(&self) -> u64
        requires { HasAreas self.now }
        ensures { result ≡ name_limit self.now }
    {
        if self.version != WITH_CHAINS {
            return self.inode_limit();
        }
        let blocks = self.blocks - self.system_blocks();
        self.cpus * (BLOCK_SIZE / SLOT_SIZE * self.table_blocks + EXTRA_SLOTS * blocks)
    }

    /// Whether a name may say this number.
    pub fn is_name_number(&self, inode: u64) -> bool
        requires { HasAreas self.now }
        ensures { result ≡ is_name_number self.now inode }
    {
        inode > 0 && inode < self.name_limit()
    }

    /// The first block of the pool of a CPU, and the block behind its last. A pool may be empty.
    pub fn pool(&self, cpu: u64) -> (u64, u64)
        requires layout { IsLayout self.now }
        requires cpu { cpu < self.now.cpus }
        ensures start { result.0 ≡ pool_start self.now cpu }
        ensures end { result.1 ≡ pool_start self.now (cpu + 1) }
    {
        let first = self.system_blocks();
        let count = self.blocks - first;
        (
            first + cpu * count / self.cpus,
            first + (cpu + 1) * count / self.cpus,
        )
    }

    /// The byte address of the slot of an inode in the fixed tables: inode `i` is slot `i / cpus` of the table of CPU
    /// `i % cpus`, and a slot has 128 bytes. The slot lies whole within the region.
    pub fn slot_address(&self, inode: u64) -> u64
        requires layout { IsLayout self.now }
        requires inode { inode < 32 * self.now.cpus * self.now.table_blocks }
        ensures value { result ≡ slot_address self.now inode }
        ensures whole { result % 128 ≡ 0 }
        ensures inside { result + 128 ≤ 4096 * self.now.blocks }
    {
        let table = 1 + self.cpus + inode % self.cpus * self.table_blocks;
        table * BLOCK_SIZE + inode / self.cpus * SLOT_SIZE
    }

    /// The greatest inode number.
    pub fn max_inode(&self) -> u64
        requires { IsLayout self.now }
        ensures { result ≡ 32 * self.now.cpus * self.now.table_blocks - 1 }
    {
        self.inode_limit() - 1
    }
}
