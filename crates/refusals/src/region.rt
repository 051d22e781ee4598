//! Two small regions, damaged, and the same with their journals rolled back, word by word. Each has two CPUs and one table
//! block for each CPU: the slots are in the blocks 3 and 4, and the data blocks begin with 5.

ghost use Rattle.std.specs.Prelude.{◌≤◌};
ghost use Rattle.nv_region.specs.Region.{HasBlocks};

use nv_region::{MemRegion, Pmem};
use nv_super::{MAGIC, Super};

/// Which of the regions.
#[derive(Clone, Copy)]
pub(crate) enum Damage {
    /// Each table goes on in a chain. A stop left records pending. Two blocks have two owners.
    Chained,
    /// Logs add a name that is there, and remove one that isn't.
    Names,
}

/// The superblock of the region with chains.
pub(crate) const CHAINED: Super = Super {
    version: 2,
    cpus: 2,
    blocks: 16,
    table_blocks: 1,
    state: 0,
};

/// The superblock and the links: the chain of CPU 0 has the blocks 12 and 13, that of CPU 1 block 14, which leads back to
/// itself.
const TABLES: [(u64, u64); 9] = [
    (0, MAGIC),
    (8, 2),
    (16, 2),
    (24, 16),
    (32, 1),
    (4112, 49152),
    (49152, 53248),
    (8208, 57344),
    (57344, 57344),
];

/// The last two records of the journal of CPU 0 are pending: of a word that no journal may name, and of the tail of
/// inode 2. Three records of CPU 1 are pending: of the valid word of inode 5, and of the tails of the root and of inode 128.
const JOURNALS: [(u64, u64); 13] = [
    (4096, 250),
    (8160, 100),
    (8168, 7),
    (8176, 12440),
    (8184, 24688),
    (8192, 0),
    (8200, 3),
    (8256, 16640),
    (8264, 0),
    (8272, 16408),
    (8280, 20576),
    (8288, 53528),
    (8296, 61472),
];

/// What the pending records leave.
const ROLLED_BACK: [(u64, u64); 6] = [
    (4096, 0),
    (12440, 24688),
    (8192, 3),
    (16640, 0),
    (16408, 20576),
    (53528, 61472),
];

/// Valid word, kind, head and tail of the inodes 2, 4, 1, 3 and 5, and of inode 128, whose slot is in block 13.
const SLOTS: [(u64, u64); 24] = [
    (12416, 1),
    (12424, 1),
    (12432, 24576),
    (12440, 24712),
    (12544, 1),
    (12552, 1),
    (12560, 40960),
    (12568, 41032),
    (16384, 1),
    (16392, 2),
    (16400, 20480),
    (16408, 20608),
    (16512, 1),
    (16520, 2),
    (16528, 28672),
    (16536, 28800),
    (16640, 1),
    (16648, 1),
    (16656, 45056),
    (16664, 45088),
    (53504, 1),
    (53512, 1),
    (53520, 61440),
    (53528, 8),
];

/// The first word of an attributes entry of mode 420.
const ATTRIBUTES: u64 = 0x1a4_0020_0002;

/// The first word of an entry that adds a name of one byte.
const NAME: u64 = 0x1_0020_0103;

/// The first word of an entry that writes one page.
const WRITE: u64 = 0x1_0028_0001;

/// The first word of an entry that sets the link count to 2.
const TWO_LINKS: u64 = 0x2_0018_0004;

/// The root's log names the inodes 2, 3 and 5, the log of directory 3 the inodes 2, 4 and 20, which isn't in use.
const DIRECTORIES: [(u64, u64); 20] = [
    (20480, ATTRIBUTES),
    (20512, NAME),
    (20520, 2),
    (20536, 97),
    (20544, NAME),
    (20552, 3),
    (20568, 98),
    (20576, NAME),
    (20584, 5),
    (20600, 99),
    (28672, ATTRIBUTES),
    (28704, NAME),
    (28712, 2),
    (28728, 120),
    (28736, NAME),
    (28744, 20),
    (28760, 121),
    (28768, NAME),
    (28776, 4),
    (28792, 122),
];

/// File 2 has the blocks 8 and 9, and then two links; file 4 has block 9 too; the files 5 and 128 are empty.
const FILES: [(u64, u64); 16] = [
    (24576, ATTRIBUTES),
    (24608, WRITE),
    (24624, 8),
    (24632, 4096),
    (24648, WRITE),
    (24656, 1),
    (24664, 9),
    (24672, 8192),
    (24688, TWO_LINKS),
    (40960, ATTRIBUTES),
    (40992, WRITE),
    (41000, 0),
    (41008, 9),
    (41016, 4096),
    (45056, ATTRIBUTES),
    (61440, ATTRIBUTES),
];

/// Of 64 blocks.
const NAMES_SUPERBLOCK: [(u64, u64); 5] = [(0, MAGIC), (8, 1), (16, 2), (24, 64), (32, 1)];

/// Valid word, kind, head and tail of the inodes 2, 4, 8 and 1.
const NAMES_SLOTS: [(u64, u64); 16] = [
    (12416, 1),
    (12424, 2),
    (12432, 24576),
    (12440, 24640),
    (12544, 1),
    (12552, 2),
    (12560, 28672),
    (12568, 28736),
    (12800, 1),
    (12808, 1),
    (12816, 36864),
    (12824, 36920),
    (16384, 1),
    (16392, 2),
    (16400, 20480),
    (16408, 20640),
];

/// The first word of an entry that removes a name of one byte.
const GONE: u64 = 0x1_0020_0203;

/// The root's log removes a name that isn't there, adds `a` twice, and then a name of inode 10, which isn't in use. The
/// directories 2 and 4 name each other, and the root neither. File 8 has two links.
const NAMES_LOGS: [(u64, u64); 23] = [
    (20480, ATTRIBUTES),
    (20512, GONE),
    (20520, 2),
    (20536, 100),
    (20544, NAME),
    (20552, 8),
    (20568, 97),
    (20576, NAME),
    (20584, 8),
    (20600, 97),
    (20608, NAME),
    (20616, 10),
    (20632, 99),
    (24576, ATTRIBUTES),
    (24608, NAME),
    (24616, 4),
    (24632, 101),
    (28672, ATTRIBUTES),
    (28704, NAME),
    (28712, 2),
    (28728, 121),
    (36864, ATTRIBUTES),
    (36896, TWO_LINKS),
];

/// How many blocks the region has.
pub(crate) fn blocks_of(damage: Damage) -> u64
    ensures { 16 ≤ result }
{
    match damage {
        Damage::Chained => 16,
        Damage::Names => 64,
    }
}

/// Stores the region with this damage.
pub(crate) fn store_damaged(memory: &mut MemRegion, blocks: u64, damage: Damage) -> Option<()>
    requires many { 16 ≤ blocks }
    requires blocks { HasBlocks memory.old.region blocks }
    ensures { HasBlocks memory.new.region blocks }
{
    match damage {
        Damage::Chained => store_chained(memory, blocks),
        Damage::Names => store_names(memory, blocks),
    }
}

/// Stores the same region with its journals rolled back.
pub(crate) fn store_rolled_back(memory: &mut MemRegion, blocks: u64, damage: Damage) -> Option<()>
    requires many { 16 ≤ blocks }
    requires blocks { HasBlocks memory.old.region blocks }
    ensures { HasBlocks memory.new.region blocks }
{
    match damage {
        Damage::Chained => store_undone(memory, blocks),
        Damage::Names => store_names(memory, blocks),
    }
}

fn store_undone(memory: &mut MemRegion, blocks: u64) -> Option<()>
    requires many { 16 ≤ blocks }
    requires blocks { HasBlocks memory.old.region blocks }
    ensures { HasBlocks memory.new.region blocks }
{
    store_chained(memory, blocks)?;
    store_all(memory, blocks, &ROLLED_BACK)
}

fn store_chained(memory: &mut MemRegion, blocks: u64) -> Option<()>
    requires many { 16 ≤ blocks }
    requires blocks { HasBlocks memory.old.region blocks }
    ensures { HasBlocks memory.new.region blocks }
{
    store_all(memory, blocks, &TABLES)?;
    store_all(memory, blocks, &JOURNALS)?;
    store_all(memory, blocks, &SLOTS)?;
    store_logs(memory, blocks)
}

fn store_logs(memory: &mut MemRegion, blocks: u64) -> Option<()>
    requires many { 16 ≤ blocks }
    requires blocks { HasBlocks memory.old.region blocks }
    ensures { HasBlocks memory.new.region blocks }
{
    store_all(memory, blocks, &DIRECTORIES)?;
    store_all(memory, blocks, &FILES)
}

fn store_names(memory: &mut MemRegion, blocks: u64) -> Option<()>
    requires many { 16 ≤ blocks }
    requires blocks { HasBlocks memory.old.region blocks }
    ensures { HasBlocks memory.new.region blocks }
{
    store_all(memory, blocks, &NAMES_SUPERBLOCK)?;
    store_all(memory, blocks, &NAMES_SLOTS)?;
    store_all(memory, blocks, &NAMES_LOGS)
}

fn store_all(memory: &mut MemRegion, blocks: u64, words: &[(u64, u64)]) -> Option<()>
    requires many { 16 ≤ blocks }
    requires blocks { HasBlocks memory.old.region blocks }
    ensures { HasBlocks memory.new.region blocks }
{
    for (at, word) in words {
        if at % 8 == 0 && *at < 65536 {
            memory.store(*at, *word).ok()?;
        }
    }
    Some(())
}
