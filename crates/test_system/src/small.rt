//! A small region and its claim maps. The slot of inode `i` begins at `8192 + 128 * i`, and the data blocks are 3 to 15.

ghost use Rattle.std.specs.Prelude.{◌≡◌, IfOk};
ghost use Rattle.nv_region.specs.Region.{HasBlocks};
ghost use Rattle.nv_super.specs.Layout.{IsLayout, fixed_layout};
ghost use Rattle.nv_claimcore.specs.Claims.{nothing};

use nv_claimcore::Sizes;
use nv_claimmap::{ClaimMap, ClaimSeat};
use nv_inode::{Tables, read_tables};
use nv_region::{MemRegion, Pmem, RegionRefusal};
use nv_super::Super;
use std::alloc::{AllocError, Global};

/// One CPU, 16 blocks, one table block.
pub const SMALL: Super = Super {
    version: 1,
    cpus: 1,
    blocks: 16,
    table_blocks: 1,
    state: 0,
};

/// The same with two table blocks. The slot of inode `i` begins there too, and the data blocks are 4 to 15.
pub const TWO_TABLES: Super = Super {
    version: 1,
    cpus: 1,
    blocks: 16,
    table_blocks: 2,
    state: 0,
};

/// A word at its address.
pub type Word = (u64, u64);

/// The first word of the attributes entry of a directory of mode 755, whose other words are zeros.
pub const DIRECTORY_MODE: u64 = 493 * 4294967296 + 32 * 65536 + 2;

/// Sixteen blocks of zeros but for these words.
pub fn small_region(alloc: Global, words: &[Word]) -> Result<MemRegion, RegionRefusal>
    ensures { IfOk result (λ m. HasBlocks m.region 16) }
{
    let mut memory = MemRegion::new(alloc, 16)?;
    for (at, word) in words {
        if *at % 8 == 0 && *at < 65536 {
            let _unstopped = memory.store(*at, *word);
        }
    }
    Ok(memory)
}

/// The tables of a region in version 1.
pub fn tables_of(alloc: Global, memory: &MemRegion, sup: &Super) -> Result<Tables, AllocError>
    requires layout { IsLayout sup.now }
    requires version { sup.now.version ≡ 1 }
    requires blocks { HasBlocks memory.now.region sup.now.blocks }
    ensures { IfOk result (λ t. t.layout ≡ fixed_layout sup.now) }
{
    let tables = read_tables(alloc, memory, sup)?;
    Ok(tables)
}

/// The tables of the small region.
pub fn small_tables(alloc: Global) -> Result<Tables, RegionRefusal>
    ensures { IfOk result (λ t. t.layout ≡ fixed_layout SMALL) }
{
    let memory = small_region(alloc, &[])?;
    Ok(tables_of(alloc, &memory, &SMALL)?)
}

/// A claim map of the small region for one worker, with its seat.
pub fn opened_for_one(alloc: Global) -> Result<(ClaimMap, ClaimSeat), AllocError>
    ensures { IfOk result (λ r. (r.1.map ≡ r.0) × (r.1.view ≡ nothing 1) × (r.0.sizes ≡ record { blocks = 16; tickets = 1; workers = 1 })) }
{
    let sizes = Sizes {
        blocks: 16,
        tickets: 1,
        workers: 1,
    };
    let (map, mut seats) = ClaimMap::open(alloc, sizes)?;
    let Some(seat) = seats.pop() else {
        unreachable!()
    };
    Ok((map, seat))
}

/// A claim map of the region of two table blocks for two workers, with the seat of the second.
pub fn opened_for_two(alloc: Global) -> Result<(ClaimMap, ClaimSeat), AllocError>
    ensures { IfOk result (λ r. (r.1.map ≡ r.0) × (r.1.view ≡ nothing 1) × (r.0.sizes ≡ record { blocks = 16; tickets = 2; workers = 2 })) }
{
    let sizes = Sizes {
        blocks: 16,
        tickets: 2,
        workers: 2,
    };
    let (map, mut seats) = ClaimMap::open(alloc, sizes)?;
    let Some(seat) = seats.pop() else {
        unreachable!()
    };
    Ok((map, seat))
}
