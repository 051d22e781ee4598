//! The numbers of a new region that suit its blocks, where a user leaves them out.

ghost use Rattle.std.specs.Prelude.{◌≡◌, ◌≤◌, IsNone, unwrap_or};
ghost use Rattle.nv_script.specs.Suiting.{Fits, suiting_cpus, suiting_tables};

const MOST_CPUS: u64 = 16;

const BLOCKS_OF_A_CPU: u64 = 4096;

const MOST_TABLES: u64 = 64;
// A table block has 32 slots, and there is one for each 8 blocks.
const BLOCKS_OF_A_TABLE: u64 = 256;

/// How many CPUs a region has, and how many table blocks each.
#[derive(Clone, Copy)]
pub struct Areas {
    pub cpus: u64,
    pub tables: u64,
}

/// The numbers of a new region of `blocks` blocks. Those that are given are taken as they are. Else there is one CPU for each
/// 16 MiB, from 1 to 16, and each has table blocks for one slot for each 8 blocks of the region, from 1 to 64.
pub fn suiting_areas(blocks: u64, cpus: Option<u64>, tables: Option<u64>) -> Areas
    ensures cpus { result.cpus ≡ unwrap_or cpus (suiting_cpus blocks) }
    ensures tables { result.tables ≡ unwrap_or tables (suiting_tables blocks result.cpus) }
    // Where both are left out, each region that is long enough can be formatted.
    ensures fits { IsNone cpus → IsNone tables → 8 ≤ blocks → Fits blocks result.cpus result.tables }
{
    let cpus = cpus.unwrap_or(cpus_for(blocks));
    let tables = tables.unwrap_or(tables_for(blocks, cpus));
    Areas { cpus, tables }
}

fn cpus_for(blocks: u64) -> u64
    ensures { result ≡ suiting_cpus blocks }
{
    (blocks / BLOCKS_OF_A_CPU).clamp(1, MOST_CPUS)
}

// The table blocks of each of so many CPUs.
fn tables_for(blocks: u64, cpus: u64) -> u64
    ensures { result ≡ suiting_tables blocks cpus }
{
    (blocks / BLOCKS_OF_A_TABLE / cpus.max(1)).clamp(1, MOST_TABLES)
}
