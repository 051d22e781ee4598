//! Format: a region of any content becomes one that holds the root directory alone.
//!
//! The magic is taken away first and stored last, each behind a fence of its own. So a stop leaves the old region, one
//! that is no file system, or the new one, and never a mixture that is taken for a file system.

ghost use Rattle.std.specs.Prelude.{◌≡◌, ◌≢◌, ◌⊎◌, ◌≤◌, ◌<◌, ◌+◌, ◌*◌, ◌%◌, IsTrue, IfOk, IfErr, IsOk, IsErrOf, OnOk, OnErr};
ghost use Rattle.nv_region.specs.Region.{HasBlocks, size, put};
ghost use Rattle.nv_region.specs.Stops.{NothingPending, LeavesOnly};
ghost use Rattle.nv_region.specs.Fuses.{KeepsFuse};
ghost use Rattle.nv_region.specs.Stored.{StoresOnly, Within};
ghost use Rattle.nv_super.specs.Layout.{IsLayout};
ghost use Rattle.nv_format.specs.Format.{IsFormatRefusal, CanFormat, IsFormatted, IsLaidOut, HasRoot, AnyAt, IsSystemWord, IsRootWord, fresh_super, root_page, refusal_name, FormatIsDetermined};
ghost use Rattle.nv_format.specs.Format.{FormatLeaves};
ghost use Rattle.nv_format.specs.Sentences.{refusal_sentence};

use crate::clearing::clear_system;
use nv_inode::{Slot, set_word, store_slot};
use nv_region::{Pmem, Stopped, commit_word};
use nv_super::{
    BLOCK_SIZE, Kind, LEAST_BLOCKS, MAGIC, MOST_BLOCKS, MOST_CPUS, MOST_TABLE_BLOCKS, Super,
};
use std::error::Error;
use std::fmt;

const ROOT: u64 = 1;

const ENTRY_LENGTH: u64 = 32;

// Type 2, operation 0, the length in bytes 2 and 3, the mode (755 in octal) from byte 4 on.
const ROOT_ATTRIBUTES: u64 = 2 + 65_536 * ENTRY_LENGTH + 4_294_967_296 * 493;

/// Why a region was not formatted, in the order in which it is tested.
#[derive(Clone, Copy, Debug, PartialEq, Eq)]
pub enum FormatRefusal {
    /// The length isn't a multiple of 4096 bytes, or isn't of 8 to 262,144 blocks.
    Length,
    /// There aren't 1 to 64 CPUs.
    Cpus,
    /// There aren't 1 to 64 table blocks for each CPU, or no data block is left behind the tables.
    Tables,
    /// The fuse has burnt.
    Stopped,
}

impl From<Stopped> for FormatRefusal {
    ghost use Rattle.nv_format.specs.declared.formatting.FormatRefusal.TheVariants.{Stopped as Halted};

    ghost from_gives = { λ _ e. e ≡ Halted };

    fn from(_: Stopped) -> Self {
        FormatRefusal::Stopped
    }
}

impl FormatRefusal {
    /// The name that scripts print.
    pub fn name(self) -> &'static str
        ensures { result.now ≡ refusal_name self }
    {
        match self {
            FormatRefusal::Length => "Length",
            FormatRefusal::Cpus => "Cpus",
            FormatRefusal::Tables => "Tables",
            FormatRefusal::Stopped => "Stopped",
        }
    }

    /// What is shown of it to people.
    fn sentence(self) -> &'static str
        ensures { result.now ≡ refusal_sentence self }
    {
        match self {
            FormatRefusal::Length => "the length isn't that of 8 to 262,144 blocks of 4096 bytes",
            FormatRefusal::Cpus => "there aren't 1 to 64 CPUs",
            FormatRefusal::Tables => {
                "there aren't 1 to 64 table blocks for each CPU, or no data block is left behind them"
            }
            FormatRefusal::Stopped => "the memory has been stopped",
        }
    }
}

/// Shows a sentence. The word of scripts is its `name`.
impl fmt::Display for FormatRefusal {
    ghost use Rattle.std.specs.Prelude.{Some};

    ghost output = { λ refusal. Some (refusal_sentence refusal) };

    fn fmt<W: fmt::Write>(&self, f: &mut fmt::Formatter<W>) -> fmt::Result {
        f.write_str(self.sentence())
    }
}

impl Error for FormatRefusal {}

/// Makes the region a file system of version 1 that holds the root directory alone, made at `time`: for each CPU an
/// empty journal and `table_blocks` blocks of slots.
///
/// Where all stores before the call were fenced, a stop at any moment of it leaves the region as it was, one that is
/// refused for its magic, or the new one. Where it is done, all its words are fenced. It takes no memory, and stores
/// one word for each slot, two for each CPU, and 16 more, whatever the length of the region.
///
/// Errors, the first that applies: `Length`, `Cpus`, `Tables`, which change nothing; `Stopped` where the fuse has
/// burnt. `Stopped` doesn't come from a steady memory.
pub fn format<P: Pmem>(
    memory: &mut P,
    cpus: u64,
    table_blocks: u64,
    time: u64,
) -> Result<(), FormatRefusal>
    ensures done { OnOk result (IsFormatted (P.region memory.old) (P.region memory.new) (fresh_super (P.region memory.old) cpus table_blocks) time) }
    ensures settled { OnOk result (NothingPending (P.region memory.new) (P.may_hold memory.new)) }
    ensures refused { IfErr result (λ refusal. IsFormatRefusal (P.region memory.old) cpus table_blocks refusal) }
    ensures unchanged { IfErr result (λ refusal. refusal ≢ FormatRefusal.Stopped → memory.new ≡ memory.old) }
    ensures stopped { IsErrOf result FormatRefusal.Stopped → IsTrue (P.fuse memory.new).has_burnt }
    ensures keeps_fuse { KeepsFuse (λ limit. root_page (fresh_super (P.region memory.old) cpus table_blocks) + 32 ≤ limit) (P.fuse memory.old) (P.fuse memory.new) }
    ensures steady_ok { IsTrue (P.fuse memory.old).is_steady → CanFormat (P.region memory.old) cpus table_blocks → IsOk result }
    ensures size { size (P.region memory.new) ≡ size (P.region memory.old) }
    ensures any_stop { NothingPending (P.region memory.old) (P.may_hold memory.old) → LeavesOnly (P.region memory.new) (P.may_hold memory.new)
        (FormatLeaves (P.region memory.old) (fresh_super (P.region memory.old) cpus table_blocks) time) }
{
    let sup = numbers(memory, cpus, table_blocks)?;
    write_region(memory, &sup, time)?;
    Ok(())
}

/// What a format that is done leaves is one region, by the region before, the superblock and the time: no word of it is
/// left open.
pub fn format_is_determined()
    ensures { FormatIsDetermined }
{}

/// The superblock that a region of this length gets, or what prevents it.
fn numbers<P: Pmem>(memory: &P, cpus: u64, table_blocks: u64) -> Result<Super, FormatRefusal>
    ensures fresh { IfOk result (λ s. s ≡ fresh_super (P.region memory.now) cpus table_blocks) }
    ensures layout { IfOk result (λ s. IsLayout s × HasBlocks (P.region memory.now) s.blocks) }
    ensures right { OnOk result (CanFormat (P.region memory.now) cpus table_blocks) }
    ensures refused { IfErr result (λ refusal. IsFormatRefusal (P.region memory.now) cpus table_blocks refusal) }
    ensures never_stopped { IfErr result (λ refusal. refusal ≢ FormatRefusal.Stopped) }
{
    let length = memory.len();
    let blocks = length / BLOCK_SIZE;
    if length % BLOCK_SIZE != 0 || blocks < LEAST_BLOCKS || blocks > MOST_BLOCKS {
        return Err(FormatRefusal::Length);
    }
    if cpus < 1 || cpus > MOST_CPUS {
        return Err(FormatRefusal::Cpus);
    }
    if table_blocks < 1 || table_blocks > MOST_TABLE_BLOCKS {
        return Err(FormatRefusal::Tables);
    }
    if 1 + cpus + cpus * table_blocks >= blocks {
        return Err(FormatRefusal::Tables);
    }
    Ok(Super {
        version: 1,
        cpus,
        blocks,
        table_blocks,
        state: 0,
    })
}

/// Takes the magic away, lays all other words out, and stores the magic, with a fence behind each.
fn write_region<P: Pmem>(memory: &mut P, sup: &Super, time: u64) -> Result<(), Stopped>
    requires layout { IsLayout sup.now }
    requires version { sup.now.version ≡ 1 }
    requires blocks { HasBlocks (P.region memory.old) sup.now.blocks }
    ensures done { OnOk result (IsFormatted (P.region memory.old) (P.region memory.new) sup.now time) }
    ensures settled { OnOk result (NothingPending (P.region memory.new) (P.may_hold memory.new)) }
    ensures stopped { OnErr result (IsTrue (P.fuse memory.new).has_burnt) }
    ensures keeps_fuse { KeepsFuse (λ limit. root_page sup.now + 32 ≤ limit) (P.fuse memory.old) (P.fuse memory.new) }
    ensures blocks { HasBlocks (P.region memory.new) sup.now.blocks }
    ensures any_stop { NothingPending (P.region memory.old) (P.may_hold memory.old) → LeavesOnly (P.region memory.new) (P.may_hold memory.new) (FormatLeaves (P.region memory.old) sup.now time) }
{
    // The magic is gone before another word changes, or a stop could leave old and new words under it.
    commit_word(memory, 0, 0)?;
    lay_out(memory, sup, time)?;
    // All words are kept before the magic is, or a stop could leave it over some that were lost.
    memory.fence()?;
    commit_word(memory, 0, MAGIC)
}

/// Stores all words of a region with the root alone, but the magic. Nothing is fenced.
fn lay_out<P: Pmem>(memory: &mut P, sup: &Super, time: u64) -> Result<(), Stopped>
    requires layout { IsLayout sup.now }
    requires blocks { HasBlocks (P.region memory.old) sup.now.blocks }
    ensures done { OnOk result (IsLaidOut (P.region memory.new) sup.now time) }
    ensures blocks { HasBlocks (P.region memory.new) sup.now.blocks }
    ensures wrote { StoresOnly (AnyAt (λ a. IsSystemWord sup.now a ⊎ IsRootWord sup.now a)) (P.region memory.old) (P.region memory.new) (P.may_hold memory.old) (P.may_hold memory.new) }
    ensures stopped { OnErr result (IsTrue (P.fuse memory.new).has_burnt) }
    ensures keeps_fuse { KeepsFuse (λ limit. root_page sup.now + 32 ≤ limit) (P.fuse memory.old) (P.fuse memory.new) }
{
    clear_system(memory, sup)?;
    write_root(memory, sup, time)
}

/// Stores the root's only entry and its slot.
fn write_root<P: Pmem>(memory: &mut P, sup: &Super, time: u64) -> Result<(), Stopped>
    requires layout { IsLayout sup.now }
    requires blocks { HasBlocks (P.region memory.old) sup.now.blocks }
    ensures done { OnOk result (HasRoot (P.region memory.new) sup.now time) }
    ensures blocks { HasBlocks (P.region memory.new) sup.now.blocks }
    ensures wrote { StoresOnly (AnyAt (IsRootWord sup.now)) (P.region memory.old) (P.region memory.new) (P.may_hold memory.old) (P.may_hold memory.new) }
    ensures stopped { OnErr result (IsTrue (P.fuse memory.new).has_burnt) }
    ensures keeps_fuse { KeepsFuse (λ limit. root_page sup.now + 32 ≤ limit) (P.fuse memory.old) (P.fuse memory.new) }
{
    let page = BLOCK_SIZE * sup.system_blocks();
    let slot = Slot {
        valid: 1,
        kind: Kind::Directory.number(),
        head: page,
        tail: page + ENTRY_LENGTH,
        created: time,
    };
    write_root_entry(memory, page, time)?;
    let at = sup.slot_address(ROOT);
    set_word(memory, at, slot.valid)?;
    store_slot(memory, at, &slot)
}

/// Stores the attributes entry of an empty directory: mode 493, size 0, the time, owner 0 and group 0.
fn write_root_entry<P: Pmem>(memory: &mut P, at: u64, time: u64) -> Result<(), Stopped>
    requires aligned { at % 8 ≡ 0 }
    requires within { at + 32 ≤ size (P.region memory.old) }
    ensures done { OnOk result (P.region memory.new ≡ put (put (put (put (P.region memory.old) at ROOT_ATTRIBUTES) (at + 8) 0) (at + 16) time) (at + 24) 0) }
    ensures wrote { StoresOnly (Within at 32) (P.region memory.old) (P.region memory.new) (P.may_hold memory.old) (P.may_hold memory.new) }
    ensures stopped { OnErr result (IsTrue (P.fuse memory.new).has_burnt) }
    ensures keeps_fuse { KeepsFuse (λ limit. at + 32 ≤ limit) (P.fuse memory.old) (P.fuse memory.new) }
{
    memory.store_words(at, &[ROOT_ATTRIBUTES, 0, time, 0])
}
