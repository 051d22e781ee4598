//! Writing behind the tail of a log.
//!
//! An entry that doesn't fit in the rest of a page goes to the start of a fresh page, and where the rest isn't empty a
//! next-page entry is written there. The links are written last. They form a chain of pages that doesn't depend on
//! the entries.

ghost use Rattle.std.specs.Prelude.{◌≡◌, ◌≢◌, ◌⊎◌, ◌+◌, ◌*◌, ◌/◌, ◌%◌, ◌^◌, ◌<◌, ◌≤◌, List, ◌∷◌, ◌++◌, ℕ, length, take, IfOk, OnOk, OnErr, None, IsTrue, false, is_err};
ghost use Rattle.nv_region.specs.Region.{Region, size};
ghost use Rattle.nv_region.specs.Stored.{StoresOnly};
ghost use Rattle.nv_region.specs.Storing.{AtAnyMoment, StoresEach, StoresUnfenced};
ghost use Rattle.nv_super.specs.Layout.{is_data_address, is_page_start};
ghost use Rattle.nv_super.specs.declared.superblock.Super.{Super};
ghost use Rattle.nv_inode.specs.Slot.{is_right_log};
ghost use Rattle.nv_entry.specs.Spelling.{Stands, entry_length};
ghost use Rattle.nv_logpage.specs.declared.found.Placed.{Placed};
ghost use Rattle.nv_logpage.specs.Reads.{Reads};
ghost use Rattle.nv_logpage.specs.Append.{AllDiffer, AppendWords, CanAppend, CanBePages, EndBy, EntryWords, FreshFor, Laid, Linked, appended, end_of, needed};
ghost use Rattle.nv_logpage.specs.Places.{IsInPage};
ghost use Rattle.nv_logpage.specs.Writing.{FitPages, FromOrIn, LinkWords, PageFrom, Settled};

use nv_entry::{Entry, length, write_entry};
use nv_inode::LINK;
use nv_region::{Pmem, Stopped, store_word};
use nv_super::BLOCK_SIZE;

/// How many fresh pages the entries take behind this tail, a byte address.
pub fn pages_needed(tail: u64, entries: &[Entry]) -> u64
    ensures { result ≡ needed (tail % 4096) entries.now }
{
    // The number of entries is a u64, and no more pages are needed.
    let _count = entries.len();
    let mut pages = 0;
    let mut offset = tail % BLOCK_SIZE;
    for entry in entries {
        let size = length(entry);
        if offset + size <= LINK {
            offset += size;
        } else {
            pages += 1;
            offset = size;
        }
    }
    pages
}

/// Writes the entries behind the tail of a log, over these fresh pages, links those that it takes, and answers the new
/// tail. It doesn't fence, and it leaves the tail to its caller: before that is stored, the log is as it was.
///
/// The tail, a byte address as the answer is, is that of the log, or the start of a new log's page. As many fresh
/// pages, by their block numbers, are given as `pages_needed` says, or more: data blocks, all different and none of
/// them a page of the log. No given entry is a next-page entry.
///
/// Errors: `Stopped` exactly where there is something to append and the fuse has burnt by the end of the call; the log
/// is read up to the old tail as before then. Where there is nothing to append, the memory stays as it was, and the
/// answer is the tail.
pub fn append<P: Pmem>(
    memory: &mut P,
    tail: u64,
    entries: &[Entry],
    fresh: &[u64],
) -> Result<u64, Stopped>
    requires { CanAppend (P.region memory.old) tail entries.now fresh.now }
    ensures end { IfOk result (λ new. new ≡ end_of fresh.now 0 tail entries.now) }
    ensures laid { OnOk result (Laid (P.region memory.new) fresh.now 0 tail entries.now) }
    ensures linked { OnOk result (Linked (P.region memory.new) (tail / 4096 ∷ fresh.now) (needed (tail % 4096) entries.now)) }

    // Up to the new tail the old entries are read, and then the given ones.
    ensures reads { (s : Super) (head : ℕ) (es : List Placed) (all : List ℕ) → IsTrue (is_page_start s head) → FreshFor s fresh.now all → Reads (P.region memory.old) s head tail es all None
        → IfOk result (λ new. Reads (P.region memory.new) s head new (es ++ appended fresh.now 0 tail entries.now) (all ++ take (needed (tail % 4096) entries.now) fresh.now) None) }

    // Up to the old tail the log is read as it was, also where a stop refuses a store half-way, and in each region that a stop
    // leaves.
    ensures moments { (s : Super) (head : ℕ) (es : List Placed) (all : List ℕ) → IsTrue (is_page_start s head) → FreshFor s fresh.now all → Reads (P.region memory.old) s head tail es all None
        → AtAnyMoment P.region P.may_hold memory.old memory.new (λ left. Reads left s head tail es all None) }

    // The new tail is right for an inode whose log began in a data block.
    ensures right { (s : Super) (head : ℕ) → IsTrue (is_page_start s head) → IsTrue (is_data_address s tail) → CanBePages s fresh.now → (8 ≤ tail % 4096) ⊎ (0 < length entries.now)
        → IfOk result (λ new. IsTrue (is_right_log s head new)) }
    ensures kept { StoresEach P.region P.may_hold P.fuse (AppendWords tail fresh.now) (λ limit. EndBy (tail / 4096 ∷ fresh.now) limit) (length entries.now) memory.old memory.new result }

    // No link is written before all entries are.
    ensures order { StoresOnly (EntryWords tail fresh.now) (P.region memory.old) (P.region memory.new) (P.may_hold memory.old) (P.may_hold memory.new)
        ⊎ Laid (P.region memory.new) fresh.now 0 tail entries.now }
{
    // The region's length is a u64, and so is each address up to it.
    let _end = memory.len();
    let (end, used) = write_entries(memory, tail, entries, fresh)?;
    link_pages(memory, tail / BLOCK_SIZE, fresh, used)?;
    Ok(end)
}

/// Writes the entries, and the next-page entries between them. Answers the place behind the last, and how many fresh
/// pages are used.
fn write_entries<P: Pmem>(
    memory: &mut P,
    tail: u64,
    entries: &[Entry],
    fresh: &[u64],
) -> Result<(u64, usize), Stopped>
    requires can { CanAppend (P.region memory.old) tail entries.now fresh.now }
    requires small { size (P.region memory.old) < 2 ^ 64 }
    ensures end { IfOk result (λ r. (r.0 ≡ end_of fresh.now 0 tail entries.now) × (r.1 ≡ needed (tail % 4096) entries.now)) }
    ensures fit { OnOk result (FitPages entries.now) }
    ensures laid { IfOk result (λ r. (S : Region) → Settled (P.region memory.new) S (tail / 4096 ∷ fresh.now) r.1 r.0 → Laid S fresh.now 0 tail entries.now) }
    ensures kept { StoresEach P.region P.may_hold P.fuse (EntryWords tail fresh.now) (λ limit. EndBy (tail / 4096 ∷ fresh.now) limit) (length entries.now) memory.old memory.new result }
{
    let mut place = tail;
    let mut used = 0;
    for entry in entries {
        let size = length(entry);
        if place % BLOCK_SIZE + size <= LINK {
            write_entry(memory, place, entry)?;
            place += size;
        } else {
            let next = fresh[used];
            write_turned(memory, place, entry, next)?;
            used += 1;
            place = next * BLOCK_SIZE + size;
        }
    }
    Ok((place, used))
}

/// Writes an entry to the start of the page that comes next, and a next-page entry where it would have stood.
fn write_turned<P: Pmem>(
    memory: &mut P,
    place: u64,
    entry: &Entry,
    next: u64,
) -> Result<(), Stopped>
    requires place { IsInPage (P.region memory.old) place }
    requires next_inside { 4096 * next + 4096 ≤ size (P.region memory.old) }
    requires small { size (P.region memory.old) < 2 ^ 64 }
    requires short { entry_length entry.now ≤ 4064 }
    requires apart { next ≢ place / 4096 }
    ensures entry { OnOk result (Stands (P.region memory.new) (4096 * next) entry.now) }
    ensures marker { OnOk result (place % 4096 < 4064 → Stands (P.region memory.new) place Entry.NextPage) }
    ensures kept { StoresUnfenced P.region P.may_hold P.fuse (FromOrIn place next)
        (λ limit. (place / 4096 * 4096 + 4096 ≤ limit) × (4096 * next + 4096 ≤ limit)) memory.old memory.new }
    ensures stopped { is_err result ≡ (P.fuse memory.new).has_burnt }
{
    write_marker(memory, place)?;
    write_entry(memory, next * BLOCK_SIZE, entry)
}

/// Writes a next-page entry, where the page has room for it.
fn write_marker<P: Pmem>(memory: &mut P, place: u64) -> Result<(), Stopped>
    requires place { IsInPage (P.region memory.old) place }
    ensures marker { OnOk result (place % 4096 < 4064 → Stands (P.region memory.new) place Entry.NextPage) }
    ensures kept { StoresUnfenced P.region P.may_hold P.fuse (PageFrom place) (λ limit. place / 4096 * 4096 + 4096 ≤ limit) memory.old memory.new }
    ensures stopped { OnErr result (IsTrue (P.fuse memory.new).has_burnt) }
{
    if place % BLOCK_SIZE < LINK {
        write_entry(memory, place, &Entry::NextPage)
    } else {
        Ok(())
    }
}

/// Links each of these pages to the next: the first, and as many fresh ones as are counted.
fn link_pages<P: Pmem>(
    memory: &mut P,
    first: u64,
    fresh: &[u64],
    count: usize,
) -> Result<(), Stopped>
    requires count { count ≤ length fresh.now }
    requires differ { AllDiffer (first ∷ fresh.now) }
    requires inside { EndBy (first ∷ fresh.now) (size (P.region memory.old)) }
    requires small { size (P.region memory.old) < 2 ^ 64 }
    ensures linked { OnOk result (Linked (P.region memory.new) (first ∷ fresh.now) count) }
    ensures kept { StoresUnfenced P.region P.may_hold P.fuse (LinkWords (first ∷ fresh.now) count) (λ limit. EndBy (first ∷ fresh.now) limit) memory.old memory.new }
    ensures nothing { count ≡ 0 → (is_err result ≡ false) × (memory.new ≡ memory.old) }
    ensures stopped { (P.fuse memory.old).has_burnt ≡ false → is_err result ≡ (P.fuse memory.new).has_burnt }
{
    let mut page = first;
    for k in 0..count {
        let next = fresh[k];
        store_word(memory, page * BLOCK_SIZE + LINK, next * BLOCK_SIZE)?;
        page = next;
    }
    Ok(())
}
