//! A region in ordinary memory, which a fuse can stop.
//!
//! It holds its words as they read, and what was stored since the last fence: the stores themselves while they are few, and
//! else each line of 64 bytes that was stored to, with its words at that fence. A fence forgets these, so it costs what was
//! stored and never the size of the region.

ghost use Rattle.std.specs.Prelude.{◌≡◌, IsTrue, ◌⊎◌, ◌≤◌, ◌<◌, ◌+◌, ◌-◌, ◌*◌, ◌/◌, ◌%◌, ◌||◌, ◌↔◌, ◌^◌, ◌==◌, ℕ};
ghost use Rattle.std.specs.Prelude.{true, false, IfOk, OnOk, OnErr, IsErrOf, is_err, length, take, drop, replicate, [], refl};
ghost use Rattle.std.proofs.Common.{inl};
ghost use Rattle.byteorder.specs.Endian.{little_number, little_bytes};
ghost use Rattle.nv_region.specs.Region.{size, word, put, region_of, bytes_of};
ghost use Rattle.nv_region.specs.Stops.{MayBeLeft, NothingPending, NoneAdded, Adds, One};
ghost use Rattle.nv_region.specs.Lines.{Each, StoppedAmong, put_words};
ghost use Rattle.nv_region.specs.Fuses.{KeepsFuse};
ghost use Rattle.nv_region.specs.RegionState.{RegionState, fenced_or_last, burns_at_fence, one_passed, after_stores, fuse_state, is_steady, steady_unburnt};
ghost use Rattle.nv_region.specs.OneStore.{PassesFuse};
ghost use Rattle.nv_region.specs.Kept.{kept};
ghost use Rattle.nv_region.specs.StoredLines.{words_before};
ghost use Rattle.nv_region.specs.declared.memory.TheConstants.{MOST_BLOCKS};

use crate::keeping::keep_words;
use crate::recent::{RecentStores, hold, note_recent};
use crate::stored::{StoredLines, WORDS_IN_LINE, lines_of};
use crate::{Pmem, Stopped};
use byteorder::{ByteOrder, LittleEndian};
use std::alloc::{AllocError, Global};
use std::marker::Model;
use thiserror::Error;

const WORDS_IN_BLOCK: usize = 512;

/// The most blocks of 4096 bytes that a region can have: 1 GiB.
pub const MOST_BLOCKS: u64 = 262_144;

/// The most bytes that a region can have, whole blocks or not.
pub const MOST_BYTES: usize = 1 << 30;

/// When the memory stops. A fuse that has burnt refuses each later store and fence.
#[derive(Clone, Copy, Debug, PartialEq, Eq)]
pub enum Fuse {
    /// Never.
    Off,
    /// So many more stores and fences pass; it burns at the next one.
    After(u64),
    /// At the first store to this byte address, which isn't done.
    At(u64),
}

/// Which of the words that were stored since the last fence a stop keeps.
#[derive(Clone, Copy, Debug, PartialEq, Eq)]
pub enum Keep {
    /// None: each word is as at the last fence.
    None,
    /// All: each word is as last stored.
    All,
    /// Of the words that differ from those at the last fence, in rising address, the first, third and so on are as last
    /// stored, and the others as at the fence.
    Alternate,
}

/// Why no region was made.
#[derive(Clone, Copy, Debug, PartialEq, Eq, Error)]
pub enum RegionRefusal {
    /// No block, more than 262,144 blocks, or more than 1,073,741,824 bytes.
    #[error("a region has 1 to 262,144 blocks, or up to 1,073,741,824 bytes")]
    Length,
    /// A growth was refused.
    #[error("out of memory")]
    Memory,
}

impl From<AllocError> for RegionRefusal {
    ghost use Rattle.nv_region.specs.declared.memory.RegionRefusal.TheVariants.{Memory};

    ghost from_gives = { λ _ e. e ≡ Memory };

    fn from(_: AllocError) -> Self {
        RegionRefusal::Memory
    }
}

/// A region in ordinary memory. Contracts see its words, those at the last fence, and its fuse.
#[derive(Drop)]
pub struct MemRegion {
    alloc: Global,
    words: Vec<u64>,
    stored: StoredLines,
    recent: RecentStores,
    rest: Vec<u8>,
    fuse: Fuse,
    burnt: bool,
}

impl Model for MemRegion {
    ghost use Rattle.nv_region.specs.RegionState.{RegionState};
    ghost use Rattle.nv_region.specs.StoredLines.{words_before};
    ghost use Rattle.nv_region.specs.Recent.{taken_back};

    ghost Value = { RegionState };

    ghost view = { λ m. record {
      region = record { words = m.words.items; rest = m.rest.items };
      fenced = words_before m.stored.rows m.stored.kept (taken_back m.recent m.words.items);
      fuse = m.fuse;
      burnt = m.burnt;
    } };

    ghost use Rattle.nv_region.specs.Fenced.{IsTracked};

    ghost invariant = { IsTracked };
}

impl MemRegion {
    /// A region of `blocks` blocks of 4096 zero bytes, with nothing pending and no fuse.
    ///
    /// Errors: `Length` where there is no block or more than 262,144; `Memory` where a growth was refused.
    pub fn new(alloc: Global, blocks: u64) -> Result<MemRegion, RegionRefusal>
        ensures zeros { IfOk result (λ m. m.region ≡ record { words = replicate (512 * blocks) 0; rest = [] }) }
        ensures settled { IfOk result (λ m. NothingPending m.region (fenced_or_last m)) }
        ensures fuse { IfOk result (λ m. (m.fuse ≡ Fuse.Off) × (m.burnt ≡ false)) }
        ensures length { IsErrOf result RegionRefusal.Length ↔ (blocks ≡ 0) ⊎ (MOST_BLOCKS < blocks) }
    {
        if blocks == 0 || blocks > MOST_BLOCKS {
            return Err(RegionRefusal::Length);
        }
        let count = blocks as usize * WORDS_IN_BLOCK;
        Ok(MemRegion {
            alloc,
            words: vec![in alloc; 0; count]?,
            stored: StoredLines::new(alloc, count)?,
            recent: RecentStores::new(),
            rest: Vec::new(alloc),
            fuse: Fuse::Off,
            burnt: false,
        })
    }

    /// A region of these bytes, with nothing pending and no fuse. Any length up to 1,073,741,824 bytes is taken, so
    /// that a region that was cut can be shown too.
    ///
    /// Errors: `Length` for more bytes; `Memory` where a growth was refused.
    pub fn from_bytes(alloc: Global, bytes: &[u8]) -> Result<MemRegion, RegionRefusal>
        ensures region { IfOk result (λ m. m.region ≡ region_of bytes.now) }
        ensures size { IfOk result (λ m. size m.region ≡ length bytes.now) }
        ensures words { IfOk result (λ m. (at : ℕ) → at % 8 ≡ 0 → at + 8 ≤ length bytes.now → word m.region at ≡ little_number 8 (drop at bytes.now)) }
        ensures bytes { IfOk result (λ m. bytes_of m.region ≡ bytes.now) }
        ensures settled { IfOk result (λ m. NothingPending m.region (fenced_or_last m)) }
        ensures fuse { IfOk result (λ m. (m.fuse ≡ Fuse.Off) × (m.burnt ≡ false)) }
        ensures length { IsErrOf result RegionRefusal.Length ↔ (2 ^ 30 < length bytes.now) }
    {
        if bytes.len() > MOST_BYTES {
            return Err(RegionRefusal::Length);
        }
        let (words, rest) = read_words(alloc, bytes)?;
        Ok(MemRegion::of_words(alloc, words, rest)?)
    }

    // The region of these words, and of the bytes behind them.
    pub(crate) fn of_words(
        alloc: Global,
        words: Vec<u64>,
        rest: Vec<u8>,
    ) -> Result<MemRegion, AllocError>
        requires short { length rest.items < 8 }
        requires small { length words.items ≤ 2 ^ 27 }
        ensures region { IfOk result (λ m. m.region ≡ record { words = words.items; rest = rest.items }) }
        ensures settled { IfOk result (λ m. NothingPending m.region (fenced_or_last m)) }
        ensures fuse { IfOk result (λ m. (m.fuse ≡ Fuse.Off) × (m.burnt ≡ false)) }
    {
        let stored = StoredLines::new(alloc, words.len())?;
        Ok(MemRegion {
            alloc,
            words,
            stored,
            recent: RecentStores::new(),
            rest,
            fuse: Fuse::Off,
            burnt: false,
        })
    }

    // What gives it memory, its words, and the bytes behind them.
    pub(crate) fn parts(&self) -> (Global, &[u64], &[u8])
        ensures words { result.1.now ≡ self.now.region.words }
        ensures rest { result.2.now ≡ self.now.region.rest }
        ensures short { length result.2.now < 8 }
    {
        (self.alloc, &self.words, &self.rest)
    }

    /// The bytes of the region as it reads. Errors: `AllocError` where a growth was refused.
    pub fn to_bytes(&self) -> Result<Vec<u8>, AllocError>
        ensures { IfOk result (λ bytes. bytes.items ≡ bytes_of self.now.region) }
    {
        let mut bytes = Vec::with_capacity(self.alloc, self.len() as usize)?;
        for word in &self.words {
            let mut eight = [0; 8];
            LittleEndian::write_u64(&mut eight, *word);
            bytes.extend_from_slice(&eight)?;
        }
        bytes.extend_from_slice(&self.rest)?;
        Ok(bytes)
    }

    /// Puts another fuse in, also where the last one has burnt. No byte changes.
    pub fn set_fuse(&mut self, fuse: Fuse)
        ensures { self.new ≡ record self.old { fuse = fuse; burnt = false } }
    {
        self.fuse = fuse;
        self.burnt = false;
    }

    /// The region of its first `length` bytes, which it has, in the memory that it has. Nothing is pending in it, and
    /// it has no fuse.
    ///
    /// It costs what was stored since the last fence, and takes memory only for the bytes behind the last whole word.
    /// Errors: `AllocError` where that is refused; the region is gone then.
    pub fn cut(self, length: u64) -> Result<MemRegion, AllocError>
        requires { length ≤ size self.region }
        ensures region { IfOk result (λ m. m.region ≡ region_of (take length (bytes_of self.region))) }
        ensures settled { IfOk result (λ m. NothingPending m.region (fenced_or_last m)) }
        ensures fuse { IfOk result (λ m. (m.fuse ≡ Fuse.Off) × (m.burnt ≡ false)) }
    {
        let MemRegion {
            alloc,
            mut words,
            mut stored,
            rest,
            ..
        } = self;
        let rest = bytes_behind(alloc, &words, &rest, length as usize)?;
        let count = (length / 8) as usize;
        words.truncate(count);
        stored.cut(count);
        Ok(MemRegion {
            alloc,
            words,
            stored,
            recent: RecentStores::new(),
            rest,
            fuse: Fuse::Off,
            burnt: false,
        })
    }

    /// The region that a stop at this moment leaves, where it keeps these words. Nothing is pending in it, and it has no
    /// fuse.
    ///
    /// It takes no memory, and costs what was stored since the last fence.
    pub fn after_stop(self, keep: Keep) -> MemRegion
        ensures left { MayBeLeft self.region (fenced_or_last self) result.region }
        ensures words { result.region.words ≡ kept keep self.region.words self.fenced }
        ensures settled { NothingPending result.region (fenced_or_last result) }
        ensures fuse { (result.fuse ≡ Fuse.Off) × (result.burnt ≡ false) }
    {
        let MemRegion {
            alloc,
            mut words,
            mut stored,
            mut recent,
            rest,
            ..
        } = self;
        note_recent(&mut stored, &mut recent, &mut words);
        keep_words(&mut words, &mut stored, keep);
        stored.clear();
        MemRegion {
            alloc,
            words,
            stored,
            recent,
            rest,
            fuse: Fuse::Off,
            burnt: false,
        }
    }
}

// The words of the bytes, and the bytes behind them.
fn read_words(alloc: Global, bytes: &[u8]) -> Result<(Vec<u64>, Vec<u8>), AllocError>
    ensures words { IfOk result (λ r. record { words = r.0.items; rest = r.1.items } ≡ region_of bytes.now) }
    ensures short { IfOk result (λ r. length r.1.items < 8) }
    ensures count { IfOk result (λ r. 8 * length r.0.items ≤ length bytes.now) }
{
    let mut words = Vec::with_capacity(alloc, bytes.len() / 8)?;
    let mut left = bytes;
    while left.len() >= 8 {
        words.push(LittleEndian::read_u64(left))?;
        left = &left[8..];
    }
    Ok((words, left.to_vec(alloc)?))
}

// Of a region's first bytes, those behind the last whole word.
fn bytes_behind(
    alloc: Global,
    words: &[u64],
    rest: &[u8],
    count: usize,
) -> Result<Vec<u8>, AllocError>
    requires short { length rest.now < 8 }
    requires within { count ≤ 8 * length words.now + length rest.now }
    ensures short { IfOk result (λ bytes. length bytes.items < 8) }
    ensures front { IfOk result (λ bytes. region_of (take count (bytes_of (record { words = words.now; rest = rest.now }))) ≡ record { words = take (count / 8) words.now; rest = bytes.items }) }
{
    let whole = count / 8;
    if whole < words.len() {
        word_front(alloc, words[whole], count % 8)
    } else {
        rest[..count % 8].to_vec(alloc)
    }
}

// The first bytes of a word.
fn word_front(alloc: Global, word: u64, count: usize) -> Result<Vec<u8>, AllocError>
    requires { count < 8 }
    ensures { IfOk result (λ bytes. bytes.items ≡ take count (little_bytes 8 word)) }
{
    let mut eight = [0; 8];
    LittleEndian::write_u64(&mut eight, word);
    eight[..count].to_vec(alloc)
}

impl Pmem for MemRegion {
    ghost region = { λ m. m.region };

    ghost may_hold = { fenced_or_last };

    ghost fuse = { fuse_state };

    ghost unburnt = { steady_unburnt };

    ghost open_unburnt = { λ m limit. steady_unburnt m };

    ghost holds_now = { λ m i. inl refl };

    fn len(&self) -> u64 {
        8 * self.words.len() as u64 + self.rest.len() as u64
    }

    fn load(&self, at: u64) -> u64 {
        self.words[(at / 8) as usize]
    }

    fn store(&mut self, at: u64, value: u64) -> Result<(), Stopped>
        requires aligned { at % 8 ≡ 0 }
        requires within { at + 8 ≤ size self.old.region }
        ensures stored { OnOk result (self.new.region ≡ put self.old.region at value) }
        ensures may_keep { OnOk result (Adds (One at value) (fenced_or_last self.old) (fenced_or_last self.new)) }
        ensures refused { OnErr result (self.new.region ≡ self.old.region) }
        ensures refused_keep { OnErr result (NoneAdded (fenced_or_last self.old) (fenced_or_last self.new)) }
        ensures stopped { is_err result ≡ self.new.burnt }
        ensures keeps_fuse { KeepsFuse (λ limit. at + 8 ≤ limit) (fuse_state self.old) (fuse_state self.new) }
        // The fuse burns where it says.
        ensures passes { PassesFuse self.old at value self.new result }
    {
        if self.burnt {
            return Err(Stopped);
        }
        let burns = match self.fuse {
            Fuse::Off => false,
            Fuse::After(left) => left == 0,
            Fuse::At(address) => address == at,
        };
        if burns {
            self.burnt = true;
            return Err(Stopped);
        }
        self.count_down();
        self.put((at / 8) as usize, value);
        Ok(())
    }

    fn store_words(&mut self, at: u64, words: &[u64]) -> Result<(), Stopped>
        requires aligned { at % 8 ≡ 0 }
        requires some { 1 ≤ length words.now }
        requires within { at + 8 * length words.now ≤ size self.old.region }
        ensures stored { OnOk result (self.new.region ≡ put_words self.old.region at words.now (length words.now)) }
        ensures may_keep { OnOk result (Adds (Each at words.now (length words.now)) (fenced_or_last self.old) (fenced_or_last self.new)) }
        ensures refused { OnErr result (StoppedAmong at words.now (length words.now) self.old.region self.new.region (fenced_or_last self.old) (fenced_or_last self.new)) }
        ensures stopped { is_err result ≡ self.new.burnt }
        ensures keeps_fuse { KeepsFuse (λ limit. at + 8 * length words.now ≤ limit) (fuse_state self.old) (fuse_state self.new) }
        // It is as after these stores in turn, and the fuse burns where it would at them.
        ensures after { self.new ≡ after_stores self.old at words.now (length words.now) }
    {
        let _length = self.len();
        if !self.lets_all_pass() {
            return self.store_each(at, words);
        }
        self.put_row((at / 8) as usize, words);
        Ok(())
    }

    fn fence(&mut self) -> Result<(), Stopped>
        ensures same { self.new.region ≡ self.old.region }
        ensures fenced { OnOk result (NothingPending self.new.region (fenced_or_last self.new)) }
        ensures refused_keep { OnErr result (NoneAdded (fenced_or_last self.old) (fenced_or_last self.new)) }
        ensures stopped { is_err result ≡ self.new.burnt }
        ensures keeps_fuse { KeepsFuse (λ limit. 0 ≤ limit) (fuse_state self.old) (fuse_state self.new) }
        // The fuse burns where it says.
        ensures burns { self.new.burnt ≡ (self.old.burnt || burns_at_fence self.old.fuse) }
        ensures counts { OnOk result (self.new.fuse ≡ one_passed self.old.fuse) }
        // A fence that is refused isn't done in part.
        ensures kept { OnErr result (self.new.fenced ≡ self.old.fenced) }
    {
        if self.burnt {
            return Err(Stopped);
        }
        if let Fuse::After(0) = self.fuse {
            self.burnt = true;
            return Err(Stopped);
        }
        self.count_down();
        self.settle();
        Ok(())
    }

    fn forget_if_steady(&mut self)
        ensures same { self.new.region ≡ self.old.region }
        ensures kept { NoneAdded (fenced_or_last self.old) (fenced_or_last self.new) }
        ensures fuse { fuse_state self.new ≡ fuse_state self.old }
        // It is as after a fence, or as before.
        ensures settled { IsTrue (is_steady self.old) → self.new ≡ record self.old { fenced = self.old.region.words } }
        ensures stays { is_steady self.old ≡ false → self.new ≡ self.old }
    {
        if self.lets_all_pass() {
            self.settle()
        }
    }
}

impl MemRegion {
    // One store or fence passes.
    fn count_down(&mut self)
        ensures { self.new ≡ record self.old { fuse = one_passed self.old.fuse } }
    {
        if let Fuse::After(left) = self.fuse {
            self.fuse = Fuse::After(left.saturating_sub(1));
        }
    }

    // Makes the words at the last fence those of now.
    fn settle(&mut self)
        ensures { self.new ≡ record self.old { fenced = self.old.region.words } }
    {
        self.stored.clear();
        self.recent.forget();
    }

    // Changes the word of this number.
    fn put(&mut self, number: usize, value: u64)
        requires { number < length self.old.region.words }
        ensures { self.new ≡ record self.old { region = put self.old.region (8 * number) value } }
    {
        hold(
            &mut self.stored,
            &mut self.recent,
            &mut self.words,
            number,
            value,
        );
        self.words[number] = value;
    }

    // Whether no store can burn the fuse: none is set.
    fn lets_all_pass(&self) -> bool
        ensures { result ≡ is_steady self.now }
    {
        !self.burnt && matches!(self.fuse, Fuse::Off)
    }

    // Changes the words in a row from the one of this number on.
    fn put_row(&mut self, first: usize, words: &[u64])
        requires some { 1 ≤ length words.now }
        requires within { first + length words.now ≤ length self.old.region.words }
        ensures { self.new ≡ record self.old { region = put_words self.old.region (8 * first) words.now (length words.now) } }
    {
        if words.len() < WORDS_IN_LINE && self.stored.is_empty() {
            self.put_each(first, words);
        } else {
            self.put_lines(first, words);
        }
    }

    // Does so word by word.
    fn put_each(&mut self, first: usize, words: &[u64])
        requires within { first + length words.now ≤ length self.old.region.words }
        ensures { self.new ≡ record self.old { region = put_words self.old.region (8 * first) words.now (length words.now) } }
    {
        let _length = self.len();
        for k in 0..words.len() {
            self.put(first + k, words[k]);
        }
    }

    // Does so at once, and notes their lines.
    fn put_lines(&mut self, first: usize, words: &[u64])
        requires some { 1 ≤ length words.now }
        requires within { first + length words.now ≤ length self.old.region.words }
        ensures { self.new ≡ record self.old { region = put_words self.old.region (8 * first) words.now (length words.now) } }
    {
        let _length = self.len();
        let end = first + words.len();
        note_recent(&mut self.stored, &mut self.recent, &mut self.words);
        self.stored
            .note_row(first / WORDS_IN_LINE, lines_of(end), &self.words);
        self.words[first..end].copy_from_slice(words);
    }

    // Stores words in a row one by one, up to the one at which the fuse burns.
    fn store_each(&mut self, at: u64, words: &[u64]) -> Result<(), Stopped>
        requires aligned { at % 8 ≡ 0 }
        requires some { 1 ≤ length words.now }
        requires within { at + 8 * length words.now ≤ size self.old.region }
        ensures stored { OnOk result (self.new.region ≡ put_words self.old.region at words.now (length words.now)) }
        ensures may_keep { OnOk result (Adds (Each at words.now (length words.now)) (fenced_or_last self.old) (fenced_or_last self.new)) }
        ensures refused { OnErr result (StoppedAmong at words.now (length words.now) self.old.region self.new.region (fenced_or_last self.old) (fenced_or_last self.new)) }
        ensures stopped { is_err result ≡ self.new.burnt }
        ensures keeps_fuse { KeepsFuse (λ limit. at + 8 * length words.now ≤ limit) (fuse_state self.old) (fuse_state self.new) }
        ensures after { self.new ≡ after_stores self.old at words.now (length words.now) }
    {
        let _length = self.len();
        for k in 0..words.len() {
            self.store(at + 8 * k as u64, words[k])?;
        }
        Ok(())
    }
}
