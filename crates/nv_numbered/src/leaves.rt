//! Words by number, in leaves of 4,096 words, of which only those are made that have a word that isn't 0. Only `new`,
//! `reserve` and `lengthen` take memory.

ghost use Rattle.std.specs.Prelude.{◌≡◌, ◌≢◌, ◌+◌, ◌-◌, ◌<◌, ◌≤◌, ◌^◌, ◌++◌, [], ◌∷◌, ℕ, length, replicate, vec_len, vec_capacity, IsOk, IfOk, IfSome, OnOk, OnErr, unwrap_or, slice_index, slice_index_or};
ghost use Rattle.std.specs.Prelude.{slice_set};
ghost use Rattle.nv_numbered.specs.Leaved.{leaves_of};

use std::alloc::{AllocError, Global};
use std::marker::Model;
use std::mem;

// So many words are in a leaf.
const LEAF: u64 = 4096;

/// Words by number, from 0 on.
///
/// As many leaves have memory as there are words that aren't 0 and room for more, so that each may stand anywhere, but
/// never more than the places fill. A leaf whose words are all 0 again serves for others.
#[derive(Drop)]
pub struct Leaves {
    // The words of each leaf, and none where all of them are 0.
    leaves: Vec<Vec<u32>>,
    // How many words of each leaf aren't 0.
    used: Vec<u32>,
    // Leaves whose words are 0, to be put where one is needed.
    spares: Vec<Vec<u32>>,
    // How many leaves have memory.
    total: usize,
    // How many words aren't 0.
    count: usize,
    // How many words there are.
    len: u64,
}

impl Model for Leaves {
    ghost use Rattle.nv_numbered.specs.Leaved.{Words, words_code};

    ghost Value = { Words };

    ghost coded = { words_code };

    ghost use Rattle.nv_numbered.specs.Leaved.{IsLeaved, leaved_as};

    ghost view = { λ t. leaved_as t.leaves.items t.total t.count t.len };

    ghost invariant = { λ t. IsLeaved t.leaves.items t.used.items t.spares t.total t.count t.len };
}

// So many leaves without words.
fn bare_leaves(alloc: Global, count: usize) -> Result<Vec<Vec<u32>>, AllocError>
    ensures { IfOk result (λ leaves. leaves_of leaves.items ≡ replicate count []) }
{
    let mut leaves = Vec::with_capacity(alloc, count)?;
    for _ in 0..count {
        leaves.push_reserved(Vec::new(alloc));
    }
    Ok(leaves)
}

// A leaf without words gets those of a spare one.
fn make_leaf(leaf: &mut Vec<u32>, spares: &mut Vec<Vec<u32>>)
    requires { length leaf.old.items ≡ 0 → 0 < vec_len spares.old }
    ensures bare { length leaf.old.items ≡ 0 → spares.old.items ≡ spares.new.items ++ leaf.new ∷ [] }
    ensures made { 0 < length leaf.old.items → (leaf.new ≡ leaf.old) × (spares.new.items ≡ spares.old.items) }
    ensures capacity { vec_capacity spares.new ≡ vec_capacity spares.old }
{
    if leaf.is_empty() {
        *leaf = spares.take_last();
    }
}

// A leaf's words become those of a spare one.
fn give_back(leaf: &mut Vec<u32>, spares: &mut Vec<Vec<u32>>)
    requires { vec_len spares.old < vec_capacity spares.old }
    ensures leaf { leaf.new.items ≡ [] }
    ensures spares { spares.new.items ≡ spares.old.items ++ leaf.old ∷ [] }
    ensures capacity { vec_capacity spares.new ≡ vec_capacity spares.old }
{
    let alloc = *spares.allocator();
    spares.push_reserved(mem::replace(leaf, Vec::new(alloc)));
}

// Where the first word of a leaf from an offset on is that isn't 0.
fn first_used(leaf: &[u32], from: u64) -> Option<u64>
    requires { from < 4096 }
    ensures some { IfSome result (λ offset. (from ≤ offset) × (offset < length leaf.now) × (slice_index leaf.now offset ≢ 0)) }
    ensures none_before { (k : ℕ) → from ≤ k → k < unwrap_or result (length leaf.now) → slice_index leaf.now k ≡ 0 }
{
    let mut offset = from as usize;
    while offset < leaf.len() {
        if leaf[offset] != 0 {
            return Some(offset as u64);
        }
        offset += 1;
    }
    None
}

impl Leaves {
    /// Words that are 0, with room for so many that aren't.
    pub fn new(alloc: Global, len: u64, room: usize) -> Result<Leaves, AllocError>
        requires { len < 2 ^ 32 }
        ensures items { IfOk result (λ v. v.items ≡ replicate len 0) }
        ensures ready { IfOk result (λ v. room ≤ v.room) }
    {
        let count = len.div_ceil(LEAF) as usize;
        let mut leaves = Leaves {
            leaves: bare_leaves(alloc, count)?,
            used: vec![in alloc; 0; count]?,
            spares: Vec::new(alloc),
            total: 0,
            count: 0,
            len,
        };
        leaves.reserve(room)?;
        Ok(leaves)
    }

    /// The word at a place, and 0 where there is none.
    #[inline]
    pub fn get(&self, place: u64) -> u32
        ensures { result ≡ slice_index self.now.items place }
    {
        if place >= self.len {
            return 0;
        }
        let leaf = &self.leaves[(place / LEAF) as usize];
        match leaf.get((place % LEAF) as usize) {
            Some(word) => *word,
            None => 0,
        }
    }

    /// The first place from this one on whose word isn't 0.
    pub fn next_used(&self, from: u64) -> Option<u64>
        ensures some { IfSome result (λ place. (from ≤ place) × (place < length self.now.items) × (slice_index self.now.items place ≢ 0)) }
        ensures none_before { (k : ℕ) → from ≤ k → k < unwrap_or result (length self.now.items) → slice_index self.now.items k ≡ 0 }
    {
        let mut place = from;
        while place < self.len {
            let leaf = &self.leaves[(place / LEAF) as usize];
            if let Some(offset) = first_used(leaf, place % LEAF) {
                let found = place - place % LEAF + offset;
                return if found < self.len { Some(found) } else { None };
            }
            place = place - place % LEAF + LEAF;
        }
        None
    }

    /// Makes room for `more` words that aren't 0. The words stay, whatever it answers.
    ///
    /// Errors: `AllocError` where a growth was refused. It doesn't come where there is room already.
    pub fn reserve(&mut self, more: usize) -> Result<(), AllocError>
        ensures items { self.new.items ≡ self.old.items }
        ensures ready { OnOk result (more ≤ self.new.room) }
        ensures succeeds { more ≤ self.old.room → IsOk result }
        ensures room { self.old.room ≤ self.new.room }
    {
        while self.total < self.leaves.len() && self.total - self.count < more {
            self.add_spare()?;
        }
        Ok(())
    }

    fn add_spare(&mut self) -> Result<(), AllocError>
        requires { self.old.room < 2 ^ 64 }
        ensures items { self.new.items ≡ self.old.items }
        ensures ok { OnOk result (self.old.room + 1 ≤ self.new.room) }
        ensures err { OnErr result (self.new.room ≡ self.old.room) }
    {
        let more = self.total + 1 - self.spares.len();
        self.spares.reserve(more)?;
        let alloc = *self.spares.allocator();
        self.spares.push_reserved(vec![in alloc; 0; LEAF as usize]?);
        self.total += 1;
        Ok(())
    }

    /// Makes so many words of these where there are fewer, at most 4,096 more: those behind the others are 0. The words
    /// stay, whatever it answers.
    ///
    /// Errors: `AllocError` where a growth was refused.
    pub fn lengthen(&mut self, len: u64) -> Result<(), AllocError>
        requires few { len ≤ length self.old.items + 4096 }
        requires small { len < 2 ^ 32 }
        ensures ok { OnOk result (self.new.items ≡ self.old.items ++ replicate (len - length self.old.items) 0) }
        ensures err { OnErr result (self.new.items ≡ self.old.items) }
        ensures room { self.old.room ≤ self.new.room }
    {
        if len <= self.len {
            return Ok(());
        }
        if len <= LEAF * self.leaves.len() as u64 {
            self.len = len;
            return Ok(());
        }
        self.leaves.reserve(1)?;
        self.used.reserve(1)?;
        let more = self.total + 1 - self.spares.len();
        self.spares.reserve(more)?;
        let alloc = *self.spares.allocator();
        self.spares.push_reserved(vec![in alloc; 0; LEAF as usize]?);
        self.leaves.push_reserved(Vec::new(alloc));
        self.used.push_reserved(0);
        self.total += 1;
        self.len = len;
        Ok(())
    }

    /// Puts a word that isn't 0 where one is 0. It takes no memory.
    pub fn insert(&mut self, place: u64, word: u32)
        requires within { place < length self.old.items }
        requires vacant { slice_index self.old.items place ≡ 0 }
        requires some { word ≢ 0 }
        requires room { 0 < self.old.room }
        ensures items { self.new.items ≡ slice_set self.old.items place word }
        ensures room { self.old.room ≡ self.new.room + 1 }
    {
        let leaf = (place / LEAF) as usize;
        let words = &mut self.leaves[leaf];
        make_leaf(words, &mut self.spares);
        words[(place % LEAF) as usize] = word;
        self.used[leaf] += 1;
        self.count += 1;
    }

    /// Puts a word that isn't 0 where there is another. It takes no memory.
    pub fn replace(&mut self, place: u64, word: u32)
        requires within { place < length self.old.items }
        requires taken { slice_index self.old.items place ≢ 0 }
        requires some { word ≢ 0 }
        ensures items { self.new.items ≡ slice_set self.old.items place word }
        ensures room { self.new.room ≡ self.old.room }
    {
        let words = &mut self.leaves[(place / LEAF) as usize];
        words[(place % LEAF) as usize] = word;
    }

    /// Makes a word 0 that isn't. It takes no memory.
    pub fn remove(&mut self, place: u64)
        requires within { place < length self.old.items }
        requires taken { slice_index self.old.items place ≢ 0 }
        ensures items { self.new.items ≡ slice_set self.old.items place 0 }
        ensures room { self.new.room ≡ self.old.room + 1 }
    {
        let leaf = place / LEAF;
        let words = &mut self.leaves[leaf as usize];
        words[(place % LEAF) as usize] = 0;
        let others = self.used[leaf as usize] - 1;
        self.used[leaf as usize] = others;
        self.count -= 1;
        if others == 0 {
            give_back(words, &mut self.spares);
        }
    }
}
