//! The lines that were stored to since the last fence, in rows, with their words as they were then: a fence forgets these
//! alone, and a stop can give them back.
//!
//! All room is made when the region is made: a bit for each line, rows for all lines, and words for all that there are.

ghost use Rattle.std.specs.Prelude.{◌≡◌, ◌≢◌, ◌==◌, ◌<◌, ◌≤◌, ◌+◌, ◌-◌, ◌*◌, ◌/◌, ◌^◌, ◌||◌, ◌++◌, ◌∷◌, ◌⊎◌};
ghost use Rattle.std.specs.Prelude.{ℕ, List, IfOk, IsTrue, [], drop, take, min, length, get_or, true, false, replicate, vec_len, vec_capacity};
ghost use Rattle.std.specs.List.{list_any, Contains};
ghost use Rattle.nv_blockset.specs.BlockSet.{is_set};
ghost use Rattle.nv_region.specs.Marks.{AreKept, RowsRise};
ghost use Rattle.nv_region.specs.StoredLines.{holds, is_stored, word_before, words_before};

use nv_blockset::{contains, empty_words, first_clear, first_set, insert, insert_row, words_for};
use std::alloc::{AllocError, Global};
use std::marker::Model;

pub(crate) const WORDS_IN_LINE: usize = 8;

/// Lines in a row that were stored to.
#[derive(Clone, Copy)]
pub(crate) struct StoredRow {
    pub first: usize,
    /// The line behind the last one.
    pub end: usize,
    /// Where its words at the last fence begin among those that are kept.
    pub at: usize,
}

/// Rows of the lines of a region, none of them in two rows, in the order in which they were stored to.
#[derive(Drop)]
pub(crate) struct StoredLines {
    /// How many words the region has. The last line may reach past them.
    total: usize,
    rows: Vec<StoredRow>,
    kept: Vec<u64>,
    marks: Vec<u64>,
}

impl Model for StoredLines {
    ghost use Rattle.nv_region.specs.StoredLines.{Noted};

    ghost Value = { Noted };

    ghost view = { λ s. record { total = s.total; rows = s.rows.items; kept = s.kept.items } };

    ghost use Rattle.nv_region.specs.Marks.{AreMarked};

    ghost invariant = { AreMarked };
}

impl StoredLines {
    /// No line of a region of so many words is stored to.
    pub(crate) fn new(alloc: Global, total: usize) -> Result<StoredLines, AllocError>
        requires { total ≤ 2 ^ 27 }
        ensures { IfOk result (λ s. s ≡ record { total = total; rows = []; kept = [] }) }
    {
        let lines = lines_of(total);
        Ok(StoredLines {
            total,
            rows: Vec::with_capacity(alloc, lines)?,
            kept: Vec::with_capacity(alloc, lines * WORDS_IN_LINE)?,
            marks: no_marks(alloc, words_for(lines as u64))?,
        })
    }

    /// Notes a store to a line of these words. Where it is the first one, the line's words are kept as they are.
    #[inline]
    pub(crate) fn note(&mut self, number: usize, words: &[u64])
        requires all { length words.now ≡ self.old.total }
        requires within { 8 * number < length words.now }
        ensures total { self.new.total ≡ self.old.total }
        ensures lines { (p : ℕ) → is_stored self.new p ≡ ((p == number) || is_stored self.old p) }
        // Word by word: the line's are as they were, whatever becomes of them, and of others nothing changes.
        ensures here { (after : List ℕ) (i : ℕ) → i < length words.now → i / 8 ≡ number → word_before self.new.rows self.new.kept after i ≡ word_before self.old.rows self.old.kept words.now i }
        ensures others { (after : List ℕ) (i : ℕ) → i < length words.now → i / 8 ≢ number → word_before self.new.rows self.new.kept after i ≡ word_before self.old.rows self.old.kept after i }
    {
        if !contains(&self.marks, number as u64) {
            insert(&mut self.marks, number as u64);
            keep_line(&mut self.rows, &mut self.kept, number, words);
        }
    }

    /// Notes a store to each line from one up to another, as by `note` in turn.
    #[inline]
    pub(crate) fn note_row(&mut self, first: usize, end: usize, words: &[u64])
        requires all { length words.now ≡ self.old.total }
        requires rises { first ≤ end }
        requires within { 8 * end < length words.now + 8 }
        ensures total { self.new.total ≡ self.old.total }
        ensures lines { (p : ℕ) → is_stored self.new p ≡ true → (is_stored self.old p ≡ true) ⊎ (p < end) }
        ensures here { (after : List ℕ) (i : ℕ) → i < length words.now → first ≤ i / 8 → i / 8 < end
            → word_before self.new.rows self.new.kept after i ≡ word_before self.old.rows self.old.kept words.now i }
        ensures others { (after : List ℕ) (i : ℕ) → i < length words.now → (first ≤ i / 8 → i / 8 < end → ⊥)
            → word_before self.new.rows self.new.kept after i ≡ word_before self.old.rows self.old.kept after i }
    {
        if end - first == 1 {
            self.note(first, words);
        } else {
            self.note_stretches(first, end, words);
        }
    }

    /// Does so by stretches of lines that aren't noted.
    fn note_stretches(&mut self, first: usize, end: usize, words: &[u64])
        requires all { length words.now ≡ self.old.total }
        requires rises { first ≤ end }
        requires within { 8 * end < length words.now + 8 }
        ensures total { self.new.total ≡ self.old.total }
        ensures lines { (p : ℕ) → is_stored self.new p ≡ true → (is_stored self.old p ≡ true) ⊎ (p < end) }
        ensures here { (after : List ℕ) (i : ℕ) → i < length words.now → first ≤ i / 8 → i / 8 < end
            → word_before self.new.rows self.new.kept after i ≡ word_before self.old.rows self.old.kept words.now i }
        ensures others { (after : List ℕ) (i : ℕ) → i < length words.now → (first ≤ i / 8 → i / 8 < end → ⊥)
            → word_before self.new.rows self.new.kept after i ≡ word_before self.old.rows self.old.kept after i }
    {
        let mut here = first;
        while here < end {
            let (start, stop) = self.fresh_row(here, end);
            if start < stop {
                self.note_fresh(start, stop, words);
            }
            here = stop;
        }
    }

    /// The first lines in a row from one on, and before another, that aren't noted. Where there are none, that other twice.
    fn fresh_row(&self, from: usize, end: usize) -> (usize, usize)
        requires order { from < end }
        requires within { 8 * end < self.now.total + 8 }
        ensures order { (from ≤ result.0) × (result.0 ≤ result.1) × (result.1 ≤ end) }
        ensures more { from < result.1 }
        ensures noted { (p : ℕ) → from ≤ p → p < result.0 → is_stored self.now p ≡ true }
        ensures fresh { (p : ℕ) → result.0 ≤ p → p < result.1 → is_stored self.now p ≡ false }
    {
        let start = first_clear(&self.marks, from as u64, end as u64);
        let stop = first_set(&self.marks, start, end as u64);
        (start as usize, stop as usize)
    }

    /// Notes lines in a row, none of which is noted.
    fn note_fresh(&mut self, first: usize, end: usize, words: &[u64])
        requires all { length words.now ≡ self.old.total }
        requires rises { first < end }
        requires within { 8 * end < length words.now + 8 }
        requires fresh { (p : ℕ) → first ≤ p → p < end → is_stored self.old p ≡ false }
        ensures total { self.new.total ≡ self.old.total }
        ensures lines { (p : ℕ) → is_stored self.new p ≡ true → (is_stored self.old p ≡ true) ⊎ (p < end) }
        ensures here { (after : List ℕ) (i : ℕ) → i < length words.now → first ≤ i / 8 → i / 8 < end → word_before self.new.rows self.new.kept after i ≡ get_or words.now i 0 }
        ensures others { (after : List ℕ) (i : ℕ) → i < length words.now → (first ≤ i / 8 → i / 8 < end → ⊥)
            → word_before self.new.rows self.new.kept after i ≡ word_before self.old.rows self.old.kept after i }
    {
        insert_row(&mut self.marks, first as u64, end as u64);
        keep(&mut self.rows, &mut self.kept, first, end, words);
    }

    /// Whether no line is noted.
    #[inline]
    pub(crate) fn is_empty(&self) -> bool
        ensures { result ≡ (length self.now.rows == 0) }
    {
        self.rows.is_empty()
    }

    /// The rows of lines that are noted.
    pub(crate) fn rows(&self) -> &[StoredRow]
        ensures rows { result.now ≡ self.now.rows }
        ensures kept { AreKept self.now.total result.now self.now.kept }
    {
        self.rows.as_slice()
    }

    /// The words at the last fence that are kept of them.
    pub(crate) fn kept(&self) -> &[u64]
        ensures { result.now ≡ self.now.kept }
    {
        self.kept.as_slice()
    }

    /// Puts the rows in rising order.
    pub(crate) fn sort(&mut self)
        ensures total { self.new.total ≡ self.old.total }
        ensures kept { self.new.kept ≡ self.old.kept }
        ensures lines { (p : ℕ) → is_stored self.new p ≡ is_stored self.old p }
        ensures before { (words : List ℕ) → words_before self.new.rows self.new.kept words ≡ words_before self.old.rows self.old.kept words }
        ensures rising { RowsRise self.new.rows }
    {
        self.rows.sort_unstable_by_key(|row| row.first);
    }

    /// Forgets all lines.
    pub(crate) fn clear(&mut self)
        ensures { self.new ≡ record { total = self.old.total; rows = []; kept = [] } }
    {
        unmark(&mut self.marks, &self.rows);
        self.rows.clear();
        self.kept.clear();
    }

    /// Forgets all lines, and from now on there are only so many words.
    pub(crate) fn cut(&mut self, total: usize)
        requires { total ≤ self.old.total }
        ensures { self.new ≡ record { total = total; rows = []; kept = [] } }
    {
        self.clear();
        self.total = total;
    }
}

/// How many lines have words, of which there are so many.
pub(crate) fn lines_of(words: usize) -> usize
    requires { words ≤ 2 ^ 27 }
    ensures { result ≡ (words + 7) / 8 }
{
    words.div_ceil(WORDS_IN_LINE)
}

/// So many words of marks, none of them set.
fn no_marks(alloc: Global, count: usize) -> Result<Vec<u64>, AllocError>
    ensures { IfOk result (λ marks. marks.items ≡ replicate count 0) }
{
    vec![in alloc; 0; count]
}

/// Keeps the words of one line, as far as there are any.
#[inline]
fn keep_line(rows: &mut Vec<StoredRow>, kept: &mut Vec<u64>, number: usize, words: &[u64])
    requires within { 8 * number < length words.now }
    requires small { length words.now ≤ 2 ^ 27 }
    requires room { vec_len rows.old < vec_capacity rows.old }
    requires wide { vec_len kept.old + 8 ≤ vec_capacity kept.old }
    ensures rows { rows.new.items ≡ rows.old.items ++ record { first = number; end = number + 1; at = length kept.old.items } ∷ [] }
    ensures kept { kept.new.items ≡ kept.old.items ++ take (min (8 * (number + 1)) (length words.now) - 8 * number) (drop (8 * number) words.now) }
    ensures room { vec_capacity rows.old ≤ vec_capacity rows.new }
    ensures wide { vec_capacity kept.old ≤ vec_capacity kept.new }
{
    let at = kept.len();
    let behind = &words[number * WORDS_IN_LINE..];
    // There is room, so no memory is taken, and none can be refused. A whole line is copied as one value.
    let _fits = match behind.first_chunk::<WORDS_IN_LINE>() {
        Some(line) => kept.extend_from_slice(line),
        None => kept.extend_from_slice(behind),
    };
    rows.push_reserved(StoredRow {
        first: number,
        end: number + 1,
        at,
    });
}

/// Keeps the words of lines in a row, as far as there are any.
#[inline]
fn keep(rows: &mut Vec<StoredRow>, kept: &mut Vec<u64>, first: usize, end: usize, words: &[u64])
    requires rises { first < end }
    requires within { 8 * end < length words.now + 8 }
    requires small { length words.now ≤ 2 ^ 27 }
    requires room { vec_len rows.old < vec_capacity rows.old }
    requires wide { vec_len kept.old + 8 * (end - first) ≤ vec_capacity kept.old }
    ensures rows { rows.new.items ≡ rows.old.items ++ record { first = first; end = end; at = length kept.old.items } ∷ [] }
    ensures kept { kept.new.items ≡ kept.old.items ++ take (min (8 * end) (length words.now) - 8 * first) (drop (8 * first) words.now) }
    ensures room { vec_capacity rows.old ≤ vec_capacity rows.new }
    ensures wide { vec_capacity kept.old ≤ vec_capacity kept.new }
{
    let at = kept.len();
    let until = (end * WORDS_IN_LINE).min(words.len());
    // There is room, so no memory is taken, and none can be refused.
    let _fits = kept.extend_from_slice(&words[first * WORDS_IN_LINE..until]);
    rows.push_reserved(StoredRow { first, end, at });
}

/// Takes the marks of these rows off, which are all that there are.
fn unmark(marks: &mut [u64], rows: &[StoredRow])
    requires below { (row : StoredRow) → Contains rows.now row → (row.first < row.end) × (row.end ≤ 64 * length marks.old) × (row.end ≤ 2 ^ 24) }
    requires all { (p : ℕ) → IsTrue (is_set marks.old p) → list_any (λ row. holds row p) rows.now ≡ true }
    ensures count { length marks.new ≡ length marks.old }
    ensures none { (p : ℕ) → is_set marks.new p ≡ false }
{
    for row in rows {
        empty_words(marks, row.first as u64, row.end as u64);
    }
}
