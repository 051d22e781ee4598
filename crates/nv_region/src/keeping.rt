//! Which of the words that were stored since the last fence a stop keeps.

ghost use Rattle.std.specs.Prelude.{◌≡◌, ◌≤◌, ◌<◌, ◌+◌, ◌-◌, ◌*◌, ◌/◌, ◌^◌, ℕ, true, get_or, length, min, List};
ghost use Rattle.nv_region.specs.Kept.{alternate, kept, so_far};
ghost use Rattle.nv_region.specs.StoredLines.{words_before};
ghost use Rattle.nv_region.specs.Marks.{AreKept, RowsRise};

use crate::memory::Keep;
use crate::stored::{StoredLines, StoredRow, WORDS_IN_LINE};

// Leaves the words that a stop keeps.
pub(crate) fn keep_words(words: &mut [u64], stored: &mut StoredLines, keep: Keep)
    requires small { length words.old ≤ 2 ^ 27 }
    requires all { length words.old ≡ stored.old.total }
    ensures words { words.new ≡ kept keep words.old (words_before stored.old.rows stored.old.kept words.old) }
    ensures as_long { length words.new ≡ length words.old }
    ensures total { stored.new.total ≡ stored.old.total }
{
    match keep {
        Keep::None => put_back(words, stored.rows(), stored.kept()),
        Keep::All => {}
        Keep::Alternate => {
            stored.sort();
            keep_alternate(words, stored.rows(), stored.kept());
        }
    }
}

// Makes the words those at the last fence.
fn put_back(words: &mut [u64], rows: &[StoredRow], kept: &[u64])
    requires small { length words.old ≤ 2 ^ 27 }
    requires rows { AreKept (length words.old) rows.now kept.now }
    ensures { words.new ≡ words_before rows.now kept.now words.old }
{
    for row in rows {
        put_row_back(words, row, kept);
    }
}

// Makes the words of a row those at the last fence. Its last words may lie past the end.
fn put_row_back(words: &mut [u64], row: &StoredRow, kept: &[u64])
    requires small { length words.old ≤ 2 ^ 27 }
    requires rises { row.now.first < row.now.end }
    requires below { 8 * row.now.end < length words.old + 8 }
    requires within { row.now.at + (min (8 * row.now.end) (length words.old) - 8 * row.now.first) ≤ length kept.now }
    ensures as_long { length words.new ≡ length words.old }
    ensures here { (i : ℕ) → i < length words.old → row.now.first ≤ i / 8 → i / 8 < row.now.end → get_or words.new i 0 ≡ get_or kept.now (row.now.at + (i - 8 * row.now.first)) 0 }
    ensures others { (i : ℕ) → (row.now.first ≤ i / 8 → i / 8 < row.now.end → ⊥) → get_or words.new i 0 ≡ get_or words.old i 0 }
{
    let start = row.first * WORDS_IN_LINE;
    let end = (row.end * WORDS_IN_LINE).min(words.len());
    words[start..end].copy_from_slice(&kept[row.at..row.at + (end - start)]);
}

// Keeps the first, third and so on of the words that differ from those at the last fence, and takes the others back.
fn keep_alternate(words: &mut [u64], rows: &[StoredRow], kept: &[u64])
    ghost fenced: { List ℕ }
    requires fenced { fenced ≡ words_before rows.now kept.now words.old }
    requires small { length words.old ≤ 2 ^ 27 }
    requires rising { RowsRise rows.now }
    requires rows { AreKept (length words.old) rows.now kept.now }
    ensures words { words.new ≡ alternate true words.old fenced }
    ensures as_long { length words.new ≡ length words.old }
{
    let mut turn = true;
    for row in rows {
        turn = alternate_row(words, row, kept, turn);
    }
}

// Does so in one row, from this turn on. Answers whose turn comes next.
fn alternate_row(words: &mut [u64], row: &StoredRow, kept: &[u64], turn: bool) -> bool
    ghost fenced: { List ℕ }
    requires as_long { length fenced ≡ length words.old }
    requires small { length words.old ≤ 2 ^ 27 }
    requires rises { row.now.first < row.now.end }
    requires below { 8 * row.now.end < length words.old + 8 }
    requires within { row.now.at + (min (8 * row.now.end) (length words.old) - 8 * row.now.first) ≤ length kept.now }
    requires before { (i : ℕ) → i < length fenced → row.now.first ≤ i / 8 → i / 8 < row.now.end → get_or kept.now (row.now.at + (i - 8 * row.now.first)) 0 ≡ get_or fenced i 0 }
    ensures goes_on { so_far result (min (8 * row.now.end) (length words.old)) words.new fenced ≡ so_far turn (8 * row.now.first) words.old fenced }
    ensures behind { (i : ℕ) → min (8 * row.now.end) (length words.old) ≤ i → get_or words.new i 0 ≡ get_or words.old i 0 }
    ensures as_long { length words.new ≡ length words.old }
{
    let start = row.first * WORDS_IN_LINE;
    let end = (row.end * WORDS_IN_LINE).min(words.len());
    let mut turn = turn;
    for i in start..end {
        let before = kept[row.at + (i - start)];
        if words[i] != before {
            if !turn {
                words[i] = before;
            }
            turn = !turn;
        }
    }
    turn
}
