//! The stores since the last fence, while they are few: each with the word as it was before. A fence forgets them by their
//! count alone, and a stop can take them back in turn.

ghost use Rattle.std.specs.Prelude.{◌≡◌, ◌<◌, ◌++◌, ◌∷◌, ℕ, List, [], length, get_or, nat_le, set};
ghost use Rattle.nv_region.specs.StoredLines.{word_before, words_before};
ghost use Rattle.nv_region.specs.Recent.{AreHeld, AreWithin, IsElsewhere, done_again, taken_back};

use crate::stored::{StoredLines, WORDS_IN_LINE};
use std::marker::Model;

/// How many stores are held.
const MOST_RECENT: usize = 32;

/// A store to a word.
#[derive(Clone, Copy)]
pub(crate) struct StoredWord {
    /// The word's number.
    pub number: usize,
    pub before: u64,
    pub after: u64,
}

const NO_STORE: StoredWord = StoredWord {
    number: 0,
    before: 0,
    after: 0,
};

/// At most 32 stores, in turn.
///
/// It is an array with a count, since an `ArrayVec` writes over each element that it forgets.
#[derive(Drop)]
pub(crate) struct RecentStores {
    stores: [StoredWord; MOST_RECENT],
    count: usize,
}

impl Model for RecentStores {
    ghost use Rattle.std.specs.Prelude.{◌≡◌, ◌≤◌, List, length, take};
    ghost use Rattle.nv_region.specs.declared.recent.StoredWord.{StoredWord as Store};

    ghost Value = { List Store };

    ghost view = { λ r. take r.count r.stores };

    ghost invariant = { λ r. (r.count ≤ 32) × (length r.stores ≡ 32) };
}

impl RecentStores {
    pub(crate) fn new() -> RecentStores
        ensures { result ≡ [] }
    {
        RecentStores {
            stores: [NO_STORE; MOST_RECENT],
            count: 0,
        }
    }

    /// The stores.
    pub(crate) fn as_slice(&self) -> &[StoredWord]
        ensures { result.now ≡ self.now }
    {
        &self.stores[..self.count]
    }

    /// Whether there is no room for one more.
    #[inline]
    pub(crate) fn is_full(&self) -> bool
        ensures { result ≡ nat_le 32 (length self.now) }
    {
        self.count >= MOST_RECENT
    }

    /// Holds a store more, for which there is room.
    #[inline]
    pub(crate) fn push(&mut self, store: StoredWord)
        requires { length self.old < 32 }
        ensures { self.new ≡ self.old ++ store ∷ [] }
    {
        self.stores[self.count] = store;
        self.count += 1;
    }

    /// Forgets all.
    #[inline]
    pub(crate) fn forget(&mut self)
        ensures { self.new ≡ [] }
    {
        self.count = 0;
    }
}

/// Holds a store that comes next: as one of the recent ones while no line is noted and there is room, and else by its line.
#[inline]
pub(crate) fn hold(
    stored: &mut StoredLines,
    recent: &mut RecentStores,
    words: &mut [u64],
    number: usize,
    value: u64,
)
    requires all { length words.old ≡ stored.old.total }
    requires within { number < length words.old }
    requires held { AreHeld recent.old words.old }
    ensures same { words.new ≡ words.old }
    ensures total { stored.new.total ≡ stored.old.total }
    ensures held { AreHeld recent.new (set words.old number value) }
    ensures before { words_before stored.new.rows stored.new.kept (taken_back recent.new (set words.old number value))
        ≡ words_before stored.old.rows stored.old.kept (taken_back recent.old words.old) }
{
    if stored.is_empty() && !recent.is_full() {
        recent.push(StoredWord {
            number,
            before: words[number],
            after: value,
        });
    } else {
        note_recent(stored, recent, words);
        stored.note(number / WORDS_IN_LINE, words);
    }
}

/// Notes the lines of the recent stores, with their words as they were before these, and forgets the stores.
#[inline]
pub(crate) fn note_recent(stored: &mut StoredLines, recent: &mut RecentStores, words: &mut [u64])
    requires all { length words.old ≡ stored.old.total }
    requires held { AreHeld recent.old words.old }
    ensures same { words.new ≡ words.old }
    ensures none { recent.new ≡ [] }
    ensures total { stored.new.total ≡ stored.old.total }
    ensures before { words_before stored.new.rows stored.new.kept words.old ≡ words_before stored.old.rows stored.old.kept (taken_back recent.old words.old) }
{
    if recent.as_slice().is_empty() {
        return;
    }
    note_all(stored, recent.as_slice(), words);
    recent.forget();
}

/// Does so for some stores.
fn note_all(stored: &mut StoredLines, stores: &[StoredWord], words: &mut [u64])
    requires all { length words.old ≡ stored.old.total }
    requires held { AreHeld stores.now words.old }
    ensures same { words.new ≡ words.old }
    ensures total { stored.new.total ≡ stored.old.total }
    ensures before { words_before stored.new.rows stored.new.kept words.old ≡ words_before stored.old.rows stored.old.kept (taken_back stores.now words.old) }
{
    take_back(words, stores);
    note_each(stored, stores, words);
    do_again(words, stores);
}

/// Takes stores back, the last first.
fn take_back(words: &mut [u64], stores: &[StoredWord])
    requires within { AreWithin stores.now (length words.old) }
    ensures { words.new ≡ taken_back stores.now words.old }
{
    for place in (0..stores.len()).rev() {
        let store = stores[place];
        words[store.number] = store.before;
    }
}

/// Does stores again, in turn.
fn do_again(words: &mut [u64], stores: &[StoredWord])
    requires within { AreWithin stores.now (length words.old) }
    ensures { words.new ≡ done_again stores.now words.old }
{
    for store in stores {
        words[store.number] = store.after;
    }
}

/// Notes the line of each store.
fn note_each(stored: &mut StoredLines, stores: &[StoredWord], words: &[u64])
    requires all { length words.now ≡ stored.old.total }
    requires within { AreWithin stores.now (length words.now) }
    ensures total { stored.new.total ≡ stored.old.total }
    ensures before { (after : List ℕ) (i : ℕ) → i < length words.now → (IsElsewhere stores.now (length stores.now) i → get_or after i 0 ≡ get_or words.now i 0)
        → word_before stored.new.rows stored.new.kept after i ≡ word_before stored.old.rows stored.old.kept words.now i }
{
    for store in stores {
        stored.note(store.number / WORDS_IN_LINE, words);
    }
}
