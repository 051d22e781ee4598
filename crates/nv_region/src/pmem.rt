//! Memory that keeps its words over a stop, as far as they were fenced.

ghost use Rattle.std.specs.Prelude.{◌≡◌, ◌+◌, ◌*◌, ◌≤◌, ◌%◌, ℕ, false, IsTrue, OnOk, OnErr, is_err, get_or, length, ◌<◌};
ghost use Rattle.nv_region.specs.Region.{Region, size, word, put};
ghost use Rattle.nv_region.specs.Stops.{Adds, One, NoneAdded, NothingPending};
ghost use Rattle.nv_region.specs.Lines.{Each, StoppedAmong, put_words};
ghost use Rattle.nv_region.specs.Fuses.{FuseState, KeepsFuse};

use thiserror::Error;

/// The memory has been stopped: its fuse has burnt, and nothing is stored any more.
#[derive(Clone, Copy, Debug, PartialEq, Eq, Error)]
#[error("the memory has been stopped")]
pub struct Stopped;

/// A region of 8-byte words at byte addresses, of which a stop may lose what was stored since the last fence.
///
/// Callers give addresses that are multiples of 8, of words that lie within the region.
pub trait Pmem {
    /// The region as it reads.
    ghost region: { Self → Region };

    /// A stop at this moment may leave this value in the word of this number.
    ghost may_hold: { Self → ℕ → ℕ → Type 0 };

    /// Its fuse: whether it has burnt, and which stores can burn it.
    ghost fuse: { Self → FuseState };

    /// The number of bytes.
    fn len(&self) -> u64
        ensures bytes { result ≡ size (region self.now) }
        ensures short { length (region self.now).rest < 8 };

    /// The word at a byte address.
    fn load(&self, at: u64) -> u64
        requires aligned { at % 8 ≡ 0 }
        requires within { at + 8 ≤ size (region self.now) }
        ensures { result ≡ word (region self.now) at };

    /// Stores a word at a byte address, at once and whole. A stop may lose it until the next fence.
    ///
    /// Answers `Stopped` exactly where the fuse has burnt by the end of the call. Then no word has changed, and a stop
    /// may leave no more than before.
    fn store(&mut self, at: u64, value: u64) -> Result<(), Stopped>
        requires aligned { at % 8 ≡ 0 }
        requires within { at + 8 ≤ size (region self.old) }
        ensures stored { OnOk result (region self.new ≡ put (region self.old) at value) }
        ensures may_keep { OnOk result (Adds (One at value) (may_hold self.old) (may_hold self.new)) }
        ensures refused { OnErr result (region self.new ≡ region self.old) }
        ensures refused_keep { OnErr result (NoneAdded (may_hold self.old) (may_hold self.new)) }
        ensures stopped { is_err result ≡ (fuse self.new).has_burnt }
        ensures keeps_fuse { KeepsFuse (λ limit. at + 8 ≤ limit) (fuse self.old) (fuse self.new) };

    /// Stores words in a row from a byte address on, in turn and each as by `store`. There must be one at least.
    ///
    /// Answers `Stopped` exactly where the fuse has burnt by the end of the call. Then some of the first words,
    /// or none, are stored, and no others.
    fn store_words(&mut self, at: u64, words: &[u64]) -> Result<(), Stopped>
        requires aligned { at % 8 ≡ 0 }
        requires some { 1 ≤ length words.now }
        requires within { at + 8 * length words.now ≤ size (region self.old) }
        ensures stored { OnOk result (region self.new ≡ put_words (region self.old) at words.now (length words.now)) }
        ensures may_keep { OnOk result (Adds (Each at words.now (length words.now)) (may_hold self.old) (may_hold self.new)) }
        ensures refused { OnErr result (StoppedAmong at words.now (length words.now) (region self.old) (region self.new) (may_hold self.old) (may_hold self.new)) }
        ensures stopped { is_err result ≡ (fuse self.new).has_burnt }
        ensures keeps_fuse { KeepsFuse (λ limit. at + 8 * length words.now ≤ limit) (fuse self.old) (fuse self.new) }
    {
        let _length = self.len();
        for k in 0..words.len() {
            self.store(at + 8 * k as u64, words[k])?;
        }
        Ok(())
    }

    /// After it, a stop leaves all that was stored before.
    ///
    /// Answers `Stopped` exactly where the fuse has burnt by the end of the call; a stop may leave then no more than
    /// before.
    fn fence(&mut self) -> Result<(), Stopped>
        ensures same { region self.new ≡ region self.old }
        ensures fenced { OnOk result (NothingPending (region self.new) (may_hold self.new)) }
        ensures refused_keep { OnErr result (NoneAdded (may_hold self.old) (may_hold self.new)) }
        ensures stopped { is_err result ≡ (fuse self.new).has_burnt }
        ensures keeps_fuse { KeepsFuse (λ limit. 0 ≤ limit) (fuse self.old) (fuse self.new) };

    /// Lets go of what is kept for a stop, where no fuse is set: none can come then. So a long row of stores holds little
    /// memory. No word changes, and a stop may leave no more than before. A memory that keeps nothing does nothing.
    fn forget_if_steady(&mut self)
        ensures same { region self.new ≡ region self.old }
        ensures kept { NoneAdded (may_hold self.old) (may_hold self.new) }
        ensures fuse { fuse self.new ≡ fuse self.old }
    {}

    /// A memory without a fuse hasn't burnt.
    ghost unburnt: { (m : Self) → IsTrue (fuse m).is_steady → (fuse m).has_burnt ≡ false };

    /// A memory that is open up to some address hasn't burnt.
    ghost open_unburnt: { (m : Self) (limit : ℕ) → IsTrue ((fuse m).is_open limit) → (fuse m).has_burnt ≡ false };

    /// A stop may leave each word as it reads.
    ghost holds_now: { (m : Self) (i : ℕ) → may_hold m i (get_or (region m).words i 0) };
}
