//! A number of an inode as its log is read, with the entry that holds it: the one without which it would be another.

ghost use Rattle.std.specs.Prelude.{◌≡◌, ℕ, None, Some};
ghost use Rattle.nv_inspect.specs.Held.{Loses, Marks, SaysWord};

/// A number, and the place of the entry that holds it among the entries of the log.
#[derive(Clone, Copy)]
pub(crate) struct Word {
    pub value: u64,
    pub holder: Option<u64>,
}

impl Word {
    /// A number of which no entry said anything.
    pub fn new(value: u64) -> Word
        ensures { result ≡ record { value = value; holder = None } }
    {
        Word {
            value,
            holder: None,
        }
    }

    /// Takes what the entry at place `by` says of the number, if it says anything, and marks the entry that held it.
    pub fn say(&mut self, said: Option<u64>, by: u64, takers: &mut [Option<u64>])
        ensures word { SaysWord by said self.old self.new }
        ensures marks { Marks by (Loses said self.old.holder) takers.old takers.new }
    {
        if let Some(value) = said {
            mark(takers, self.holder, by);
            self.holder = if self.value == value { None } else { Some(by) };
            self.value = value;
        }
    }
}

/// Marks an entry, if there is one, with the place of the entry that takes something from it.
pub(crate) fn mark(takers: &mut [Option<u64>], holder: Option<u64>, by: u64)
    ensures { Marks by (λ (k : ℕ). holder ≡ Some k) takers.old takers.new }
{
    if let Some(place) = holder {
        if place < takers.len() as u64 {
            takers[place as usize] = Some(by);
        }
    }
}
