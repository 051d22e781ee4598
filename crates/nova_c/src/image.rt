//! The words of an image, which the caller hands over: those of a mapped file, say.

ghost use Rattle.std.specs.Prelude.{◌≡◌, ℕ, List};
ghost use Rattle.std.specs.Coded.{coded_list, coded_ℕ};
ghost use Rattle.nova_c.specs.Image.{words_at};

use std::marker::Model;
use std::slice::from_raw_parts_mut;

/// So many words of 64 bits at an address that is a multiple of 8. Whoever hands them over leaves them alone from then on.
#[repr(C)]
#[derive(Drop)]
pub struct NovaImage {
    pub(crate) at: *mut u64,
    pub count: usize,
    pub ghost words: { List ℕ } by { coded_list coded_ℕ },
}

impl Model for NovaImage {
    ghost also_owns = { λ w. words_at w.at w.count w.words };
}

impl NovaImage {
    /// The words, for good.
    pub(crate) fn into_words<'a>(self) -> &'a mut [u64]
        ensures { result.now ≡ self.words }
    {
        let NovaImage { at, count } = self;
        unsafe { from_raw_parts_mut(at, count) }
    }
}
