//! Hints on standard error.

use nv_script::{Hint, Hints};

/// Prints each hint as a line on standard error. Where that fails, the hint is left out.
#[derive(Clone, Copy)]
pub(crate) struct ErrorOutput<'a, H> {
    pub rt: &'a H,
}

impl<H: Eprint> Hints for ErrorOutput<'_, H> {
    fn give(&mut self, hint: Hint) {
        let _ = eprintln!(self.rt; "{hint}");
    }
}
