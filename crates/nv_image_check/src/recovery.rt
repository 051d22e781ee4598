//! A recovery as the commands see it: what it found, or the refusal that is printed.

use nv_recover::Recovered;
use nv_text::Refusal;

/// What a recovery answers, but for want of memory.
#[derive(Drop)]
pub enum Answer {
    Recovered(Recovered),
    Refused(Refusal),
}
