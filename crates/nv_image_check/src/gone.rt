//! Letting go of what was found in a memory.

use nv_region::Pmem;
use nv_report::Recovered;

/// Lets go of a memory and of what was found in it. Crates above do so by this call: a function that drops so much is dear to prove.
pub fn let_go<P: Pmem + Drop>(_memory: P, found: Recovered) {
    let_found_go(found);
}

/// Lets go of what was found.
pub(crate) fn let_found_go(_found: Recovered) {}
