//! How the tests check. Each test is proved too, and a call of one of these costs its proof less than an `assert!` of its
//! own.

use std::process::Abort;

/// Ends the test where this doesn't hold.
pub fn check(rt: &impl Abort, holds: bool, what: &str) {
    if !holds {
        rt.panic(what);
    }
}

/// The same of a row, a place or another number, which is told too.
pub fn check_at(rt: &impl Abort, holds: bool, what: &str, at: u64) {
    assert!(rt; holds, "{what}, at {at}");
}
