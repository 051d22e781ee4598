//! A stop that is set for the next command.

ghost use Rattle.std.specs.Prelude.{◌≡◌, false};

use nv_region::{Fuse, Keep};

/// The fuse that the next command sets on its memory, and what is kept of the region where it burns.
#[derive(Clone, Copy, PartialEq, Eq)]
pub struct Stop {
    pub fuse: Fuse,
    pub keep: Keep,
}

impl Stop {
    ghost use Rattle.nv_session.specs.Sessions.{is_armed};

    /// No stop.
    pub fn none() -> Stop
        ensures { is_armed result ≡ false }
    {
        Stop {
            fuse: Fuse::Off,
            keep: Keep::All,
        }
    }
}
