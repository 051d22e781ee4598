//! How the last recovery of a script went, which decides the exit status.

ghost use Rattle.std.specs.Prelude.{◌≡◌};
ghost use Rattle.nv_report.specs.Last.{how_it_went};

use nv_super::Fault;

/// How the last recovery went. With none at all it is `Sound`.
#[derive(Clone, Copy, PartialEq, Eq)]
pub enum Last {
    /// It found no fault.
    Sound,
    /// It found faults.
    Faulty,
    /// It was refused.
    Refused,
}

impl Last {
    ghost use Rattle.nv_report.specs.Last.{status_of};

    /// The exit status: 0, 1 where there were faults, 2 after a refusal.
    pub fn status(self) -> u8
        ensures { result ≡ status_of self }
    {
        match self {
            Last::Sound => 0,
            Last::Faulty => 1,
            Last::Refused => 2,
        }
    }
}

/// How a recovery with these faults went.
pub fn how_it_went(faults: &[Fault]) -> Last
    ensures { result ≡ how_it_went faults.now }
{
    if faults.is_empty() {
        Last::Sound
    } else {
        Last::Faulty
    }
}
