//! The numbers that calls take beside paths, each a type of its own: no call can be given one for the other.

ghost use Rattle.std.specs.Prelude.{◌≡◌};

use std::marker::Model;

/// The number of a CPU, from 0 on: a call takes its blocks from this CPU's pool, and new inodes from its table.
#[derive(Clone, Copy)]
pub struct Cpu(pub u64);

impl Model for Cpu {
    ghost use Rattle.std.specs.Prelude.{ℕ};

    ghost Value = { ℕ };

    ghost view = { λ cpu. cpu.0 };

    ghost inverse = { λ number. record { 0 = number } };
}

impl From<u64> for Cpu {
    ghost from_gives = { λ number cpu. cpu ≡ number };

    fn from(number: u64) -> Cpu {
        Cpu(number)
    }
}

/// A time that the caller gives, in a unit of its own: a call writes it into what it changes, and never compares it.
#[derive(Clone, Copy)]
pub struct Time(pub u64);

impl Model for Time {
    ghost use Rattle.std.specs.Prelude.{ℕ};

    ghost Value = { ℕ };

    ghost view = { λ time. time.0 };

    ghost inverse = { λ number. record { 0 = number } };
}

impl From<u64> for Time {
    ghost from_gives = { λ number time. time ≡ number };

    fn from(number: u64) -> Time {
        Time(number)
    }
}
