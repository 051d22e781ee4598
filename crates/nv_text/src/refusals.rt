//! Why a command is refused, and the names under which a script prints it.

ghost use Rattle.std.specs.Prelude.{◌≡◌, Some};
ghost use Rattle.nv_text.specs.Refusals.{refusal_name};

use nv_format::FormatRefusal;
use nv_super::SuperFault;
use nv_tree::Refusal as CallRefusal;
use std::fmt;

/// Why a command is refused.
#[derive(Clone, Copy, PartialEq, Eq)]
pub enum Refusal {
    /// There is no region.
    NoRegion,
    /// Nothing is mounted.
    NotMounted,
    /// An address that is no multiple of 8, or whose word isn't in the region.
    Address,
    /// More bytes than the region has.
    Length,
    /// A number of workers that isn't from 1 to 64.
    Workers,
    /// A number in a schedule that is no worker.
    Schedule,
    /// No region is made of these numbers.
    Format(FormatRefusal),
    /// The superblock isn't accepted.
    Super(SuperFault),
    /// A file call is refused.
    Call(CallRefusal),
}

impl Refusal {
    /// The name that a script prints.
    pub fn name(self) -> &'static str
        ensures { result.now ≡ refusal_name self }
    {
        match self {
            Refusal::NoRegion => "NoRegion",
            Refusal::NotMounted => "NotMounted",
            Refusal::Address => "Address",
            Refusal::Length => "Length",
            Refusal::Workers => "Workers",
            Refusal::Schedule => "Schedule",
            Refusal::Format(refusal) => refusal.name(),
            Refusal::Super(fault) => fault.name(),
            Refusal::Call(refusal) => refusal.name(),
        }
    }
}

impl fmt::Display for Refusal {
    ghost output = { λ refusal. Some (refusal_name refusal) };

    fn fmt<W: fmt::Write>(&self, f: &mut fmt::Formatter<W>) -> fmt::Result {
        f.write_str(self.name())
    }
}
