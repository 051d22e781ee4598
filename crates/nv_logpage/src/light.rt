//! What reading a log finds, with each name left where it stands.

ghost use Rattle.std.specs.Prelude.{◌≡◌};
ghost use Rattle.nv_entry.specs.Light.{CanBeRead};
ghost use Rattle.nv_logpage.specs.Light.{placed_in, finding_in, FindsName};

use crate::found::{Finding, LogEnd, Placed};
use nv_entry::LightEntry;
use nv_region::Pmem;

/// An entry with its address in bytes, but for the bytes of its name.
#[derive(Clone, Copy, PartialEq, Eq)]
pub struct LightPlaced {
    pub at: u64,
    pub entry: LightEntry,
}

/// What is found at one place of a log, but for the bytes of a name.
#[derive(Clone, Copy, PartialEq, Eq)]
pub enum LightFinding {
    /// An entry of the log, which is no next-page entry.
    Entry(LightPlaced),
    /// The log goes on at this byte address, where a page begins.
    Page(u64),
    /// The log ends: at its tail, or by a fault.
    End(Option<LogEnd>),
}

impl LightPlaced {
    /// The entry with its name, if it has one, as the name stands in this region.
    pub fn read<P: Pmem>(&self, memory: &P) -> Placed
        requires { CanBeRead (P.region memory.now) self.now.entry }
        ensures { result ≡ placed_in (P.region memory.now) self.now }
    {
        Placed {
            at: self.at,
            entry: self.entry.read(memory),
        }
    }
}

impl LightFinding {
    /// The finding with the entry's name, if it has one, as the name stands in this region.
    pub fn read<P: Pmem>(&self, memory: &P) -> Finding
        requires { FindsName (P.region memory.now) self.now }
        ensures { result ≡ finding_in (P.region memory.now) self.now }
    {
        match self {
            LightFinding::Entry(placed) => Finding::Entry(placed.read(memory)),
            LightFinding::Page(address) => Finding::Page(*address),
            LightFinding::End(fault) => Finding::End(*fault),
        }
    }
}
