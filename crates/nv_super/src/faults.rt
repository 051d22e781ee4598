//! What can be wrong with a region: the faults with their fields, their order and their texts, and the names of a
//! superblock's faults.

ghost use Rattle.std.specs.Prelude.{◌≡◌};

use crate::order::{FaultKey, short_key};
use crate::owners::Owner;
use crate::superblock::SuperFault;
use std::fmt;

/// A fault. Faults rise by class as the classes stand here, and then by their fields from left to right.
/// Addresses and places are in bytes from the start of the region.
#[derive(Clone, Copy)]
pub enum Fault {
    /// A journal's pointer is 252 or more.
    J1 { cpu: u64 },
    /// The address of a pending record isn't permitted.
    J2 { cpu: u64, record: u64 },
    /// A link of a table's chain doesn't lead to a data block.
    H1 { cpu: u64, at: u64 },
    /// A link of a table's chain leads to a block that was read before in this chain.
    H2 { cpu: u64, at: u64 },
    /// The valid word is neither 0 nor 1.
    I1 { inode: u64 },
    /// Valid, but of no kind.
    I2 { inode: u64 },
    /// In use, with a head or a tail that isn't right.
    I3 { inode: u64 },
    /// The address of the next log page isn't right.
    L1 { inode: u64, at: u64 },
    /// The next log page was read before in this log.
    L2 { inode: u64, at: u64 },
    /// No entry is spelled here.
    L3 { inode: u64, at: u64 },
    /// An entry in the tail's page ends past the tail, or leads to another page.
    L4 { inode: u64, at: u64 },
    /// The content of an entry is out of range.
    E1 { inode: u64, at: u64 },
    /// An entry that this kind of inode doesn't have.
    E2 { inode: u64, at: u64 },
    /// A present name is added.
    E3 { inode: u64, at: u64 },
    /// An absent name is removed.
    E4 { inode: u64, at: u64 },
    /// The inode of a name isn't in use.
    C1 { directory: u64, at: u64 },
    /// A directory that isn't named exactly once; the root, if it is named.
    C2 { inode: u64 },
    /// A file whose link count isn't its number of names.
    C3 { inode: u64 },
    /// In use and not reached by names from the root.
    C4 { inode: u64 },
    /// Inode 1 isn't a directory in use.
    C5,
    /// A block with more than one owner, once for each of them.
    B1 { block: u64, owner: Owner },
}

impl Fault {
    ghost use Rattle.std.specs.Prelude.{◌≡◌};
    ghost use Rattle.nv_super.specs.Order.{fault_key};
    ghost use Rattle.nv_super.specs.Keys.{fault_fields};

    /// What faults are compared by.
    pub(crate) fn key(&self) -> FaultKey
        ensures { fault_fields result ≡ fault_key self.now }
    {
        match self {
            Fault::J1 { cpu } => short_key(0, *cpu, 0),
            Fault::J2 { cpu, record } => short_key(1, *cpu, *record),
            Fault::H1 { cpu, at } => short_key(2, *cpu, *at),
            Fault::H2 { cpu, at } => short_key(3, *cpu, *at),
            Fault::I1 { inode } => short_key(4, *inode, 0),
            Fault::I2 { inode } => short_key(5, *inode, 0),
            Fault::I3 { inode } => short_key(6, *inode, 0),
            Fault::L1 { inode, at } => short_key(7, *inode, *at),
            Fault::L2 { inode, at } => short_key(8, *inode, *at),
            Fault::L3 { inode, at } => short_key(9, *inode, *at),
            Fault::L4 { inode, at } => short_key(10, *inode, *at),
            Fault::E1 { inode, at } => short_key(11, *inode, *at),
            Fault::E2 { inode, at } => short_key(12, *inode, *at),
            Fault::E3 { inode, at } => short_key(13, *inode, *at),
            Fault::E4 { inode, at } => short_key(14, *inode, *at),
            Fault::C1 { directory, at } => short_key(15, *directory, *at),
            Fault::C2 { inode } => short_key(16, *inode, 0),
            Fault::C3 { inode } => short_key(17, *inode, 0),
            Fault::C4 { inode } => short_key(18, *inode, 0),
            Fault::C5 => short_key(19, 0, 0),
            Fault::B1 { block, owner } => {
                let key = owner.key();
                FaultKey {
                    class: 20,
                    first: *block,
                    second: key.kind,
                    third: key.first,
                    fourth: key.second,
                    fifth: key.third,
                }
            }
        }
    }
}

impl fmt::Display for Fault {
    ghost use Rattle.std.specs.Prelude.{Some};
    ghost use Rattle.nv_super.specs.FaultText.{fault_text};

    ghost output = { λ fault. Some (fault_text fault) };

    fn fmt<W: fmt::Write>(&self, f: &mut fmt::Formatter<W>) -> fmt::Result {
        f.write_str(self.class())?;
        self.write_fields(f)
    }
}

/// Shows it as it is printed.
impl fmt::Debug for Fault {
    ghost use Rattle.std.specs.Prelude.{Some};
    ghost use Rattle.nv_super.specs.FaultText.{fault_text};

    ghost debug_output = { λ fault. Some (fault_text fault) };

    fn fmt<W: fmt::Write>(&self, f: &mut fmt::Formatter<W>) -> fmt::Result {
        fmt::Display::fmt(self, f)
    }
}

impl Fault {
    ghost use Rattle.std.specs.Prelude.{drop};
    ghost use Rattle.std.specs.Fmt.{WritesOnOk};
    ghost use Rattle.nv_super.specs.FaultText.{fault_text};

    // What its text has behind the name of its class.
    fn write_fields<W: fmt::Write>(&self, f: &mut fmt::Formatter<W>) -> fmt::Result
        ensures { WritesOnOk W.write_str_gives f.old result (drop 2 (fault_text self.now)) f.new }
    {
        // Its key has the fields as numbers, from left to right.
        let key = self.key();
        let first = key.first;
        let second = key.second;
        match self {
            Fault::J1 { .. } => write!(f, " cpu {first}"),
            Fault::J2 { .. } => write!(f, " cpu {first} record {second}"),
            Fault::H1 { .. } | Fault::H2 { .. } => write!(f, " cpu {first} at {second}"),
            Fault::I1 { .. }
            | Fault::I2 { .. }
            | Fault::I3 { .. }
            | Fault::C2 { .. }
            | Fault::C3 { .. }
            | Fault::C4 { .. } => write!(f, " inode {first}"),
            Fault::L1 { .. }
            | Fault::L2 { .. }
            | Fault::L3 { .. }
            | Fault::L4 { .. }
            | Fault::E1 { .. }
            | Fault::E2 { .. }
            | Fault::E3 { .. }
            | Fault::E4 { .. }
            | Fault::C1 { .. } => write!(f, " inode {first} at {second}"),
            Fault::C5 => Ok(()),
            Fault::B1 { owner, .. } => write!(f, " block {first} {owner}"),
        }
    }
}

impl SuperFault {
    ghost use Rattle.nv_super.specs.FaultText.{super_fault_name};

    /// Its name, from S1 to S7 in the order of the tests.
    pub fn name(self) -> &'static str
        ensures { result.now ≡ super_fault_name self }
    {
        match self {
            SuperFault::Length => "S1",
            SuperFault::Magic => "S2",
            SuperFault::Version => "S3",
            SuperFault::Cpus => "S4",
            SuperFault::Blocks => "S5",
            SuperFault::Tables => "S6",
            SuperFault::State => "S7",
        }
    }
}
