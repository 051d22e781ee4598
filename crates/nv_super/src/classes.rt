//! The classes of faults, and of refused superblocks: one table of their names and of what they mean, in their order.

ghost use Rattle.std.specs.Prelude.{◌≡◌, ◌<◌, [], get_or, map};
ghost use Rattle.nv_super.specs.Classes.{class_names, class_of};

use crate::faults::Fault;

/// A class of faults, or of refused superblocks.
#[derive(Clone, Copy)]
pub struct FaultClass {
    /// With this the text of a fault begins.
    pub name: &'static str,
    pub title: &'static str,
    /// What such a fault is, and what becomes of what it is found in.
    pub meaning: &'static str,
}

/// How many classes of faults there are, which stand first.
pub const FAULT_CLASS_COUNT: usize = 21;

const REFUSED: &str =
    "The superblock isn't accepted, so nothing is read and nothing changes. Of several that apply the first is named.";

/// The classes, in the order of their faults.
pub const FAULT_CLASSES: [FaultClass; 28] = [
    FaultClass {
        name: "J1",
        title: "a journal's pointer is wrong",
        meaning: "fault J1 cpu C. The dequeue or the enqueue number of the journal of CPU C is 252 or more, so nobody can say which of its records are pending. The journal is left alone: a call on several inodes that was stopped half-way on this CPU stays half done.",
    },
    FaultClass {
        name: "J2",
        title: "a journal's record names a wrong word",
        meaning: "fault J2 cpu C record K. The pending record K names an address that no journal may name, so it was skipped; the other records were rolled back. Only the first recovery shows it: then no record is pending any more.",
    },
    FaultClass {
        name: "H1",
        title: "a link of a table's chain leads to no data block",
        meaning: "fault H1 cpu C at A. In the chain of CPU C the link at A is neither 0 nor the start of a data block, so the chain ends there. Only version 2 of the layout has chains.",
    },
    FaultClass {
        name: "H2",
        title: "the chain of a table leads back into itself",
        meaning: "fault H2 cpu C at A. In the chain of CPU C the link at A leads to a block that was read before, so the chain ends there. Only version 2 of the layout has chains.",
    },
    FaultClass {
        name: "I1",
        title: "a slot is neither in use nor unused",
        meaning: "fault I1 inode I. The valid word is neither 0 nor 1. The inode counts as not in use: it owns no block, and a name of it leads nowhere (C1).",
    },
    FaultClass {
        name: "I2",
        title: "a slot is of no kind",
        meaning: "fault I2 inode I. The slot is valid, but its kind is neither 1, a file, nor 2, a directory. The inode counts as not in use.",
    },
    FaultClass {
        name: "I3",
        title: "an inode's log can't be found",
        meaning: "fault I3 inode I. The head isn't the first byte of a data block, or the tail can't be a tail. The inode is in use with its kind, but nothing of its log is read: it has no page and no name, and else the defaults and its creation time.",
    },
    FaultClass {
        name: "L1",
        title: "a log leads nowhere",
        meaning: "fault L1 inode I at A. The link at A is to lead to the log's next page, but its value isn't the start of a data block. The log ends there; what was read before it counts.",
    },
    FaultClass {
        name: "L2",
        title: "a log leads back into itself",
        meaning: "fault L2 inode I at A. The link at A leads to a page that this log was read through already. The log ends there.",
    },
    FaultClass {
        name: "L3",
        title: "something in a log is no entry",
        meaning: "fault L3 inode I at A. At A an entry is to begin, but what stands there spells none: its type, operation, length or filling is wrong, or it leaves the page. The log ends there. A tail that is too far gives this too.",
    },
    FaultClass {
        name: "L4",
        title: "an entry passes the tail",
        meaning: "fault L4 inode I at A. In the tail's page the entry at A ends past the tail, or leads to a next page. The log ends before that entry.",
    },
    FaultClass {
        name: "E1",
        title: "an entry says what can't be",
        meaning: "fault E1 inode I at A. The entry at A is well spelled, but a number or a name in it is out of range. It doesn't count, and the log is read on.",
    },
    FaultClass {
        name: "E2",
        title: "an entry of the wrong kind",
        meaning: "fault E2 inode I at A. A directory has an entry that only files have, a write or a number of links, or a file has a name. It doesn't count, and the log is read on.",
    },
    FaultClass {
        name: "E3",
        title: "a name is added twice",
        meaning: "fault E3 inode I at A. The directory I has the name already when the entry at A adds it. The later entry counts: the name stands for its inode.",
    },
    FaultClass {
        name: "E4",
        title: "a name is removed that isn't there",
        meaning: "fault E4 inode I at A. The entry at A removes a name that the directory doesn't have at that point. No name changes.",
    },
    FaultClass {
        name: "C1",
        title: "a name of nothing",
        meaning: "fault C1 inode D at A. Directory D has a name, added by the entry at A, for an inode that isn't in use. The name is shown all the same.",
    },
    FaultClass {
        name: "C2",
        title: "a directory with no name, or more than one",
        meaning: "fault C2 inode I. A directory other than the root has to be named exactly once, and the root nowhere. A directory without a name also isn't reached (C4).",
    },
    FaultClass {
        name: "C3",
        title: "a file with another number of links than names",
        meaning: "fault C3 inode I. The file's link count isn't the number of its names, over all directories in use. A file that was lost from its directory has both C3 and C4.",
    },
    FaultClass {
        name: "C4",
        title: "an inode that no path reaches",
        meaning: "fault C4 inode I. The inode is in use, but no way of names leads from the root to it. It holds its blocks.",
    },
    FaultClass {
        name: "C5",
        title: "there is no root",
        meaning: "fault C5. Inode 1 isn't a directory in use. So nothing is reached, and each inode in use has C4 as well.",
    },
    FaultClass {
        name: "B1",
        title: "a block with two owners",
        meaning: "fault B1 block B log I K, or data I P, or table C K. Block B has several owners, and there is a line for each: page K of the log of inode I, page P of the file I, or place K of the chain of CPU C's table. What one of them stored there the other may have overwritten, and nothing says which is right.",
    },
    FaultClass {
        name: "S1",
        title: "the length can't be a region's: a file that was cut, or no image at all",
        meaning: REFUSED,
    },
    FaultClass {
        name: "S2",
        title: "the magic is another: no image, or format was stopped",
        meaning: REFUSED,
    },
    FaultClass {
        name: "S3",
        title: "another version of the format",
        meaning: REFUSED,
    },
    FaultClass {
        name: "S4",
        title: "the number of CPUs isn't 1 to 64",
        meaning: REFUSED,
    },
    FaultClass {
        name: "S5",
        title: "the number of blocks isn't that of the file: it was cut or made longer by whole blocks",
        meaning: REFUSED,
    },
    FaultClass {
        name: "S6",
        title: "the number of table blocks isn't 1 to 64, or leaves no data block",
        meaning: REFUSED,
    },
    FaultClass {
        name: "S7",
        title: "the state is neither 0 nor 1",
        meaning: REFUSED,
    },
];

/// The name of the class with this number.
pub fn class_name(number: usize) -> &'static str
    requires { number < 28 }
    ensures { result.now ≡ get_or class_names number [] }
{
    name_in(&FAULT_CLASSES, number)
}

impl Fault {
    ghost use Rattle.std.specs.Prelude.{◌≡◌};
    ghost use Rattle.nv_super.specs.Classes.{class_of};

    /// The name of its class.
    pub fn class(&self) -> &'static str
        ensures { result.now ≡ class_of self.now }
    {
        class_name(self.key().class as usize)
    }
}

// The name of a class in the table of all.
fn name_in(classes: &[FaultClass], number: usize) -> &'static str
    requires table { map (λ class. class.name.now) classes.now ≡ class_names }
    requires within { number < 28 }
    ensures { result.now ≡ get_or class_names number [] }
{
    classes[number].name
}
