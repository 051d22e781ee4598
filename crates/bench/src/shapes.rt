//! What is measured: a call, made at each of many paths.

use crate::calls::Call;

/// A call at paths that begin alike and end in rising numbers, made at each of them so many times.
#[derive(Clone, Copy)]
pub(crate) struct Shape {
    pub label: &'static str,
    pub call: Call,
    pub front: &'static str,
    /// What the second paths begin with.
    pub other: &'static str,
    /// In so many directories, whose numbers stand at the end of the front; 0 for none.
    pub directories: u64,
    /// Of the numbers below what the program is given, from this sixth part on.
    pub first_part: u64,
    /// Up to this sixth part, and at most so many.
    pub end_part: u64,
    pub most: u64,
    pub times: u64,
    /// How many bytes are written or read, each time so many further on.
    pub bytes: usize,
}

const PARTS: u64 = 6;

/// The number at which a sixth part of the numbers below `all` begins.
pub(crate) fn part_start(all: u64, part: u64) -> u64 {
    if part < PARTS {
        (all / PARTS).wrapping_mul(part)
    } else {
        all
    }
}

/// A call at the files in 16 directories.
const FILES: Shape = Shape {
    label: "",
    call: Call::Stat,
    front: "/d",
    other: "",
    directories: 16,
    first_part: 0,
    end_part: PARTS,
    most: u64::MAX,
    times: 8,
    bytes: 0,
};

pub(crate) const ON_FILES: [Shape; 11] = [
    Shape {
        label: "mkdir of directories",
        call: Call::Mkdir,
        directories: 0,
        most: 16,
        times: 1,
        ..FILES
    },
    Shape {
        label: "mkdir",
        call: Call::Mkdir,
        front: "/e",
        directories: 0,
        most: 1000,
        times: 1,
        ..FILES
    },
    Shape {
        label: "create",
        call: Call::Create,
        times: 1,
        ..FILES
    },
    Shape {
        label: "write 4 KiB, fresh",
        call: Call::Write,
        bytes: 4096,
        ..FILES
    },
    Shape {
        label: "write 4 KiB, over",
        call: Call::Write,
        bytes: 4096,
        ..FILES
    },
    Shape {
        label: "read 4 KiB",
        call: Call::Read,
        bytes: 4096,
        ..FILES
    },
    Shape {
        label: "stat",
        ..FILES
    },
    Shape {
        label: "set_attr",
        call: Call::SetAttr,
        ..FILES
    },
    Shape {
        label: "write 1 MiB, fresh",
        call: Call::Write,
        most: 16,
        times: 1,
        bytes: 1_048_576,
        ..FILES
    },
    Shape {
        label: "write 1 MiB, over",
        call: Call::Write,
        most: 16,
        times: 1,
        bytes: 1_048_576,
        ..FILES
    },
    Shape {
        label: "read 1 MiB",
        call: Call::Read,
        most: 16,
        times: 1,
        bytes: 1_048_576,
        ..FILES
    },
];

/// A call at the files in the root.
const NAMES: Shape = Shape {
    label: "",
    call: Call::Stat,
    front: "/file",
    other: "",
    directories: 0,
    first_part: 0,
    end_part: PARTS,
    most: u64::MAX,
    times: 1,
    bytes: 0,
};

pub(crate) const ON_NAMES: [Shape; 9] = [
    Shape {
        label: "mkdir of the other",
        call: Call::Mkdir,
        front: "/b",
        most: 1,
        ..NAMES
    },
    Shape {
        label: "create",
        call: Call::Create,
        ..NAMES
    },
    Shape {
        label: "link into the other",
        call: Call::Link,
        other: "/b0/file",
        ..NAMES
    },
    Shape {
        label: "list",
        call: Call::List,
        front: "/b",
        most: 1,
        times: 8,
        ..NAMES
    },
    Shape {
        label: "stat",
        times: 8,
        ..NAMES
    },
    Shape {
        label: "rename within one",
        call: Call::Rename,
        other: "/name",
        end_part: 1,
        ..NAMES
    },
    Shape {
        label: "rename across two",
        call: Call::Rename,
        front: "/name",
        other: "/b0/name",
        end_part: 1,
        ..NAMES
    },
    Shape {
        label: "unlink of a link",
        call: Call::Unlink,
        front: "/b0/file",
        ..NAMES
    },
    Shape {
        label: "unlink of a last name",
        call: Call::Unlink,
        first_part: 1,
        ..NAMES
    },
];
