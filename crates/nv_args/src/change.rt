//! How an image can be changed by one call.

/// A change of an image, as the words of a command name it. Each path is one in the image, but for that of a file of the host.
#[derive(Clone, Copy)]
pub enum NamedChange<'a> {
    /// Make a directory.
    Mkdir {
        path: &'a str,
    },
    /// Take a name of a file away, and with the last one the file.
    Rm {
        path: &'a str,
    },
    /// Take a directory without names away.
    Rmdir {
        path: &'a str,
    },
    /// Give a file or a directory another name in place of one.
    Mv {
        old: &'a str,
        new: &'a str,
    },
    /// Give a file one more name.
    Ln {
        old: &'a str,
        new: &'a str,
    },
    /// Cut a file at so many bytes, or lengthen it to them by zeros.
    Truncate {
        path: &'a str,
        size: u64,
    },
    /// Set a mode below 4096.
    Chmod {
        path: &'a str,
        mode: u32,
    },
    /// Set an owner, and a group where there is one.
    Chown {
        path: &'a str,
        owner: u32,
        group: Option<u32>,
    },
    /// Write the bytes of a file of the host to a file.
    Put {
        host: &'a str,
        path: &'a str,
    },
}
