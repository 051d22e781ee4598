//! The calls that write, as values.

ghost use Rattle.std.specs.Prelude.{◌≡◌, false};
ghost use Rattle.nv_history.specs.Called.{Called, answered_by};
ghost use Rattle.nv_history.specs.Said.{changes_names, said};
ghost use Rattle.nv_history.specs.declared.calls.Answer.TheVariants as answers;

use nv_calls::{Cpu, Data, Fs, Time};
use nv_region::Pmem;
use nv_tree::Refusal;

/// A call that writes, with what it is asked: as the methods of `Fs` have them.
#[derive(Clone, Copy)]
pub enum Call<'a> {
    /// Make a file.
    Create {
        cpu: u64,
        path: &'a [u8],
        mode: u32,
        time: u64,
    },
    /// Make a directory.
    MakeDirectory {
        cpu: u64,
        path: &'a [u8],
        mode: u32,
        time: u64,
    },
    /// Write bytes into a file, from an offset on.
    Write {
        cpu: u64,
        path: &'a [u8],
        offset: u64,
        content: Data<'a>,
        time: u64,
    },
    /// Cut a file, or lengthen it by zeros.
    SetSize {
        cpu: u64,
        path: &'a [u8],
        size: u64,
        time: u64,
    },
    /// Set the mode, owner and group of an inode.
    SetAttributes {
        cpu: u64,
        path: &'a [u8],
        mode: u32,
        owner: u32,
        group: u32,
        time: u64,
    },
    /// Give a file one more name.
    Link {
        cpu: u64,
        old: &'a [u8],
        new: &'a [u8],
        time: u64,
    },
    /// Take a name of a file away, and with the last one the file.
    Unlink {
        cpu: u64,
        path: &'a [u8],
        time: u64,
    },
    /// Take a directory without names away.
    RemoveDirectory {
        cpu: u64,
        path: &'a [u8],
        time: u64,
    },
    /// Give an inode another name in place of one.
    Rename {
        cpu: u64,
        old: &'a [u8],
        new: &'a [u8],
        time: u64,
    },
    /// Take the first page that it can do without out of the log of an inode.
    Clean {
        path: &'a [u8],
    },
    /// Make a region of version 1 one of version 2.
    Upgrade,
}

/// What a call answers that is made.
#[derive(Clone, Copy, Debug, PartialEq, Eq)]
pub enum Answer {
    /// Nothing but that.
    Done,
    /// Of `Clean` the block of the page that went, or that the log needs each of its pages.
    Cleaned(Option<u64>),
}

/// Makes a call.
///
/// Errors: those of its method.
pub fn make_call<P: Pmem + Drop>(mount: &mut Fs<P>, call: &Call<'_>) -> Result<Answer, Refusal>
    ensures { Called P.region P.may_hold P.fuse (said call.now) mount.old mount.new result }
{
    match *call {
        Call::Create {
            cpu,
            path,
            mode,
            time,
        } => done(mount.create(Cpu(cpu), path, mode, Time(time))),
        Call::MakeDirectory {
            cpu,
            path,
            mode,
            time,
        } => done(mount.mkdir(Cpu(cpu), path, mode, Time(time))),
        Call::Link {
            cpu,
            old,
            new,
            time,
        } => done(mount.link(Cpu(cpu), old, new, Time(time))),
        Call::Unlink { cpu, path, time } => done(mount.unlink(Cpu(cpu), path, Time(time))),
        Call::RemoveDirectory { cpu, path, time } => done(mount.rmdir(Cpu(cpu), path, Time(time))),
        Call::Rename {
            cpu,
            old,
            new,
            time,
        } => done(mount.rename(Cpu(cpu), old, new, Time(time))),
        _ => make_within(mount, call),
    }
}

// Makes a call that leaves the names as they are.
fn make_within<P: Pmem + Drop>(mount: &mut Fs<P>, call: &Call<'_>) -> Result<Answer, Refusal>
    requires { changes_names (said call.now) ≡ false }
    ensures { Called P.region P.may_hold P.fuse (said call.now) mount.old mount.new result }
{
    // Which page can go, and which version there is, is said by what the mount keeps before the call.
    mount.keeps();
    match *call {
        Call::Write {
            cpu,
            path,
            offset,
            content,
            time,
        } => done(mount.write_data(Cpu(cpu), path, offset, content, Time(time))),
        Call::SetSize {
            cpu,
            path,
            size,
            time,
        } => done(mount.set_size(Cpu(cpu), path, size, Time(time))),
        Call::SetAttributes {
            cpu,
            path,
            mode,
            owner,
            group,
            time,
        } => done(mount.set_attr(Cpu(cpu), path, mode, owner, group, Time(time))),
        Call::Clean { path } => cleaned(mount.clean(path)),
        Call::Upgrade => done(mount.upgrade()),
        _ => unreachable!(),
    }
}

// The answer of a call that tells nothing but that it is made.
fn done(answer: Result<(), Refusal>) -> Result<Answer, Refusal>
    ensures { result ≡ answered_by (λ made. answers.Done) answer }
{
    match answer {
        Ok(()) => Ok(Answer::Done),
        Err(refusal) => Err(refusal),
    }
}

// That of `clean`.
fn cleaned(answer: Result<Option<u64>, Refusal>) -> Result<Answer, Refusal>
    ensures { result ≡ answered_by (λ page. answers.Cleaned page) answer }
{
    match answer {
        Ok(page) => Ok(Answer::Cleaned(page)),
        Err(refusal) => Err(refusal),
    }
}
