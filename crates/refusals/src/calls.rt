//! The calls that are made, one behind the other.

use nv_calls::{Cpu, Fs, Time};
use nv_region::MemRegion;
use nv_tree::Refusal;

/// A call, by what it is for.
#[derive(Clone, Copy)]
pub(crate) enum Call {
    MakeDirectory,
    MakeDirectoryInIt,
    CreateDeep,
    Create,
    Link,
    CreateAnother,
    Write,
    WriteBehindTheEnd,
    Overwrite,
    Shorten,
    Lengthen,
    SetAttributes,
    RenameWithin,
    RenameAcross,
    List,
    Read,
    UnlinkOne,
    UnlinkLast,
    ReplaceAcross,
    ReplaceWithin,
    RemoveDirectory,
    Upgrade,
    CreateInFullTable,
}

/// All calls but the last, in their order: each can be done once those before it are.
pub(crate) const CALLS: [Call; 22] = [
    Call::MakeDirectory,
    Call::MakeDirectoryInIt,
    Call::CreateDeep,
    Call::Create,
    Call::Link,
    Call::CreateAnother,
    Call::Write,
    Call::WriteBehindTheEnd,
    Call::Overwrite,
    Call::Shorten,
    Call::Lengthen,
    Call::SetAttributes,
    Call::RenameWithin,
    Call::RenameAcross,
    Call::List,
    Call::Read,
    Call::UnlinkOne,
    Call::UnlinkLast,
    Call::ReplaceAcross,
    Call::ReplaceWithin,
    Call::RemoveDirectory,
    Call::Upgrade,
];

/// How a call is told.
pub(crate) fn name_of(call: Call) -> &'static str {
    match call {
        Call::MakeDirectory => "MakeDirectory",
        Call::MakeDirectoryInIt => "MakeDirectoryInIt",
        Call::CreateDeep => "CreateDeep",
        Call::Create => "Create",
        Call::Link => "Link",
        Call::CreateAnother => "CreateAnother",
        Call::Write => "Write",
        Call::WriteBehindTheEnd => "WriteBehindTheEnd",
        Call::Overwrite => "Overwrite",
        Call::Shorten => "Shorten",
        Call::Lengthen => "Lengthen",
        Call::SetAttributes => "SetAttributes",
        Call::RenameWithin => "RenameWithin",
        Call::RenameAcross => "RenameAcross",
        Call::List => "List",
        Call::Read => "Read",
        Call::UnlinkOne => "UnlinkOne",
        Call::UnlinkLast => "UnlinkLast",
        Call::ReplaceAcross => "ReplaceAcross",
        Call::ReplaceWithin => "ReplaceWithin",
        Call::RemoveDirectory => "RemoveDirectory",
        Call::Upgrade => "Upgrade",
        Call::CreateInFullTable => "CreateInFullTable",
    }
}

/// Makes a call.
pub(crate) fn make(fs: &mut Fs<MemRegion>, call: Call) -> Result<(), Refusal> {
    match call {
        Call::MakeDirectory => fs.mkdir(Cpu(0), b"/d", 493, Time(1)),
        Call::MakeDirectoryInIt => fs.mkdir(Cpu(0), b"/d/e", 493, Time(2)),
        Call::CreateDeep => fs.create(Cpu(0), b"/d/e/y", 420, Time(3)),
        Call::Create => fs.create(Cpu(0), b"/a", 420, Time(4)),
        Call::Link => fs.link(Cpu(0), b"/a", b"/b", Time(5)),
        Call::CreateAnother => fs.create(Cpu(0), b"/c", 420, Time(6)),
        Call::Write => fs.write(Cpu(0), b"/a", 0, &[65; 5000], Time(7)),
        Call::WriteBehindTheEnd => fs.write(Cpu(0), b"/a", 9000, &[66; 10], Time(8)),
        Call::Overwrite => fs.write(Cpu(1), b"/b", 4000, &[67; 200], Time(9)),
        Call::Shorten => fs.set_size(Cpu(0), b"/a", 4100, Time(10)),
        Call::Lengthen => fs.set_size(Cpu(0), b"/a", 9000, Time(11)),
        Call::SetAttributes => fs.set_attr(Cpu(0), b"/d", 448, 1, 2, Time(12)),
        Call::RenameWithin => fs.rename(Cpu(0), b"/c", b"/f", Time(13)),
        Call::RenameAcross => fs.rename(Cpu(0), b"/d/e", b"/e", Time(14)),
        Call::List => list(fs, b"/"),
        Call::Read => read(fs, b"/b"),
        Call::UnlinkOne => fs.unlink(Cpu(0), b"/a", Time(15)),
        Call::UnlinkLast => fs.unlink(Cpu(0), b"/b", Time(16)),
        Call::ReplaceAcross => fs.replace(Cpu(0), b"/e/y", b"/f", Time(17)),
        Call::ReplaceWithin => fs.replace(Cpu(0), b"/e", b"/d", Time(18)),
        Call::RemoveDirectory => fs.rmdir(Cpu(0), b"/d", Time(19)),
        Call::Upgrade => fs.upgrade(),
        Call::CreateInFullTable => fs.create(Cpu(0), b"/grown", 420, Time(21)),
    }
}

fn list(fs: &Fs<MemRegion>, path: &[u8]) -> Result<(), Refusal> {
    let _names = fs.list(path)?;
    Ok(())
}

fn read(fs: &Fs<MemRegion>, path: &[u8]) -> Result<(), Refusal> {
    let _bytes = fs.read(path, 0, 9000)?;
    Ok(())
}

/// Gives the 30 numbers that are unused in the table of CPU 0 to files, so that the next one makes the table grow; `None` where
/// memory is refused.
pub(crate) fn fill_table(fs: &mut Fs<MemRegion>) -> Option<()> {
    for name in 65..95u8 {
        fs.create(Cpu(0), &[b'/', name], 420, Time(20)).ok()?;
    }
    Some(())
}
