//! The calls that are measured.

use nv_calls::{Cpu, Fs, Time};
use nv_region::MemRegion;

#[derive(Clone, Copy)]
pub(crate) enum Call {
    Create,
    Mkdir,
    Link,
    Unlink,
    Rename,
    SetAttr,
    Write,
    Read,
    Stat,
    List,
}

/// Makes a call by a CPU at a path, for `link` and `rename` with another one. The bytes are written, or as many are read.
///
/// Answers whether it was done.
pub(crate) fn make(
    fs: &mut Fs<MemRegion>,
    call: Call,
    cpu: u64,
    path: &[u8],
    other: &[u8],
    offset: u64,
    bytes: &[u8],
) -> bool {
    match call {
        Call::Create => fs.create(Cpu(cpu), path, 420, Time(1)).is_ok(),
        Call::Mkdir => fs.mkdir(Cpu(cpu), path, 493, Time(1)).is_ok(),
        Call::Link => fs.link(Cpu(cpu), path, other, Time(2)).is_ok(),
        Call::Unlink => fs.unlink(Cpu(cpu), path, Time(3)).is_ok(),
        Call::Rename => fs.rename(Cpu(cpu), path, other, Time(4)).is_ok(),
        Call::SetAttr => fs.set_attr(Cpu(cpu), path, 384, 7, 8, Time(3)).is_ok(),
        Call::Write => fs.write(Cpu(cpu), path, offset, bytes, Time(2)).is_ok(),
        Call::Read => fs.read(path, offset, bytes.len() as u64).is_ok(),
        Call::Stat => fs.stat(path).is_ok(),
        Call::List => fs.list(path).is_ok(),
    }
}
