//! The power fails within a call.

use anyhow::Result;
use indiumlark::{Cpu, Fs, Fuse, Keep, MemRegion, Refusal, Time, format};
use std::alloc::Global;

fn made(alloc: Global) -> Result<Fs<MemRegion>> {
    let mut memory = MemRegion::new(alloc, 64)?;
    format(&mut memory, 2, 1, 0)?;
    Ok(Fs::mount(alloc, memory).map_err(|(_memory, error)| error)?)
}

fn write(fs: &mut Fs<MemRegion>) -> std::result::Result<(), Refusal> {
    fs.mkdir(Cpu(0), b"/notes", 493, Time(1))?;
    fs.create(Cpu(0), b"/notes/first", 420, Time(2))?;
    fs.write(Cpu(0), b"/notes/first", 0, b"hi there\n", Time(3))
}

fn list<R: Print>(rt: &R, fs: &Fs<MemRegion>) -> Result<()> {
    for entry in &fs.list(b"/notes")? {
        println!(rt; "inode {} is {}", entry.inode, entry.name.escape_ascii())?;
    }
    let bytes = fs.read(b"/notes/first", 0, 100)?;
    Ok(println!(rt; "it holds {}", bytes.escape_ascii())?)
}

fn use_until_power_fails<R: Print>(rt: &R, fs: &mut Fs<MemRegion>) -> Result<()> {
    write(fs)?;
    list(rt, fs)?;
    fs.set_fuse(Fuse::After(2));
    if let Err(refusal) = fs.rename(Cpu(0), b"/notes/first", b"/second", Time(4)) {
        println!(rt; "rename: {refusal}")?;
    }
    Ok(())
}

/// Writes a file, loses power while it is renamed, and mounts what is left.
pub(crate) fn lose<R: Print>(rt: &R, alloc: Global) -> Result<()> {
    let mut fs = made(alloc)?;
    use_until_power_fails(rt, &mut fs)?;
    let left = fs.into_memory().after_stop(Keep::Alternate);
    let fs = Fs::mount(alloc, left).map_err(|(_memory, error)| error)?;
    list(rt, &fs)
}
