//! Makes a file system in memory, writes a file, and reads it.
#![tactic(auto)]

use anyhow::Result;
use indiumlark::{Cpu, Fs, MemRegion, Time, format};

fn greet<R: Print>(rt: &R, fs: &mut Fs<MemRegion>) -> Result<()> {
    fs.create(Cpu(0), b"/hello", 420, Time(1))?;
    fs.write(Cpu(0), b"/hello", 0, b"hi there", Time(2))?;
    let bytes = fs.read(b"/hello", 0, 100)?;
    println!(rt; "{}", bytes.escape_ascii())?;
    Ok(())
}

fn main(rt: HostRuntime) -> Result<()> {
    let mut memory = MemRegion::new(rt.alloc(), 64)?;
    format(&mut memory, 2, 1, 0)?;
    let mut fs = Fs::mount(rt.alloc(), memory).map_err(|(_memory, error)| error)?;
    greet(&rt, &mut fs)
}
