//! A file system in words that the caller lends: when the mount is gone, what was written is in them.

use anyhow::Result;
use indiumlark::{Cpu, Fs, Time, WordRegion, format};
use std::alloc::Global;

fn format_words(alloc: Global, words: &mut [u64]) -> Result<()> {
    let mut memory = WordRegion::from_words(alloc, words)?;
    format(&mut memory, 1, 1, 0)?;
    Ok(())
}

fn mounted(alloc: Global, words: &mut [u64]) -> Result<Fs<WordRegion<'_>>> {
    let memory = WordRegion::from_words(alloc, words)?;
    match Fs::mount(alloc, memory) {
        Ok(fs) => Ok(fs),
        Err((_memory, error)) => Err(error.into()),
    }
}

fn greet(fs: &mut Fs<WordRegion<'_>>) -> Result<()> {
    fs.create(Cpu(0), b"/hello", 420, Time(1))?;
    fs.write(Cpu(0), b"/hello", 0, b"hi there", Time(2))?;
    Ok(())
}

fn show<R: Print>(rt: &R, fs: &Fs<WordRegion<'_>>) -> Result<()> {
    let bytes = fs.read(b"/hello", 0, 100)?;
    println!(rt; "{}", bytes.escape_ascii())?;
    Ok(())
}

fn write(alloc: Global, words: &mut [u64]) -> Result<()> {
    format_words(alloc, words)?;
    let mut fs = mounted(alloc, words)?;
    greet(&mut fs)
}

/// Writes a file, and reads it where the words are mounted again.
pub(crate) fn write_and_read<R: AllocGlobal + Print>(rt: &R) -> Result<()> {
    let mut words = vec![in rt.alloc(); 0; 16 * 512]?;
    write(rt.alloc(), &mut words)?;
    let fs = mounted(rt.alloc(), &mut words)?;
    show(rt, &fs)
}
