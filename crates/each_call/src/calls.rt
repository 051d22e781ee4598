//! Each call.

use anyhow::Result;
use indiumlark::{Cpu, Data, Fs, MemRegion, Pmem, Refusal, Time, format};
use std::thread::Threads;

fn mounted<R: AllocGlobal + Threads + Sync>(rt: &R) -> Result<Fs<MemRegion>> {
    let mut memory = MemRegion::new(rt.alloc(), 64)?;
    format(&mut memory, 2, 1, 0)?;
    Ok(Fs::mount_with(rt, rt.alloc(), memory, 2).map_err(|(_memory, error)| error)?)
}

fn write(fs: &mut Fs<MemRegion>, cpu: Cpu) -> std::result::Result<(), Refusal> {
    fs.mkdir(cpu, b"/notes", 493, Time(1))?;
    fs.create(cpu, b"/notes/first", 420, Time(2))?;
    fs.write(cpu, b"/notes/first", 0, b"hi there", Time(3))?;
    fs.write_data(cpu, b"/notes/first", 8, Data::Given(b"!!!"), Time(4))?;
    fs.set_size(cpu, b"/notes/first", 9, Time(5))?;
    fs.set_attr(cpu, b"/notes/first", 384, 7, 8, Time(6))?;
    fs.link(cpu, b"/notes/first", b"/second", Time(7))?;
    fs.rename(cpu, b"/second", b"/third", Time(8))?;
    fs.create(cpu, b"/fourth", 420, Time(9))?;
    fs.replace(cpu, b"/third", b"/fourth", Time(10))?;
    fs.unlink(cpu, b"/notes/first", Time(11))?;
    fs.rmdir(cpu, b"/notes", Time(12))
}

fn read<R: Print>(rt: &R, fs: &Fs<MemRegion>) -> Result<()> {
    let stat = fs.stat(b"/fourth")?;
    println!(rt; "{} bytes, time {}", stat.size, stat.time)?;
    println!(rt; "{}", fs.read(b"/fourth", 0, 100)?.escape_ascii())?;
    let mut buffer = [0; 5];
    let count = fs.read_into(b"/fourth", 3, &mut buffer)?;
    Ok(println!(rt; "{} bytes {}", count, buffer.escape_ascii())?)
}

fn list<R: Print>(rt: &R, fs: &Fs<MemRegion>) -> Result<()> {
    for named in &fs.list(b"/")? {
        println!(rt; "{} is inode {}", named.name.escape_ascii(), named.inode)?;
    }
    Ok(())
}

fn read_by_number<R: Print>(rt: &R, fs: &Fs<MemRegion>) -> Result<()> {
    let inode = fs.stat(b"/fourth")?.inode;
    println!(rt; "{}", fs.read_inode(inode, 8, 1)?.escape_ascii())?;
    let mut buffer = [0; 5];
    let count = fs.read_inode_into(inode, 3, &mut buffer)?;
    println!(rt; "{} bytes {}", count, buffer.escape_ascii())?;
    let (links, names) = (fs.stat_inode(inode)?.links, fs.list_inode(1)?.len());
    Ok(println!(rt; "{} link, {} name", links, names)?)
}

fn write_by_number(fs: &mut Fs<MemRegion>, cpu: Cpu) -> std::result::Result<(), Refusal> {
    let inode = fs.stat(b"/fourth")?.inode;
    fs.write_inode(cpu, inode, 9, b"!", Time(13))?;
    fs.write_data_inode(cpu, inode, 10, Data::Given(b"!"), Time(14))?;
    fs.set_size_inode(cpu, inode, 9, Time(15))?;
    fs.set_attr_inode(cpu, inode, 384, 7, 8, Time(16))
}

fn name_by_number<R: Print>(rt: &R, fs: &mut Fs<MemRegion>, cpu: Cpu) -> Result<()> {
    let notes = fs.mkdir_inode(cpu, 1, b"notes", 493, Time(17))?;
    let first = fs.create_inode(cpu, notes, b"first", 420, Time(18))?;
    fs.link_inode(cpu, first, 1, b"second", Time(19))?;
    fs.unlink_inode(cpu, notes, b"first", Time(20))?;
    fs.rmdir_inode(cpu, 1, b"notes", Time(21))?;
    let second = fs.lookup_inode(1, b"second")?;
    Ok(println!(rt; "second is inode {}", second.inode)?)
}

fn clean<R: Print>(rt: &R, fs: &mut Fs<MemRegion>) -> Result<()> {
    if fs.dead_pages(1)?.is_none() {
        println!(rt; "the log of / needs its pages")?;
    }
    let _freed = (fs.clean(b"/")?, fs.clean_inode(1)?, fs.clean_page(1, None)?);
    Ok(())
}

fn look<R: Print>(rt: &R, fs: &Fs<MemRegion>) -> Result<()> {
    for (inode, row) in fs.rows().iter() {
        println!(rt; "inode {} is a {}", inode, row.kind)?;
    }
    Ok(())
}

fn look_at_blocks<R: Print>(rt: &R, fs: &Fs<MemRegion>) -> Result<()> {
    for cpu in 0..fs.superblock().cpus {
        for run in fs.free_runs(Cpu(cpu)) {
            println!(rt; "cpu {} has {} free from {} on", cpu, run.count, run.start)?;
        }
        if let Some(inode) = fs.new_number(Cpu(cpu)) {
            println!(rt; "cpu {} makes inode {} next", cpu, inode)?;
        }
        if fs.unused_number(Cpu(cpu)).is_none() {
            println!(rt; "the table of cpu {} is full", cpu)?;
        }
    }
    let bytes = fs.memory().len();
    println!(rt; "{} blocks free, {} bytes", fs.free().free_blocks(), bytes)?;
    Ok(println!(rt; "{} faults", fs.faults().len())?)
}

fn upgrade<R: Print>(rt: &R, fs: &mut Fs<MemRegion>) -> Result<()> {
    fs.upgrade()?;
    Ok(println!(rt; "version {}", fs.superblock().version)?)
}

fn make_calls<R: Print>(rt: &R, fs: &mut Fs<MemRegion>) -> Result<()> {
    write(fs, Cpu(1))?;
    read(rt, fs)?;
    list(rt, fs)?;
    read_by_number(rt, fs)?;
    clean(rt, fs)?;
    look(rt, fs)?;
    look_at_blocks(rt, fs)?;
    write_by_number(fs, Cpu(1))?;
    name_by_number(rt, fs, Cpu(1))?;
    upgrade(rt, fs)
}

/// Makes each call once, on two CPUs, of a file system that two workers recover.
pub(crate) fn make_each<R: AllocGlobal + Print + Threads + Sync>(rt: &R) -> Result<()> {
    let mut fs = mounted(rt)?;
    make_calls(rt, &mut fs)
}
