//! The line that sums a recovery up: how many inodes, names, blocks and faults there are.

ghost use Rattle.std.specs.Prelude.{◌≡◌, ◌-◌, ◌++◌, bytes_eq, count_by, length, map, IfOk, OnOk, string_bytes};
ghost use Rattle.nv_super.specs.Layout.{HasAreas, system_blocks};
ghost use Rattle.nv_outcome.specs.Answer.{outcome_of};
ghost use Rattle.nv_super.specs.Classes.{class_of};
ghost use Rattle.nv_report.specs.Summary.{directories, files, names, class_sums, class_and_count, inodes_part, inodes_text, blocks_part, used_text, free_text, faults_part};
ghost use Rattle.nv_report.specs.Summary.{count_text, sum_text, sums_text, more_text, summary_line};

use nv_outcome::{Recovered, Rows};
use nv_super::{FAULT_CLASS_COUNT, Fault, Kind, Super, class_name};
use std::alloc::{AllocError, Global};
use std::fmt::Write;

// How many inodes are in use, how many of them are directories and files, and how many names those have.
#[derive(Clone, Copy)]
struct Counts {
    inodes: usize,
    directories: usize,
    files: usize,
    names: u128,
}

// How many faults there are of a class.
#[derive(Clone, Copy)]
struct ClassSum {
    class: &'static str,
    count: usize,
}

/// `inodes I, directories D, files F, names N, blocks in use U, free B, faults K`, as a line, where the blocks are data
/// blocks. Behind faults it says how many there are of each class, as in `faults 3 (C1 2, B1 1)`.
///
/// Errors: `AllocError` where a growth was refused.
pub fn summary_text(alloc: Global, recovered: &Recovered) -> Result<String, AllocError>
    requires { HasAreas recovered.now.sup }
    ensures { IfOk result (λ text. string_bytes text ≡ summary_line (outcome_of recovered.now)) }
{
    let mut text = String::new(alloc);
    push_inodes(&mut text, &recovered.rows)?;
    push_blocks(&mut text, recovered)?;
    push_faults(alloc, &mut text, &recovered.faults)?;
    text.push_str("\n")?;
    Ok(text)
}

fn push_inodes(out: &mut String, rows: &Rows) -> Result<(), AllocError>
    ensures { OnOk result (string_bytes out.new ≡ string_bytes out.old ++ inodes_part rows.now.items) }
{
    push_counts(out, counts_of(rows))
}

fn push_counts(out: &mut String, counts: Counts) -> Result<(), AllocError>
    ensures { OnOk result (string_bytes out.new ≡ string_bytes out.old ++ inodes_text counts.inodes counts.directories counts.files counts.names) }
{
    write!(
        out,
        "inodes {}, directories {}, files {}, names {}",
        counts.inodes, counts.directories, counts.files, counts.names
    )
}

fn push_blocks(out: &mut String, recovered: &Recovered) -> Result<(), AllocError>
    requires { HasAreas recovered.now.sup }
    ensures { OnOk result (string_bytes out.new ≡ string_bytes out.old ++ blocks_part (outcome_of recovered.now)) }
{
    let free = recovered.free.free_blocks();
    push_used(out, used_blocks(&recovered.sup, free))?;
    push_free(out, free)
}

fn push_used(out: &mut String, used: u64) -> Result<(), AllocError>
    ensures { OnOk result (string_bytes out.new ≡ string_bytes out.old ++ used_text used) }
{
    write!(out, ", blocks in use {used}")
}

fn push_free(out: &mut String, free: u64) -> Result<(), AllocError>
    ensures { OnOk result (string_bytes out.new ≡ string_bytes out.old ++ free_text free) }
{
    write!(out, ", free {free}")
}

// How many data blocks there are beside so many.
fn used_blocks(sup: &Super, free: u64) -> u64
    requires { HasAreas sup.now }
    ensures { result ≡ sup.now.blocks - system_blocks sup.now - free }
{
    (sup.blocks - sup.system_blocks()).saturating_sub(free)
}

fn push_faults(alloc: Global, out: &mut String, faults: &[Fault]) -> Result<(), AllocError>
    ensures { OnOk result (string_bytes out.new ≡ string_bytes out.old ++ faults_part faults.now) }
{
    push_fault_count(out, faults.len())?;
    let sums = class_sums(alloc, faults)?;
    push_sums(out, &sums)
}

fn push_fault_count(out: &mut String, count: usize) -> Result<(), AllocError>
    ensures { OnOk result (string_bytes out.new ≡ string_bytes out.old ++ count_text count) }
{
    write!(out, ", faults {count}")
}

fn counts_of(rows: &Rows) -> Counts
    ensures inodes { result.inodes ≡ length rows.now.items }
    ensures directories { result.directories ≡ directories rows.now.items }
    ensures files { result.files ≡ files rows.now.items }
    ensures names { result.names ≡ names rows.now.items }
{
    let mut counts = Counts {
        inodes: rows.len(),
        directories: 0,
        files: 0,
        names: 0,
    };
    for (_, row) in rows.iter() {
        match row.kind {
            Kind::Directory => counts.directories += 1,
            Kind::File => counts.files += 1,
        }
        counts.names += row.names.len() as u128;
    }
    counts
}

// How many faults there are of each class of which there are some, in the order of the classes.
fn class_sums(alloc: Global, faults: &[Fault]) -> Result<Vec<ClassSum>, AllocError>
    ensures { IfOk result (λ sums. map class_and_count sums.items ≡ class_sums faults.now) }
{
    let mut sums = Vec::new(alloc);
    for number in 0..FAULT_CLASS_COUNT {
        let class = class_name(number);
        let count = count_class(faults, class);
        if count > 0 {
            sums.push(ClassSum { class, count })?;
        }
    }
    Ok(sums)
}

fn count_class(faults: &[Fault], class: &str) -> usize
    ensures { result ≡ count_by (λ fault. bytes_eq (class_of fault) class.now) faults.now }
{
    let mut count = 0;
    for fault in faults {
        if fault.class() == class {
            count += 1;
        }
    }
    count
}

fn push_sums(out: &mut String, sums: &[ClassSum]) -> Result<(), AllocError>
    ensures { OnOk result (string_bytes out.new ≡ string_bytes out.old ++ sums_text (map class_and_count sums.now)) }
{
    let Some((first, others)) = sums.split_first() else {
        return Ok(());
    };
    out.push_str(" (")?;
    push_sum(out, first)?;
    push_more(out, others)?;
    out.push_str(")")
}

fn push_more(out: &mut String, sums: &[ClassSum]) -> Result<(), AllocError>
    ensures { OnOk result (string_bytes out.new ≡ string_bytes out.old ++ more_text (map class_and_count sums.now)) }
{
    for sum in sums {
        out.push_str(", ")?;
        push_sum(out, sum)?;
    }
    Ok(())
}

fn push_sum(out: &mut String, sum: &ClassSum) -> Result<(), AllocError>
    ensures { OnOk result (string_bytes out.new ≡ string_bytes out.old ++ sum_text (class_and_count sum.now)) }
{
    write!(out, "{} {}", sum.class, sum.count)
}
