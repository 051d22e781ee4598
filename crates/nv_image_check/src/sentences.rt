//! What is wrong with a region, in sentences: of each fault the place of the word that it is about, the word, and what stands
//! there in a sound region.

ghost use Rattle.std.specs.Prelude.{◌≡◌, ◌<◌, ◌++◌, OnOk, string_bytes};
ghost use Rattle.nv_super.specs.Layout.{IsLayout};
ghost use Rattle.nv_image_check.specs.Sentences.{place_of, journal_place, slot_place, record_place, rule_text, holds_word, word_text, found_text, sentence, sentences};

use nv_inode::Tables;
use nv_region::Pmem;
use nv_super::{Fault, Super};
use std::alloc::AllocError;
use std::fmt::Write;

/// Adds a line for each of the faults of a region with these tables, by the words of the region. Errors: `AllocError` where a
/// growth was refused.
pub(crate) fn push_sentences<P: Pmem>(
    out: &mut String,
    memory: &P,
    tables: &Tables,
    faults: &[Fault],
) -> Result<(), AllocError>
    ensures { OnOk result (string_bytes out.new ≡ string_bytes out.old ++ sentences (P.region memory.now) tables.now.layout faults.now) }
{
    for fault in faults {
        push_sentence(out, memory, tables, *fault)?;
    }
    Ok(())
}

fn push_sentence<P: Pmem>(
    out: &mut String,
    memory: &P,
    tables: &Tables,
    fault: Fault,
) -> Result<(), AllocError>
    ensures { OnOk result (string_bytes out.new ≡ string_bytes out.old ++ sentence (P.region memory.now) tables.now.layout fault) }
{
    write!(out, "{fault}: ")?;
    push_found(out, memory, place_of(tables, fault))?;
    out.push_str(rule_of(fault))?;
    out.push('\n')
}

// The word at a place, where there is one.
fn push_found<P: Pmem>(out: &mut String, memory: &P, place: Option<u64>) -> Result<(), AllocError>
    ensures { OnOk result (string_bytes out.new ≡ string_bytes out.old ++ found_text (P.region memory.now) place) }
{
    match place {
        Some(at) => push_word_at(out, memory, at),
        None => Ok(()),
    }
}

fn push_word_at<P: Pmem>(out: &mut String, memory: &P, at: u64) -> Result<(), AllocError>
    ensures { OnOk result (string_bytes out.new ≡ string_bytes out.old ++ word_text (P.region memory.now) at) }
{
    if !holds_word(memory, at) {
        return Ok(());
    }
    let block = at / 4096;
    let offset = at % 4096;
    let word = memory.load(at);
    write!(
        out,
        "block {block} has at offset {offset} the word {word}; "
    )
}

// Whether a word begins at the byte address, and is in the region.
fn holds_word<P: Pmem>(memory: &P, at: u64) -> bool
    ensures { result ≡ holds_word (P.region memory.now) at }
{
    at % 8 == 0 && memory.len().saturating_sub(at) >= 8
}

// The byte address of the word that a fault is about, if it is about one.
fn place_of(tables: &Tables, fault: Fault) -> Option<u64>
    ensures { result ≡ place_of tables.now.layout fault }
{
    tables.are_laid();
    match fault {
        Fault::J1 { cpu } => journal_place(tables.sup(), cpu),
        Fault::J2 { cpu, record } => record_place(tables.sup(), cpu, record),
        Fault::I1 { inode } => slot_place(tables, inode, 0),
        Fault::I2 { inode } => slot_place(tables, inode, 8),
        Fault::I3 { inode } => slot_place(tables, inode, 16),
        Fault::H1 { at, .. }
        | Fault::H2 { at, .. }
        | Fault::L1 { at, .. }
        | Fault::L2 { at, .. }
        | Fault::L3 { at, .. }
        | Fault::L4 { at, .. }
        | Fault::E1 { at, .. }
        | Fault::E2 { at, .. }
        | Fault::E3 { at, .. }
        | Fault::E4 { at, .. }
        | Fault::C1 { at, .. } => Some(at),
        Fault::C2 { .. } | Fault::C3 { .. } | Fault::C4 { .. } | Fault::C5 | Fault::B1 { .. } => {
            None
        }
    }
}

// Of the dequeue number of the journal of a CPU.
fn journal_place(sup: &Super, cpu: u64) -> Option<u64>
    requires { IsLayout sup.now }
    ensures { result ≡ journal_place sup.now cpu }
{
    if cpu < sup.cpus {
        Some(4096 * (1 + cpu))
    } else {
        None
    }
}

// Of the address that a record of a journal names, by the record's number.
fn record_place(sup: &Super, cpu: u64, number: u64) -> Option<u64>
    requires { IsLayout sup.now }
    ensures { result ≡ record_place sup.now cpu number }
{
    if cpu < sup.cpus && number < 252 {
        Some(4096 * (1 + cpu) + 64 + 16 * number)
    } else {
        None
    }
}

// Of a word of the slot of an inode.
fn slot_place(tables: &Tables, inode: u64, offset: u64) -> Option<u64>
    requires { offset < 128 }
    ensures { result ≡ slot_place tables.now.layout inode offset }
{
    let at = tables.slot_address(inode)?;
    Some(at + offset)
}

// What stands at the place of a fault in a sound region, or what holds there.
fn rule_of(fault: Fault) -> &'static str
    ensures { result.now ≡ rule_text fault }
{
    match fault {
        Fault::J1 { .. } => {
            "the dequeue number of a journal, and the enqueue number behind it, are below 252"
        }
        Fault::J2 { .. } => {
            "a record names the valid word, the head or the tail of the slot of an inode"
        }
        Fault::H1 { .. } => "the link of a table's chain is 0, or the first byte of a data block",
        Fault::H2 { .. } => {
            "the link of a table's chain leads to a block that wasn't read before in this chain"
        }
        Fault::I1 { .. } => "the valid word of a slot is 0 or 1",
        Fault::I2 { .. } => "the kind of a slot in use is 1, a file, or 2, a directory",
        Fault::I3 { .. } => {
            "the head of a log is the first byte of a data block, and its tail, the next word, a multiple of 8 at an offset of 8 to 4064 of one"
        }
        Fault::L1 { .. } => "the link of a log's page is the first byte of a data block",
        Fault::L2 { .. } => "the link of a log's page leads to one that wasn't read before",
        Fault::L3 { .. } => "an entry begins here, by its type, operation and length",
        Fault::L4 { .. } => "an entry in the tail's page ends at the tail or before it",
        Fault::E1 { .. } => "the numbers and the name of an entry are in range",
        Fault::E2 { .. } => "an entry is one that this kind of inode has",
        Fault::E3 { .. } => "a name is added that the directory doesn't have",
        Fault::E4 { .. } => "a name is removed that the directory has",
        Fault::C1 { .. } => "a name is that of an inode in use",
        Fault::C2 { .. } => "a directory is named once, and the root nowhere",
        Fault::C3 { .. } => "a file has as many links as names",
        Fault::C4 { .. } => "an inode in use is reached by names from the root",
        Fault::C5 => "inode 1 is a directory in use",
        Fault::B1 { .. } => "a block has one owner",
    }
}
