//! The pending records as text: a line for each, and below them how many they are.

ghost use Rattle.std.specs.Prelude.{◌≡◌, ◌++◌, IfOk, OnOk, string_bytes};
ghost use Rattle.std.specs.List.{flat_map};
ghost use Rattle.nv_records.specs.Text.{count_line, part_text, record_line, records_text, word_text};

use crate::naming::{NamedWord, SlotPart};
use crate::records::PendingRecord;
use std::alloc::{AllocError, Global};
use std::fmt::Write;

/// A line for each record, and then one that says how many they are. Errors: `AllocError` where a growth was refused.
pub fn records_text(alloc: Global, records: &[PendingRecord]) -> Result<String, AllocError>
    ensures { IfOk result (λ text. string_bytes text ≡ records_text records.now) }
{
    let mut text = String::new(alloc);
    push_lines(&mut text, records)?;
    push_count(&mut text, records.len())?;
    Ok(text)
}

fn push_lines(text: &mut String, records: &[PendingRecord]) -> Result<(), AllocError>
    ensures { OnOk result (string_bytes text.new ≡ string_bytes text.old ++ flat_map record_line records.now) }
{
    for told in records {
        push_line(text, told)?;
    }
    Ok(())
}

fn push_count(text: &mut String, count: usize) -> Result<(), AllocError>
    ensures { OnOk result (string_bytes text.new ≡ string_bytes text.old ++ count_line count) }
{
    writeln!(text, "pending records {count}")?;
    Ok(())
}

fn push_line(text: &mut String, told: &PendingRecord) -> Result<(), AllocError>
    ensures { OnOk result (string_bytes text.new ≡ string_bytes text.old ++ record_line told.now) }
{
    let PendingRecord {
        cpu,
        number,
        address,
        word,
        before,
    } = *told;
    write!(text, "pending {cpu} {number}: address {address}, ")?;
    push_word(text, word)?;
    writeln!(text, "was {before}")?;
    Ok(())
}

fn push_word(text: &mut String, word: Option<NamedWord>) -> Result<(), AllocError>
    ensures { OnOk result (string_bytes text.new ≡ string_bytes text.old ++ word_text word) }
{
    match word {
        Some(NamedWord { part, inode, now }) => {
            text.push_str(part_text(part))?;
            write!(text, " of inode {inode}, is {now}, ")?;
            Ok(())
        }
        None => text.push_str("no word of a slot, "),
    }
}

fn part_text(part: SlotPart) -> &'static str
    ensures { result.now ≡ part_text part }
{
    match part {
        SlotPart::Valid => "valid word",
        SlotPart::Head => "head",
        SlotPart::Tail => "tail",
    }
}
