//! Rolling back the journals of the image in a file.

use crate::REFUSED_STATUS;
use nv_image_files::{
    Failure, Held, Loaded, Lock, Target, hold, refuse_length, region_at, save_region, see_ready,
    tell_length, tell_unaccepted, why_region_refused,
};
use nv_records::{
    Journals, PendingRecord, RolledBack, find_pending, records_text, recover_journals,
};
use nv_report::refused_text;
use nv_stream::write_text;
use nv_super::SuperFault;
use nv_text::Refusal;
use std::io;
use std::io::Write;
use std::rt::Files;

/// Prints the pending records of the journals of an image, and rolls them back: the image is written to its place, which is held
/// from the start, if a record was pending. An image on standard input is written to standard output in any case, and what is
/// printed goes to the errors. Answers the exit status, 0 or 2.
pub(crate) fn recover<'a, H: Files + AllocGlobal + Print + Eprint, E: Write>(
    rt: &H,
    errors: &mut E,
    image: &'a str,
) -> Result<u8, Failure<'a>>
where
    H::File: Lock,
{
    let target = Target {
        path: image,
        force: true,
    };
    let held = hold(rt, target)?;
    match region_at(rt, image)? {
        Loaded::Region(region) => {
            let why = why_region_refused(rt.alloc(), &region)?;
            let rolled_back = recover_journals(rt.alloc(), region)?;
            let status = end_recovery(rt, errors, &held, &rolled_back)?;
            tell_unaccepted(rt, why);
            Ok(status)
        }
        Loaded::TooLong(length) => {
            let status = refuse_length(errors)?;
            tell_length(rt, length);
            Ok(status)
        }
    }
}

/// Prints the pending records alone. The image is read and never written.
pub(crate) fn show_pending<'a, H: Files + AllocGlobal + Print + Eprint, E: Write>(
    rt: &H,
    errors: &mut E,
    image: &'a str,
) -> Result<u8, Failure<'a>> {
    match region_at(rt, image)? {
        Loaded::Region(region) => {
            let why = why_region_refused(rt.alloc(), &region)?;
            let status = match find_pending(rt.alloc(), &region)? {
                Journals::Pending { records, .. } => {
                    print_records(rt, &mut io::writer(rt), &records)?
                }
                Journals::Refused(fault) => refuse(rt, errors, fault)?,
            };
            tell_unaccepted(rt, why);
            Ok(status)
        }
        Loaded::TooLong(length) => {
            let status = refuse_length(errors)?;
            tell_length(rt, length);
            Ok(status)
        }
    }
}

// Writes the region where a record was pending, and then prints what was rolled back.
fn end_recovery<'a, H: Files + AllocGlobal + Print + Eprint, E: Write>(
    rt: &H,
    errors: &mut E,
    held: &Held<'a, H::File>,
    rolled_back: &RolledBack,
) -> Result<u8, Failure<'a>>
where
    H::File: Lock,
{
    let records = match &rolled_back.journals {
        Journals::Pending { records, .. } => records,
        Journals::Refused(fault) => return refuse(rt, errors, *fault),
    };
    if !records.is_empty() || held.is_output() {
        see_ready(rt, held, None, None)?;
        save_region(rt, held, &rolled_back.region)?;
    }
    if held.is_output() {
        print_records(rt, errors, records)
    } else {
        print_records(rt, &mut io::writer(rt), records)
    }
}

fn print_records<'a, H: AllocGlobal, W: Write>(
    rt: &H,
    writer: &mut W,
    records: &[PendingRecord],
) -> Result<u8, Failure<'a>> {
    let text = records_text(rt.alloc(), records)?;
    write_text(writer, text.as_bytes())?;
    Ok(0)
}

// Says why the superblock isn't accepted.
fn refuse<'a, H: AllocGlobal, E: Write>(
    rt: &H,
    errors: &mut E,
    fault: SuperFault,
) -> Result<u8, Failure<'a>> {
    let text = refused_text(rt.alloc(), Refusal::Super(fault))?;
    write_text(errors, text.as_bytes())?;
    Ok(REFUSED_STATUS)
}
