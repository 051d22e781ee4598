//! The check of the image in a file, and its map as text and as a drawing.

ghost use Rattle.std.specs.Prelude.{◌≡◌, ◌≢◌, ◌⊎◌, ◌≤◌, true, false, is_none, IfOk, IfErr};
ghost use Rattle.std.specs.Io.KnownBytes.{Keeps};
ghost use Rattle.nv_image_files.specs.Images.{IsUnread, IsUnsaved, IsUnanswered};
ghost use Rattle.nv_image_check.specs.Mapping.{mapped_answer, WritesMap, FailsMap};
ghost use Rattle.nv_image_check.specs.Files.{WritesImageCheck, EndsImageCheck, FailsImageCheck, WritesImageExplained, FailsImageExplained, IsImageMapped, IsUnchecked, IsUnmapped};

use crate::answered::Answered;
use crate::checking::check_region_as;
use crate::explained::explain_region;
use crate::gathered::check_gathered;
use crate::mapping::{Mapped, answered, map_cells, map_gathered, write_map};
use crate::plain::{READERS, gather_plain, why_plain_refused};
use nv_image_files::{
    Failure, Held, Image, ImageFile, Lock, Stamp, Target, hold, image_at, open_image, read_image,
    refuse_length, save_file, see_ready, svg_text, tell_explain, tell_faults, tell_length,
    tell_refused, tell_unaccepted,
};
use nv_metadata::Blocks;
use nv_report::Last;
use nv_stream::ScriptError;
use nv_super::SuperFault;
use nv_text::{Output, Refusal};
use std::alloc::{AllocError, Global};
use std::io;
use std::io::Write;
use std::rt::Files;
use std::thread::Threads;

/// How many cells a map has at most.
const MOST_CELLS: u64 = 1024;

/// Recovers the image in the file at a path in memory, on so many threads, and prints its report on standard output, or its sums
/// or faults alone. The file is never written. Of a plain file the metadata alone are read, or the first block where its
/// superblock isn't accepted; each other one is read whole.
///
/// Answers the exit status: 0 where the image has no faults, 1 where it does, and 2 where it is refused, as each is that is longer
/// than a region can be.
///
/// Errors: a file that can't be read, and want of memory or of a place to write to.
pub fn check_file<'a, H: Files + AllocGlobal + Print + Eprint + Threads + Sync>(
    rt: &H,
    path: &'a str,
    workers: u32,
    output: Output,
) -> Result<u8, Failure<'a>>
where
    H::File: Blocks + Sync,
    ensures status { IfOk result (λ status. status ≤ 2) }
    ensures error { IfErr result (IsUnchecked path.entry) }
{
    let file = open_image(rt, path)?;
    let status = check_open(rt, file, u64::from(workers), output)?;
    if status == Last::Faulty.status() {
        tell_explain(rt);
    }
    Ok(status)
}

// Checks the image in an open file: a plain file by its metadata, where that can be, and any other as a whole.
fn check_open<'a, H: Files + AllocGlobal + Print + Eprint + Threads + Sync>(
    rt: &H,
    file: ImageFile<'a, H::File>,
    workers: u64,
    output: Output,
) -> Result<u8, Failure<'a>>
where
    H::File: Blocks + Sync,
    ensures status { IfOk result (λ status. status ≤ 2) }
    ensures error { IfErr result (IsUnchecked file.entry.path) }
{
    match gather_plain(rt, rt.alloc(), &file, workers)? {
        Some(gathered) => {
            let why = why_plain_refused(&file, &gathered)?;
            let writer = &mut io::writer(rt);
            let status = check_gathered(rt, rt.alloc(), gathered, workers, output, writer)?;
            tell_unaccepted(rt, why);
            Ok(status)
        }
        None => check_whole(rt, file, workers, output),
    }
}

// Checks an image that is read whole.
fn check_whole<'a, H: Files + AllocGlobal + Print + Eprint + Threads + Sync>(
    rt: &H,
    file: ImageFile<'a, H::File>,
    workers: u64,
    output: Output,
) -> Result<u8, Failure<'a>>
where
    ensures status { IfOk result (λ status. status ≤ 2) }
    ensures error { IfErr result (IsUnchecked file.entry.path) }
{
    let image = read_image(rt.alloc(), file)?;
    let writer = &mut io::writer(rt);
    let status = check_image(rt, rt.alloc(), &image, workers, output, writer)?;
    tell_image_refused(rt, &image, status);
    Ok(status)
}

/// `check_file` of the whole report, and below it, where the image has faults, of each in a sentence where it is, which word
/// stands there, and what holds in a sound region. For this the image is read whole.
///
/// Errors: those of `check_file`.
pub fn explain_file<'a, H: Files + AllocGlobal + Print + Eprint + Threads + Sync>(
    rt: &H,
    path: &'a str,
    workers: u32,
) -> Result<u8, Failure<'a>>
where
    ensures status { IfOk result (λ status. status ≤ 2) }
    ensures error { IfErr result (IsUnchecked path.entry) }
{
    let image = image_at(rt, path)?;
    let status = explain_image(rt, &image, workers, &mut io::writer(rt))?;
    tell_image_refused(rt, &image, status);
    if status == Last::Faulty.status() {
        tell_explain(rt);
    }
    Ok(status)
}

// Checks an image as `explain_region` does. One that is longer than a region can be is refused as `S1`.
fn explain_image<H: AllocGlobal + Threads + Sync, W: Write>(
    rt: &H,
    image: &Image,
    workers: u32,
    writer: &mut W,
) -> Result<u8, ScriptError>
    ensures ok { IfOk result (λ status. WritesImageExplained image.now workers (W.contents writer.old) (W.contents writer.new) status) }
    ensures err { IfErr result (λ e. FailsImageExplained image.now workers e (W.contents writer.old) (W.contents writer.new)) }
    ensures status { IfOk result (λ status. status ≤ 2) }
    ensures error { IfErr result (λ e. e ≢ ScriptError.Read) }
{
    let workers = u64::from(workers);
    match image {
        Image::Bytes(bytes) => explain_region(rt, rt.alloc(), bytes, workers, writer),
        Image::TooLong(_) => refuse_length(writer),
    }
}

/// Recovers the image in a file in memory, and prints what its blocks are used for, or why that can't be told. With `svg` the
/// cells are drawn in that file too, unless the image is refused; it can't be the image. A drawing on standard output stands
/// there alone. Answers the exit status, 0 or 2. The file is read as `check_file` reads it.
///
/// Errors: a file that can't be read or written, and want of memory or of a place to write to.
pub fn map_file<'a, H: Files + AllocGlobal + Print + Eprint + Threads + Sync>(
    rt: &H,
    path: &'a str,
    svg: Option<Target<'a>>,
) -> Result<u8, Failure<'a>>
where
    H::File: Blocks + Lock + Sync,
    ensures status { IfOk result (λ status. (status ≡ 0) ⊎ (status ≡ 2)) }
    ensures error { IfErr result (IsUnmapped path.entry svg.entry) }
{
    let file = open_image(rt, path)?;
    match svg {
        Some(target) => map_and_draw(rt, file, target),
        None => {
            let mapped = map_open(rt, file)?;
            Ok(tell_map(rt, path, &mapped, false)?)
        }
    }
}

// Maps the image in an open file, and draws its cells in another one, which is held from the start.
fn map_and_draw<'a, H: Files + AllocGlobal + Print + Eprint + Threads + Sync>(
    rt: &H,
    file: ImageFile<'a, H::File>,
    svg: Target<'a>,
) -> Result<u8, Failure<'a>>
where
    H::File: Blocks + Lock + Sync,
    ensures status { IfOk result (λ status. (status ≡ 0) ⊎ (status ≡ 2)) }
    ensures error { IfErr result (IsUnmapped file.entry.path (Some svg.entry)) }
{
    let path = file.path;
    let held = hold_drawing(rt, svg, file.opened.stamp)?;
    let mapped = map_open(rt, file)?;
    show_and_draw(rt, path, &mapped, &held)
}

// Prints a map, unless its drawing goes to standard output, and draws it.
fn show_and_draw<'a, H: Files + AllocGlobal + Print + Eprint>(
    rt: &H,
    path: &'a str,
    mapped: &Mapped,
    held: &Held<'a, H::File>,
) -> Result<u8, Failure<'a>>
where
    H::File: Lock,
    ensures status { IfOk result (λ status. (status ≡ 0) ⊎ (status ≡ 2)) }
    ensures error { IfErr result (IsUnmapped path.entry (Some held.now.target)) }
{
    let status = tell_map(rt, path, mapped, held.is_output())?;
    draw(rt, mapped, held)?;
    Ok(status)
}

// Maps the image in an open file, which is read as `check_file` reads it.
fn map_open<'a, H: Files + AllocGlobal + Eprint + Threads + Sync>(
    rt: &H,
    file: ImageFile<'a, H::File>,
) -> Result<Mapped, Failure<'a>>
where
    H::File: Blocks + Sync,
    ensures error { IfErr result (IsUnread file.entry.path) }
{
    match gather_plain(rt, rt.alloc(), &file, READERS)? {
        Some(gathered) => {
            let why = why_plain_refused(&file, &gathered)?;
            let mapped = map_gathered(rt.alloc(), gathered, MOST_CELLS)?;
            tell_refusal(rt, &mapped);
            tell_unaccepted(rt, why);
            Ok(mapped)
        }
        None => map_whole(rt, file),
    }
}

// Prints the text of a map, unless the drawing goes to standard output, and says on standard error whether the image has faults.
// Answers the exit status.
fn tell_map<H: AllocGlobal + Print + Eprint>(
    rt: &H,
    path: &str,
    mapped: &Mapped,
    is_drawn_there: bool,
) -> Result<u8, ScriptError>
    ensures status { IfOk result (λ status. (status ≡ 0) ⊎ (status ≡ 2)) }
    ensures error { IfErr result (λ e. e ≢ ScriptError.Read) }
{
    let answered = print_map(rt.alloc(), mapped, is_drawn_there, &mut io::writer(rt))?;
    tell_faults(rt, path, answered.faults);
    Ok(answered.status)
}

// Maps an image that is read whole. Where it is refused, standard error says so, and why.
fn map_whole<'a, H: Files + AllocGlobal + Eprint>(
    rt: &H,
    file: ImageFile<'a, H::File>,
) -> Result<Mapped, Failure<'a>>
    ensures error { IfErr result (IsUnread file.entry.path) }
{
    let image = read_image(rt.alloc(), file)?;
    let mapped = map_image(rt.alloc(), &image, MOST_CELLS)?;
    tell_refusal(rt, &mapped);
    tell_image_refused(rt, &image, answered(&mapped).status);
    Ok(mapped)
}

// Holds the place of the drawing of an image, and sees that it can be written.
fn hold_drawing<'a, H: Files + AllocGlobal + Eprint>(
    rt: &H,
    svg: Target<'a>,
    image: Stamp,
) -> Result<Held<'a, H::File>, Failure<'a>>
where
    H::File: Lock,
    ensures target { IfOk result (λ held. held.target ≡ svg.entry) }
    ensures error { IfErr result (IsUnsaved svg.entry.path) }
{
    let held = hold(rt, svg)?;
    see_ready(rt, &held, Some(image), None)?;
    Ok(held)
}

// Checks the region of an image as `check_region_as` does. An image that is longer than a region can be is refused as `S1`.
fn check_image<H: Threads + Sync, W: Write>(
    rt: &H,
    alloc: Global,
    image: &Image,
    workers: u64,
    output: Output,
    writer: &mut W,
) -> Result<u8, ScriptError>
    ensures text { IfOk result (λ _. WritesImageCheck output image.now workers (W.contents writer.old) (W.contents writer.new)) }
    ensures status { IfOk result (λ status. EndsImageCheck output image.now workers (W.contents writer.old) (W.contents writer.new) status) }
    ensures err { IfErr result (λ e. FailsImageCheck output image.now workers e (W.contents writer.old) (W.contents writer.new)) }
{
    match image {
        Image::Bytes(bytes) => check_region_as(rt, alloc, bytes, workers, output, writer),
        Image::TooLong(_) => refuse_length(writer),
    }
}

// Maps the region of an image. An image that is longer than a region can be is refused as `S1`.
fn map_image(alloc: Global, image: &Image, most: u64) -> Result<Mapped, AllocError>
    ensures { IfOk result (IsImageMapped image.now most) }
{
    match image {
        Image::Bytes(bytes) => map_cells(alloc, bytes, most),
        Image::TooLong(_) => Ok(Mapped::Refused(Refusal::Super(SuperFault::Length))),
    }
}

// Prints the text of a map, unless the drawing goes to standard output.
fn print_map<W: Write>(
    alloc: Global,
    mapped: &Mapped,
    is_drawn_there: bool,
    writer: &mut W,
) -> Result<Answered, ScriptError>
    ensures answered { IfOk result (λ answered. answered ≡ mapped_answer mapped.now) }
    ensures text { is_drawn_there ≡ false → IfOk result (WritesMap mapped.now (W.contents writer.old) (W.contents writer.new)) }
    ensures no_text { is_drawn_there ≡ true → Keeps (W.contents writer.old) (W.contents writer.new) }
    ensures err { IfErr result (λ e. FailsMap mapped.now e (W.contents writer.old) (W.contents writer.new)) }
{
    if is_drawn_there {
        Ok(answered(mapped))
    } else {
        write_map(alloc, mapped, writer)
    }
}

/// Says on standard error for what an image was refused, where an answer of this status may be that.
pub(crate) fn tell_image_refused<H: Eprint + AllocGlobal>(rt: &H, image: &Image, status: u8) {
    match image {
        Image::Bytes(bytes) => tell_refused(rt, status, bytes),
        Image::TooLong(length) => tell_length(rt, *length),
    }
}

// Says on standard error that a region is refused, where it is.
fn tell_refusal<H: Eprint>(rt: &H, mapped: &Mapped) {
    if let Mapped::Refused(refusal) = mapped {
        let _ = eprintln!(rt; "refused {refusal}");
    }
}

// Draws the cells in a file, where there are any.
fn draw<'a, H: Files + AllocGlobal + Print>(
    rt: &H,
    mapped: &Mapped,
    held: &Held<'a, H::File>,
) -> Result<(), Failure<'a>>
where
    H::File: Lock,
    ensures file { is_none held.now.place ≡ false → IfErr result (IsUnsaved held.now.target.path) }
    ensures output { is_none held.now.place ≡ true → IfErr result IsUnanswered }
{
    match mapped {
        Mapped::Cells { cells, .. } => {
            let text = svg_text(rt.alloc(), cells)?;
            save_file(rt, held, text.as_bytes())
        }
        Mapped::Refused(_) => Ok(()),
    }
}
