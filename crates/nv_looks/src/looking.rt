//! Looking into a region that is given as bytes: it is recovered over them, as a check does it, and a call that reads is made.
//!
//! What is found wrong doesn't keep the calls from being made; the answer tells of it.

ghost use Rattle.std.specs.Prelude.{◌≡◌, ℕ, false, if◌then◌else◌, IfOk, IfErr, OnOk, OnErr, List, string_bytes};
ghost use Rattle.nv_region.specs.Region.{Region, region_of};
ghost use Rattle.nv_text.specs.Refusals.{refusal_name};
ghost use Rattle.nv_tree.specs.Path.{IsPath, Says};
ghost use Rattle.nv_tree.specs.Refusals.{Path};
ghost use Rattle.nv_calls.specs.Reading.{IsRead};
ghost use Rattle.nv_image_check.specs.Checking.{IsRefusal};
ghost use Rattle.nv_looks.specs.Sent.{Sends, SendsFront, written};
ghost use Rattle.nv_looks.specs.Looking.{IsLook, IsOpened, IsSized, ListsNames, TellsNumbers, GivesBytes, WritesLook, FailsLook, FailsCat, WritesCall, FailsCall, WritesFile, FailsFile, WritesRefusal};
ghost use Rattle.nv_looks.specs.Looking.{FailsRefusal};
ghost use Rattle.nv_calls.specs.Mount.{shown};

use nv_image_check::{Answered, Image, recover_image};
use nv_region::{ImageRegion, Pmem};
use nv_report::{Last, refused_text};
use nv_session::{CallRefusal, CallText, Fs, list_text, refused_call_text, stat_text};
use nv_stream::{ScriptError, write_text};
use nv_text::Refusal;
use std::alloc::{AllocError, Global};
use std::io::Write;

/// How many bytes of a file are read at a time.
pub(crate) const PIECE: u64 = 1 << 20;

// What is printed, and what came of it.
#[derive(Drop)]
pub(crate) struct Look {
    pub(crate) text: String,
    pub(crate) answered: Answered,
}

// A region over bytes, mounted with what was found in it, or why it isn't.
#[derive(Drop)]
pub(crate) enum Opened<'a> {
    Mounted(Fs<ImageRegion<'a>>),
    Refused(Refusal),
}

/// Writes the names of the directory in the region of these bytes that a path leads to, a line each as a script prints them,
/// or `refused NAME` to the errors.
///
/// Errors: `Memory` where a growth was refused, and nothing was written then; `Write` where the writer failed, and a front
/// of the text was written then.
pub fn list_image<W: Write, E: Write>(
    alloc: Global,
    bytes: &[u8],
    path: &[u8],
    writer: &mut W,
    errors: &mut E,
) -> Result<Answered, ScriptError>
    ensures ok { IfOk result (λ answered. WritesLook (ListsNames path.now) bytes.now (written (W.contents writer.old) (E.contents errors.old))
        (written (W.contents writer.new) (E.contents errors.new)) answered) }
    ensures err { IfErr result (λ e. FailsLook (ListsNames path.now) bytes.now e (written (W.contents writer.old) (E.contents errors.old)) (written (W.contents writer.new) (E.contents errors.new))) }
{
    let look = look_at_names(alloc, bytes, path)?;
    write_look(&look, writer, errors)?;
    Ok(look.answered)
}

/// Writes the numbers of the inode in the region of these bytes that a path leads to, as a script prints them, or
/// `refused NAME` to the errors. Errors as of `list_image`.
pub fn stat_image<W: Write, E: Write>(
    alloc: Global,
    bytes: &[u8],
    path: &[u8],
    writer: &mut W,
    errors: &mut E,
) -> Result<Answered, ScriptError>
    ensures ok { IfOk result (λ answered. WritesLook (TellsNumbers path.now) bytes.now (written (W.contents writer.old) (E.contents errors.old))
        (written (W.contents writer.new) (E.contents errors.new)) answered) }
    ensures err { IfErr result (λ e. FailsLook (TellsNumbers path.now) bytes.now e (written (W.contents writer.old) (E.contents errors.old))
        (written (W.contents writer.new) (E.contents errors.new))) }
{
    let look = look_at_numbers(alloc, bytes, path)?;
    write_look(&look, writer, errors)?;
    Ok(look.answered)
}

/// Writes the bytes of the file in the region of these bytes that a path leads to, from the first to the last, or
/// `refused NAME` to the errors. Holes are zeros.
///
/// It holds a piece of the file at a time. Errors: `Memory` where a growth was refused, and `Write` where the writer
/// failed; a front of the bytes, or of the refusal, was written then, or nothing.
pub fn cat_image<W: Write, E: Write>(
    alloc: Global,
    bytes: &[u8],
    path: &[u8],
    writer: &mut W,
    errors: &mut E,
) -> Result<Answered, ScriptError>
    ensures ok { IfOk result (λ answered. WritesLook (GivesBytes path.now) bytes.now (written (W.contents writer.old) (E.contents errors.old))
        (written (W.contents writer.new) (E.contents errors.new)) answered) }
    ensures err { IfErr result (λ e. FailsCat (GivesBytes path.now) bytes.now e (written (W.contents writer.old) (E.contents errors.old)) (written (W.contents writer.new) (E.contents errors.new))) }
{
    let opened = open_image(alloc, bytes)?;
    let answered = cat_opened(alloc, &opened, path, writer, errors);
    close(opened);
    answered
}

fn cat_opened<W: Write, E: Write>(
    alloc: Global,
    opened: &Opened<'_>,
    path: &[u8],
    writer: &mut W,
    errors: &mut E,
) -> Result<Answered, ScriptError>
    requires { (bytes : List ℕ) × IsOpened (region_of bytes) opened.now }
    ensures ok { (bytes : List ℕ) → IsOpened (region_of bytes) opened.now → IfOk result (λ answered. WritesLook (GivesBytes path.now) bytes (written (W.contents writer.old) (E.contents errors.old))
        (written (W.contents writer.new) (E.contents errors.new)) answered) }
    ensures err { (bytes : List ℕ) → IsOpened (region_of bytes) opened.now → IfErr result (λ e. FailsCat (GivesBytes path.now) bytes e (written (W.contents writer.old) (E.contents errors.old))
        (written (W.contents writer.new) (E.contents errors.new))) }
{
    match opened {
        Opened::Mounted(mount) => {
            let status = cat_file(alloc, mount, path, writer, errors)?;
            Ok(Answered {
                status,
                faults: mount.faults().len(),
            })
        }
        Opened::Refused(refusal) => {
            let look = refused_look(alloc, *refusal)?;
            write_text(errors, look.text.as_bytes())?;
            Ok(look.answered)
        }
    }
}

// Writes what is told of a look: a refusal to the errors, and all else to the writer.
pub(crate) fn write_look<W: Write, E: Write>(
    look: &Look,
    writer: &mut W,
    errors: &mut E,
) -> Result<(), ScriptError>
    ensures ok { OnOk result (Sends look.now.answered.status (written (W.contents writer.old) (E.contents errors.old)) (written (W.contents writer.new) (E.contents errors.new))
        (string_bytes look.now.text)) }
    ensures err { OnErr result (SendsFront look.now.answered.status (written (W.contents writer.old) (E.contents errors.old)) (written (W.contents writer.new) (E.contents errors.new))
        (string_bytes look.now.text)) }
    ensures kind { IfErr result (λ e. e ≡ ScriptError.Write) }
{
    if look.answered.status == Last::Sound.status() {
        write_text(writer, look.text.as_bytes())
    } else {
        write_text(errors, look.text.as_bytes())
    }
}

fn look_at_names(alloc: Global, bytes: &[u8], path: &[u8]) -> Result<Look, AllocError>
    ensures { IfOk result (λ look. IsLook (ListsNames path.now) (region_of bytes.now) (string_bytes look.text) look.answered) }
{
    let opened = open_image(alloc, bytes)?;
    let look = names_in(alloc, &opened, path);
    close(opened);
    look
}

fn names_in(alloc: Global, opened: &Opened<'_>, path: &[u8]) -> Result<Look, AllocError>
    ensures { (R : Region) → IsOpened R opened.now → IfOk result (λ look. IsLook (ListsNames path.now) R (string_bytes look.text) look.answered) }
{
    match opened {
        Opened::Mounted(mount) => {
            let told = list_text(alloc, mount, path)?;
            Ok(told_look(told, mount.faults().len()))
        }
        Opened::Refused(refusal) => refused_look(alloc, *refusal),
    }
}

fn look_at_numbers(alloc: Global, bytes: &[u8], path: &[u8]) -> Result<Look, AllocError>
    ensures { IfOk result (λ look. IsLook (TellsNumbers path.now) (region_of bytes.now) (string_bytes look.text) look.answered) }
{
    let opened = open_image(alloc, bytes)?;
    let look = numbers_in(alloc, &opened, path);
    close(opened);
    look
}

fn numbers_in(alloc: Global, opened: &Opened<'_>, path: &[u8]) -> Result<Look, AllocError>
    ensures { (R : Region) → IsOpened R opened.now → IfOk result (λ look. IsLook (TellsNumbers path.now) R (string_bytes look.text) look.answered) }
{
    match opened {
        Opened::Mounted(mount) => {
            let told = stat_text(alloc, mount, path)?;
            Ok(told_look(told, mount.faults().len()))
        }
        Opened::Refused(refusal) => refused_look(alloc, *refusal),
    }
}

// Recovers the region of these bytes on this thread, and mounts it.
pub(crate) fn open_image(alloc: Global, bytes: &[u8]) -> Result<Opened<'_>, AllocError>
    ensures { IfOk result (IsOpened (region_of bytes.now)) }
{
    let image = recover_image(alloc, bytes)?;
    match image {
        Image::Recovered(memory, recovered) => {
            Ok(Opened::Mounted(Fs::open(alloc, memory, recovered)))
        }
        Image::Refused(refusal) => Ok(Opened::Refused(refusal)),
    }
}

// Lets go of what was opened. A mount drops what it holds where it gives its memory back.
pub(crate) fn close(opened: Opened<'_>) {
    match opened {
        Opened::Mounted(mount) => {
            let _memory = mount.into_memory();
        }
        Opened::Refused(_) => {}
    }
}

pub(crate) fn refused_look(alloc: Global, refusal: Refusal) -> Result<Look, AllocError>
    ensures { IfOk result (λ look. IsRefusal (refusal_name refusal) (string_bytes look.text) look.answered.status × (look.answered.faults ≡ 0)) }
{
    Ok(Look {
        text: refused_text(alloc, refusal)?,
        answered: Answered {
            status: Last::Refused.status(),
            faults: 0,
        },
    })
}

pub(crate) fn told_look(told: CallText, faults: usize) -> Look
    ensures text { string_bytes result.text ≡ string_bytes told.text }
    ensures status { result.answered.status ≡ (if told.is_refused then 2 else 0) }
    ensures faults { result.answered.faults ≡ faults }
{
    let status = status_of(told.is_refused);
    Look {
        text: told.text,
        answered: Answered { status, faults },
    }
}

// The exit status of a call that was refused or not.
pub(crate) fn status_of(is_refused: bool) -> u8
    ensures { result ≡ (if is_refused then 2 else 0) }
{
    if is_refused {
        Last::Refused.status()
    } else {
        Last::Sound.status()
    }
}

// Writes the bytes of the file that a path leads to, or why they aren't read. Answers the exit status.
fn cat_file<P: Pmem + Drop, W: Write, E: Write>(
    alloc: Global,
    mount: &Fs<P>,
    path: &[u8],
    writer: &mut W,
    errors: &mut E,
) -> Result<u8, ScriptError>
    requires { mount.now.stopped ≡ false }
    ensures ok { (p : Path) → Says path.now p
        → IfOk result (λ status. WritesCall (shown P.region mount.now) p (written (W.contents writer.old) (E.contents errors.old)) (written (W.contents writer.new) (E.contents errors.new)) status) }
    ensures err { (p : Path) → Says path.now p
        → IfErr result (λ e. FailsCall (shown P.region mount.now) p e (written (W.contents writer.old) (E.contents errors.old)) (written (W.contents writer.new) (E.contents errors.new))) }
{
    // No bytes: the same tests.
    match mount.read(path, 0, 0) {
        Ok(_no_bytes) => write_file(mount, path, writer),
        Err(refusal) => write_refusal(alloc, refusal, errors),
    }
}

// Writes why a call is refused. Answers the exit status.
pub(crate) fn write_refusal<W: Write>(
    alloc: Global,
    refusal: CallRefusal,
    writer: &mut W,
) -> Result<u8, ScriptError>
    ensures ok { IfOk result (λ status. WritesRefusal refusal (W.contents writer.old) (W.contents writer.new) status) }
    ensures err { IfErr result (λ e. FailsRefusal refusal e (W.contents writer.old) (W.contents writer.new)) }
{
    let text = refused_call_text(alloc, refusal)?;
    write_text(writer, text.as_bytes())?;
    Ok(status_of(true))
}

// Writes the bytes of a file, a piece after another. Answers the exit status.
fn write_file<P: Pmem + Drop, W: Write>(
    mount: &Fs<P>,
    path: &[u8],
    writer: &mut W,
) -> Result<u8, ScriptError>
    ensures status { IfOk result (λ status. status ≡ 0) }
    ensures ok { (names : List (List ℕ)) → IsPath path.now names → OnOk result (WritesFile (shown P.region mount.now) names (W.contents writer.old) (W.contents writer.new)) }
    ensures err { (names : List (List ℕ)) → IsPath path.now names → IfErr result (λ e. FailsFile (shown P.region mount.now) names e (W.contents writer.old) (W.contents writer.new)) }
{
    let size = file_size(mount, path)?;
    let mut at = 0;
    while at < size {
        let count = PIECE.min(size - at);
        let piece = file_piece(mount, path, at, count)?;
        write_text(writer, &piece)?;
        at += count;
    }
    Ok(status_of(false))
}

// How many bytes the file has that a path leads to.
fn file_size<P: Pmem + Drop>(mount: &Fs<P>, path: &[u8]) -> Result<u64, AllocError>
    ensures { (names : List (List ℕ)) → IsPath path.now names → IfOk result (IsSized (shown P.region mount.now) names) }
{
    match mount.stat(path) {
        Ok(stat) => Ok(stat.size),
        Err(_) => Err(AllocError),
    }
}

// The bytes of a file from an offset on, at most so many.
fn file_piece<P: Pmem + Drop>(
    mount: &Fs<P>,
    path: &[u8],
    offset: u64,
    count: u64,
) -> Result<Vec<u8>, AllocError>
    ensures { (names : List (List ℕ)) → IsPath path.now names → IfOk result (λ bytes. IsRead (shown P.region mount.now) names offset count bytes.items) }
{
    match mount.read(path, offset, count) {
        Ok(bytes) => Ok(bytes),
        Err(_) => Err(AllocError),
    }
}
