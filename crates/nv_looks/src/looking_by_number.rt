//! Looking into a region that is given as bytes, at an inode that its number names: also at one that no path leads to.

ghost use Rattle.std.specs.Prelude.{◌≡◌, ℕ, List, false, IfOk, IfErr, OnOk, string_bytes};
ghost use Rattle.nv_region.specs.Region.{Region, region_of};
ghost use Rattle.nv_calls.specs.ByNumber.{IsInodeRead};
ghost use Rattle.nv_looks.specs.Sent.{written};
ghost use Rattle.nv_looks.specs.Looking.{IsLook, IsOpened, WritesLook, FailsLook, FailsCat};
ghost use Rattle.nv_looks.specs.LookingByNumber.{ListsInodeNames, TellsInodeNumbers, GivesInodeBytes, IsInodeSized, WritesInode, FailsInode, WritesInodeCall, FailsInodeCall};
ghost use Rattle.nv_calls.specs.Mount.{shown};

use crate::looking::{
    Look, Opened, PIECE, close, open_image, refused_look, status_of, told_look, write_look,
    write_refusal,
};
use nv_image_check::Answered;
use nv_region::Pmem;
use nv_session::{Fs, list_inode_text, stat_inode_text};
use nv_stream::{ScriptError, write_text};
use std::alloc::{AllocError, Global};
use std::io::Write;

/// Writes the names of the directory of this number in the region of these bytes, a line each as a script prints them, or
/// `refused NAME` to the errors. Errors as of `list_image`.
pub fn list_inode_image<W: Write, E: Write>(
    alloc: Global,
    bytes: &[u8],
    inode: u64,
    writer: &mut W,
    errors: &mut E,
) -> Result<Answered, ScriptError>
    ensures ok { IfOk result (λ answered. WritesLook (ListsInodeNames inode) bytes.now (written (W.contents writer.old) (E.contents errors.old))
        (written (W.contents writer.new) (E.contents errors.new)) answered) }
    ensures err { IfErr result (λ e. FailsLook (ListsInodeNames inode) bytes.now e (written (W.contents writer.old) (E.contents errors.old))
        (written (W.contents writer.new) (E.contents errors.new))) }
{
    let look = look_at_inode_names(alloc, bytes, inode)?;
    write_look(&look, writer, errors)?;
    Ok(look.answered)
}

/// Writes the numbers of the inode of this number in the region of these bytes, as a script prints them, or `refused NAME`
/// to the errors. Errors as of `list_image`.
pub fn stat_inode_image<W: Write, E: Write>(
    alloc: Global,
    bytes: &[u8],
    inode: u64,
    writer: &mut W,
    errors: &mut E,
) -> Result<Answered, ScriptError>
    ensures ok { IfOk result (λ answered. WritesLook (TellsInodeNumbers inode) bytes.now (written (W.contents writer.old) (E.contents errors.old))
        (written (W.contents writer.new) (E.contents errors.new)) answered) }
    ensures err { IfErr result (λ e. FailsLook (TellsInodeNumbers inode) bytes.now e (written (W.contents writer.old) (E.contents errors.old))
        (written (W.contents writer.new) (E.contents errors.new))) }
{
    let look = look_at_inode_numbers(alloc, bytes, inode)?;
    write_look(&look, writer, errors)?;
    Ok(look.answered)
}

/// Writes the bytes of the file of this number in the region of these bytes, from the first to the last, or `refused NAME` to
/// the errors. Holes are zeros. Errors as of `cat_image`.
pub fn cat_inode_image<W: Write, E: Write>(
    alloc: Global,
    bytes: &[u8],
    inode: u64,
    writer: &mut W,
    errors: &mut E,
) -> Result<Answered, ScriptError>
    ensures ok { IfOk result (λ answered. WritesLook (GivesInodeBytes inode) bytes.now (written (W.contents writer.old) (E.contents errors.old))
        (written (W.contents writer.new) (E.contents errors.new)) answered) }
    ensures err { IfErr result (λ e. FailsCat (GivesInodeBytes inode) bytes.now e (written (W.contents writer.old) (E.contents errors.old)) (written (W.contents writer.new) (E.contents errors.new))) }
{
    let opened = open_image(alloc, bytes)?;
    let answered = cat_inode_opened(alloc, &opened, inode, writer, errors);
    close(opened);
    answered
}

fn cat_inode_opened<W: Write, E: Write>(
    alloc: Global,
    opened: &Opened<'_>,
    inode: u64,
    writer: &mut W,
    errors: &mut E,
) -> Result<Answered, ScriptError>
    requires { (bytes : List ℕ) × IsOpened (region_of bytes) opened.now }
    ensures ok { (bytes : List ℕ) → IsOpened (region_of bytes) opened.now → IfOk result (λ answered. WritesLook (GivesInodeBytes inode) bytes (written (W.contents writer.old) (E.contents errors.old))
        (written (W.contents writer.new) (E.contents errors.new)) answered) }
    ensures err { (bytes : List ℕ) → IsOpened (region_of bytes) opened.now → IfErr result (λ e. FailsCat (GivesInodeBytes inode) bytes e (written (W.contents writer.old) (E.contents errors.old))
        (written (W.contents writer.new) (E.contents errors.new))) }
{
    match opened {
        Opened::Mounted(mount) => {
            let status = cat_inode(alloc, mount, inode, writer, errors)?;
            Ok(Answered {
                status,
                faults: mount.faults().len(),
            })
        }
        Opened::Refused(refusal) => {
            let look = refused_look(alloc, *refusal)?;
            write_text(errors, look.text.as_bytes())?;
            Ok(look.answered)
        }
    }
}

fn look_at_inode_names(alloc: Global, bytes: &[u8], inode: u64) -> Result<Look, AllocError>
    ensures { IfOk result (λ look. IsLook (ListsInodeNames inode) (region_of bytes.now) (string_bytes look.text) look.answered) }
{
    let opened = open_image(alloc, bytes)?;
    let look = inode_names_in(alloc, &opened, inode);
    close(opened);
    look
}

fn inode_names_in(alloc: Global, opened: &Opened<'_>, inode: u64) -> Result<Look, AllocError>
    ensures { (R : Region) → IsOpened R opened.now → IfOk result (λ look. IsLook (ListsInodeNames inode) R (string_bytes look.text) look.answered) }
{
    match opened {
        Opened::Mounted(mount) => {
            let told = list_inode_text(alloc, mount, inode)?;
            Ok(told_look(told, mount.faults().len()))
        }
        Opened::Refused(refusal) => refused_look(alloc, *refusal),
    }
}

fn look_at_inode_numbers(alloc: Global, bytes: &[u8], inode: u64) -> Result<Look, AllocError>
    ensures { IfOk result (λ look. IsLook (TellsInodeNumbers inode) (region_of bytes.now) (string_bytes look.text) look.answered) }
{
    let opened = open_image(alloc, bytes)?;
    let look = inode_numbers_in(alloc, &opened, inode);
    close(opened);
    look
}

fn inode_numbers_in(alloc: Global, opened: &Opened<'_>, inode: u64) -> Result<Look, AllocError>
    ensures { (R : Region) → IsOpened R opened.now → IfOk result (λ look. IsLook (TellsInodeNumbers inode) R (string_bytes look.text) look.answered) }
{
    match opened {
        Opened::Mounted(mount) => {
            let told = stat_inode_text(alloc, mount, inode)?;
            Ok(told_look(told, mount.faults().len()))
        }
        Opened::Refused(refusal) => refused_look(alloc, *refusal),
    }
}

// Writes the bytes of the file of this number, or why they aren't read. Answers the exit status.
fn cat_inode<P: Pmem + Drop, W: Write, E: Write>(
    alloc: Global,
    mount: &Fs<P>,
    inode: u64,
    writer: &mut W,
    errors: &mut E,
) -> Result<u8, ScriptError>
    requires { mount.now.stopped ≡ false }
    ensures ok { IfOk result (λ status. WritesInodeCall (shown P.region mount.now) inode (written (W.contents writer.old) (E.contents errors.old))
        (written (W.contents writer.new) (E.contents errors.new)) status) }
    ensures err { IfErr result (λ e. FailsInodeCall (shown P.region mount.now) inode e (written (W.contents writer.old) (E.contents errors.old))
        (written (W.contents writer.new) (E.contents errors.new))) }
{
    // No bytes: the same tests.
    match mount.read_inode(inode, 0, 0) {
        Ok(_no_bytes) => write_inode(mount, inode, writer),
        Err(refusal) => write_refusal(alloc, refusal, errors),
    }
}

// Writes the bytes of a file, a piece after another. Answers the exit status.
fn write_inode<P: Pmem + Drop, W: Write>(
    mount: &Fs<P>,
    inode: u64,
    writer: &mut W,
) -> Result<u8, ScriptError>
    ensures status { IfOk result (λ status. status ≡ 0) }
    ensures ok { OnOk result (WritesInode (shown P.region mount.now) inode (W.contents writer.old) (W.contents writer.new)) }
    ensures err { IfErr result (λ e. FailsInode (shown P.region mount.now) inode e (W.contents writer.old) (W.contents writer.new)) }
{
    let size = inode_size(mount, inode)?;
    let mut at = 0;
    while at < size {
        let count = PIECE.min(size - at);
        let piece = inode_piece(mount, inode, at, count)?;
        write_text(writer, &piece)?;
        at += count;
    }
    Ok(status_of(false))
}

// How many bytes the file has.
fn inode_size<P: Pmem + Drop>(mount: &Fs<P>, inode: u64) -> Result<u64, AllocError>
    ensures { IfOk result (IsInodeSized (shown P.region mount.now) inode) }
{
    match mount.stat_inode(inode) {
        Ok(stat) => Ok(stat.size),
        Err(_) => Err(AllocError),
    }
}

// The bytes of a file from an offset on, at most so many.
fn inode_piece<P: Pmem + Drop>(
    mount: &Fs<P>,
    inode: u64,
    offset: u64,
    count: u64,
) -> Result<Vec<u8>, AllocError>
    ensures { IfOk result (λ bytes. IsInodeRead (shown P.region mount.now) inode offset count bytes.items) }
{
    match mount.read_inode(inode, offset, count) {
        Ok(bytes) => Ok(bytes),
        Err(_) => Err(AllocError),
    }
}
