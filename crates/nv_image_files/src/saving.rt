//! Writing files: images, and what is drawn of them.

ghost use Rattle.std.specs.Prelude.{◌≡◌, ◌⊎◌, IfErr, IfOk, IfSome, OnOk, true, false, is_none};
ghost use Rattle.std.specs.Io.KnownBytes.{Appends};
ghost use Rattle.nv_region.specs.Region.{bytes_of};
ghost use Rattle.nv_image_files.specs.Images.{IsUnsaved, IsUnanswered};

use crate::failure::Failure;
use crate::telling::tell_left;
use nv_region::MemRegion;
use nv_stream::{
    Allowed, Content, Lock, Place, ScriptError, Stamp, hold_place, hold_saved, save_at, try_beside,
};
use std::io;
use std::io::{ErrorKind, Write};
use std::rt::Files;

/// A file that is to be written.
#[derive(Clone, Copy)]
pub struct Target<'a> {
    pub path: &'a str,
    /// Whether it may take the place of a file that is there.
    pub force: bool,
}

/// A file that is to be written, whose place is held: what is there has this run's lock, as long as this is kept.
#[derive(Drop)]
pub struct Held<'a, F: Drop> {
    pub target: Target<'a>,
    /// None for standard output, which `-` stands for.
    pub place: Option<Place<F>>,
}

impl<F: Drop> Held<'_, F> {
    ghost use Rattle.std.specs.Prelude.{◌≡◌, is_none};

    /// Whether the bytes go to standard output.
    pub fn is_output(&self) -> bool
        ensures { result ≡ is_none self.now.place }
    {
        self.place.is_none()
    }
}

/// Holds the place of a file that is to be written.
///
/// Errors: `CannotWrite`, where what is there is no file, or is held by another run.
pub fn hold<'a, H: Files>(rt: &H, target: Target<'a>) -> Result<Held<'a, H::File>, Failure<'a>>
where
    H::File: Lock,
    ensures target { IfOk result (λ held. held.target ≡ target.entry) }
    ensures error { IfErr result (IsUnsaved target.entry.path) }
{
    if target.path == "-" {
        return Ok(Held {
            target,
            place: None,
        });
    }
    match hold_place(rt, target.path) {
        Ok(place) => Ok(Held {
            target,
            place: Some(place),
        }),
        Err(unsaved) => Err(Failure::unsaved(target.path, unsaved)),
    }
}

/// Sees that a file can be written at its place, before anything is done for it: it doesn't replace what the command
/// reads, and another file only by force or where that is the image which is read; and a new file can be made beside
/// it. What a run that was stopped has left there is named on standard error.
///
/// Errors: `CannotWrite`, and want of memory.
pub fn see_ready<'a, H: Files + AllocGlobal + Eprint>(
    rt: &H,
    held: &Held<'a, H::File>,
    read: Option<Stamp>,
    image: Option<Stamp>,
) -> Result<(), Failure<'a>>
where
    H::File: Lock,
    ensures { IfErr result (IsUnsaved held.now.target.path) }
{
    let Target { path, force } = held.target;
    let Some(place) = &held.place else {
        return Ok(());
    };
    let allowed = Allowed { read, image, force };
    if let Some(unsaved) = place.refusal(allowed) {
        return Err(Failure::unsaved(path, unsaved));
    }
    match try_beside(rt, path) {
        Ok(left) => {
            tell_left(rt, path, left);
            Ok(())
        }
        Err(unsaved) => Err(Failure::unsaved(path, unsaved)),
    }
}

/// Writes a file of these bytes at its place, or the bytes to standard output.
///
/// Errors: `CannotWrite`, and want of memory; what was at its place is as before. Standard output that can't be written.
pub fn save_file<'a, H: Files + AllocGlobal + Print>(
    rt: &H,
    held: &Held<'a, H::File>,
    bytes: &[u8],
) -> Result<(), Failure<'a>>
where
    H::File: Lock,
    ensures file { is_none held.now.place ≡ false → IfErr result (IsUnsaved held.now.target.path) }
    ensures output { is_none held.now.place ≡ true → IfErr result IsUnanswered }
{
    let _file = save_content(rt, held, &bytes)?;
    Ok(())
}

/// `save_file` of the bytes of a region as it reads, which are written in pieces.
pub fn save_region<'a, H: Files + AllocGlobal + Print>(
    rt: &H,
    held: &Held<'a, H::File>,
    region: &MemRegion,
) -> Result<(), Failure<'a>>
where
    H::File: Lock,
    ensures file { is_none held.now.place ≡ false → IfErr result (IsUnsaved held.now.target.path) }
    ensures output { is_none held.now.place ≡ true → IfErr result IsUnanswered }
{
    let _file = save_content(rt, held, &RegionContent { region })?;
    Ok(())
}

/// `save_region`, which goes on holding the place: the new file has its lock from before it is there. Answers nothing where the
/// place can't be held any more, and for standard output.
///
/// Errors: those of `save_file`.
pub fn save_and_hold<'a, H: Files + AllocGlobal + Print>(
    rt: &H,
    held: &Held<'a, H::File>,
    region: &MemRegion,
) -> Result<Option<Held<'a, H::File>>, Failure<'a>>
where
    H::File: Lock,
    ensures target { IfOk result (λ after. IfSome after (λ new. new.target ≡ held.now.target)) }
    ensures file { is_none held.now.place ≡ false → IfErr result (IsUnsaved held.now.target.path) }
    ensures output { is_none held.now.place ≡ true → IfErr result IsUnanswered }
{
    match save_content(rt, held, &RegionContent { region })? {
        Some(file) => Ok(held_again(rt, held.target, file)),
        None => Ok(None),
    }
}

// The place of a file that was just written there.
fn held_again<'a, H: Files>(rt: &H, target: Target<'a>, file: H::File) -> Option<Held<'a, H::File>>
    ensures { IfSome result (λ held. held.target ≡ target.entry) }
{
    match hold_saved(rt, target.path, file) {
        Ok(place) => Some(Held {
            target,
            place: Some(place),
        }),
        Err(_) => None,
    }
}

// The bytes of a region, as what a file is to hold.
#[derive(Drop)]
struct RegionContent<'a> {
    region: &'a MemRegion,
}

impl Content for RegionContent<'_> {
    ghost use Rattle.nv_region.specs.Region.{bytes_of};

    ghost bytes = { λ content. bytes_of content.region.now.region };

    fn write_to<W: Write>(&self, writer: &mut W) -> Result<(), io::Error> {
        self.region.write_to(writer)
    }
}

// Writes a file of this content at its place, and answers it; or writes the content to standard output.
fn save_content<'a, H: Files + AllocGlobal + Print, C: Content>(
    rt: &H,
    held: &Held<'a, H::File>,
    content: &C,
) -> Result<Option<H::File>, Failure<'a>>
where
    H::File: Lock,
    ensures file { is_none held.now.place ≡ false → IfErr result (IsUnsaved held.now.target.path) }
    ensures output { is_none held.now.place ≡ true → IfErr result IsUnanswered }
{
    let Some(place) = &held.place else {
        write_content(&mut io::writer(rt), content)?;
        return Ok(None);
    };
    match save_at(rt, held.target.path, place, content) {
        Ok(file) => Ok(Some(file)),
        Err(unsaved) => Err(Failure::unsaved(held.target.path, unsaved)),
    }
}

// Writes a content to standard output.
fn write_content<W: Write, C: Content>(writer: &mut W, content: &C) -> Result<(), ScriptError>
    ensures ok { OnOk result (Appends (W.contents writer.old) (W.contents writer.new) (C.bytes content.now)) }
    ensures kind { IfErr result (λ e. (e ≡ ScriptError.Write) ⊎ (e ≡ ScriptError.Memory)) }
{
    match content.write_to(writer) {
        Ok(()) => Ok(()),
        Err(error) if error.kind() == ErrorKind::OutOfMemory => Err(ScriptError::Memory),
        Err(_) => Err(ScriptError::Write),
    }
}
