//! The bytes of the image in a file.

ghost use Rattle.std.specs.Prelude.{◌≡◌, ◌≤◌, OnOk, OnErr, IfOk, IfErr, IfSome, IsNone, Some, ℕ, List, codes, length};
ghost use Rattle.nv_region.specs.Region.{region_of, bytes_of, size};
ghost use Rattle.nv_super.specs.Super.{IsRefused};
ghost use Rattle.nv_super.specs.declared.superblock.SuperFault.{SuperFault};
ghost use Rattle.nv_image_files.specs.Superblocks.{said_of, known_content, Begins};
ghost use Rattle.std.specs.Io.KnownBytes.{Appends};
ghost use Rattle.nv_stream.specs.Streams.{AppendsFront};
ghost use Rattle.nv_image_files.specs.Images.{IsRegionLength, KeepsLongest, IsUnread, length_of, HoldsBytes, StartsSettled, KeepsLongestRegion};

use crate::failure::Failure;
use crate::superblock::{BadSuper, Content, bad_first, bad_super, known_content};
use nv_region::{ImageRegion, MemRegion, Pmem, RegionBytes, RegionRefusal};
use nv_report::{BadLength, LONGEST_REGION, is_region_length};
use nv_stream::{
    Contents, Opened, ScriptError, Unread, contents_of, copy_whole, open_at, write_text,
};
use nv_super::SuperFault;
use std::alloc::{AllocError, Global};
use std::io::{Read, Write};
use std::rt::Files;

// The status of an image that is refused.
const REFUSED_STATUS: u8 = 2;

// The words in which what is recognized of a file stands: its first 1088 bytes.
const WORDS_TO_KNOW: usize = 136;

/// What the file of an image holds.
#[derive(Drop)]
pub enum Image {
    Bytes(Vec<u8>),
    /// More bytes than a region can have, which are not read.
    TooLong(BadLength),
}

/// The region in the file of an image.
#[derive(Drop)]
pub enum Loaded {
    /// It, in memory.
    Region(MemRegion),
    /// More bytes than a region can have, which are not read.
    TooLong(BadLength),
}

/// The file of an image, which is open and not read yet.
#[derive(Drop)]
pub struct ImageFile<'a, F: Drop> {
    pub path: &'a str,
    pub opened: Opened<F>,
}

/// Opens the file of an image. Errors: `CannotRead`.
pub fn open_image<'a, H: Files>(
    rt: &H,
    path: &'a str,
) -> Result<ImageFile<'a, H::File>, Failure<'a>>
    ensures path { IfOk result (λ file. file.path ≡ path.entry) }
    ensures error { IfErr result (IsUnread path.entry) }
{
    match open_at(rt, path) {
        Ok(opened) => Ok(ImageFile { path, opened }),
        Err(error) => Err(Failure::unread(path, Unread::from(error))),
    }
}

/// Reads an image, once.
///
/// Errors: `CannotRead` where the file can't be read, and want of memory.
pub fn read_image<'a, F: Read + Drop>(
    alloc: Global,
    file: ImageFile<'a, F>,
) -> Result<Image, Failure<'a>>
    ensures longest { IfOk result KeepsLongest }
    ensures error { IfErr result (IsUnread file.entry.path) }
{
    let ImageFile { path, opened } = file;
    match contents_of(alloc, opened, LONGEST_REGION) {
        Ok(Contents::Whole(bytes)) => Ok(Image::Bytes(bytes)),
        Ok(Contents::Longer(told)) => Ok(Image::TooLong(length_of(told))),
        Err(unread) => Err(Failure::unread(path, unread)),
    }
}

/// Reads the image in the file at a path, once.
///
/// Errors: `CannotRead` where the file can't be opened or read, and want of memory.
pub fn image_at<'a, H: Files + AllocGlobal>(rt: &H, path: &'a str) -> Result<Image, Failure<'a>>
    ensures longest { IfOk result KeepsLongest }
    ensures error { IfErr result (IsUnread path.entry) }
{
    read_image(rt.alloc(), open_image(rt, path)?)
}

/// Reads an image as a region, once and in pieces: no more than a piece is held beside the region. It has nothing pending, and no
/// fuse.
///
/// Errors: `CannotRead` where the file can't be read, and want of memory.
pub fn load_image<'a, F: Read + Drop>(
    alloc: Global,
    file: ImageFile<'a, F>,
) -> Result<Loaded, Failure<'a>>
    ensures region { IfOk result (λ loaded. IfSome (F.remaining file.entry.opened.file) (λ bytes. HoldsBytes bytes loaded)) }
    ensures settled { IfOk result StartsSettled }
    ensures longest { IfOk result KeepsLongestRegion }
    ensures error { IfErr result (IsUnread file.entry.path) }
{
    let ImageFile { path, opened } = file;
    load_opened(alloc, opened).map_err(|unread| Failure::unread(path, unread))
}

/// Reads the image in the file at a path as a region, as `load_image` does.
///
/// Errors: `CannotRead` where the file can't be opened or read, and want of memory.
pub fn region_at<'a, H: Files + AllocGlobal>(rt: &H, path: &'a str) -> Result<Loaded, Failure<'a>>
    ensures settled { IfOk result StartsSettled }
    ensures longest { IfOk result KeepsLongestRegion }
    ensures error { IfErr result (IsUnread path.entry) }
{
    load_image(rt.alloc(), open_image(rt, path)?)
}

// A file that says that it is longer isn't read.
fn load_opened<F: Read + Drop>(alloc: Global, opened: Opened<F>) -> Result<Loaded, Unread>
    ensures region { IfOk result (λ loaded. IfSome (F.remaining opened.file) (λ bytes. HoldsBytes bytes loaded)) }
    ensures settled { IfOk result StartsSettled }
    ensures longest { IfOk result KeepsLongestRegion }
{
    let Opened { file, stamp } = opened;
    let told = stamp.length;
    match usize::try_from(told) {
        Ok(length) if length <= LONGEST_REGION => load_pieces(alloc, file, length),
        _ => Ok(Loaded::TooLong(BadLength::Bytes(told))),
    }
}

fn load_pieces<F: Read + Drop>(alloc: Global, file: F, length: usize) -> Result<Loaded, Unread>
    requires { length ≤ LONGEST_REGION }
    ensures region { IfOk result (λ loaded. IfSome (F.remaining file) (λ bytes. HoldsBytes bytes loaded)) }
    ensures settled { IfOk result StartsSettled }
    ensures longest { IfOk result KeepsLongestRegion }
{
    let mut bytes = RegionBytes::new(alloc, length)?;
    if !copy_whole(file, LONGEST_REGION, &mut bytes)? {
        return Ok(Loaded::TooLong(BadLength::MoreThan(LONGEST_REGION as u64)));
    }
    match bytes.into_region() {
        Ok(region) => Ok(Loaded::Region(region)),
        // There are no more bytes than a region can have.
        Err(RegionRefusal::Length) | Err(RegionRefusal::Memory) => Err(Unread::Memory),
    }
}

/// Writes the answer to bytes that are too many for a region, and gives its exit status. Errors: `Write` where the writer failed.
pub fn refuse_length<W: Write>(writer: &mut W) -> Result<u8, ScriptError>
    ensures ok { OnOk result (Appends (W.contents writer.old) (W.contents writer.new) (codes "refused S1\n")) }
    ensures err { OnErr result (AppendsFront (W.contents writer.old) (W.contents writer.new) (codes "refused S1\n")) }
    ensures status { IfOk result (λ status. status ≡ 2) }
    ensures kind { IfErr result (λ e. e ≡ ScriptError.Write) }
{
    write_text(writer, b"refused S1\n")?;
    Ok(REFUSED_STATUS)
}

/// Says on standard error for which length an image was refused, right behind that.
pub fn tell_length<H: Eprint>(rt: &H, length: BadLength) {
    let _ = eprintln!(rt; "{length}");
}

/// Why an image isn't accepted: for its length, or for the words of its superblock; and what else its bytes are, where that is
/// recognized.
#[derive(Clone, Copy)]
pub struct Unaccepted {
    length: Option<BadLength>,
    words: Option<BadSuper>,
    content: Option<Content>,
}

/// Why an image of these bytes isn't accepted, where that is told.
pub fn why_refused(alloc: Global, bytes: &[u8]) -> Option<Unaccepted>
    ensures length { IfSome result (λ why. IfSome why.length (λ told. (told ≡ BadLength.Bytes (length bytes.now)) × (¬ IsRegionLength (length bytes.now)))) }
    ensures words { IfSome result (λ why. IfSome why.words (λ words. (fault : SuperFault) × IsRefused (region_of bytes.now) fault × (said_of (region_of bytes.now) fault ≡ Some words))) }
    ensures content { IfSome result (λ why. why.content ≡ known_content bytes.now) }
    ensures none { IsNone result → IsRegionLength (length bytes.now) }
{
    let length = told_length(bytes.len() as u64);
    let words = told_words(alloc, bytes);
    if length.is_none() && words.is_none() {
        return None;
    }
    Some(Unaccepted {
        length,
        words,
        content: known_content(bytes),
    })
}

/// `why_refused` of the bytes of a region. Errors: `AllocError` where a growth was refused.
pub fn why_region_refused(
    alloc: Global,
    region: &MemRegion,
) -> Result<Option<Unaccepted>, AllocError>
    ensures length { IfOk result (λ told. IfSome told (λ why. IfSome why.length (λ told. (told ≡ BadLength.Bytes (size region.now.region)) × (¬ IsRegionLength (size region.now.region))))) }
    ensures words { IfOk result (λ told. IfSome told (λ why. IfSome why.words (λ words. (fault : SuperFault) × IsRefused region.now.region fault × (said_of region.now.region fault ≡ Some words)))) }
    ensures content { IfOk result (λ told. IfSome told (λ why. why.content ≡ known_content (bytes_of region.now.region))) }
    ensures none { IfOk result (λ told. IsNone told → IsRegionLength (size region.now.region)) }
{
    let length = told_length(region.len());
    let words = bad_super(region);
    if length.is_none() && words.is_none() {
        return Ok(None);
    }
    let content = known_content(&region.first_bytes(WORDS_TO_KNOW)?);
    Ok(Some(Unaccepted {
        length,
        words,
        content,
    }))
}

/// `why_refused` of the image in a file of so many bytes, of which no more is at hand than its first ones: at least those by which
/// its content is recognized, or all. It is refused for this fault.
pub fn why_file_refused(fault: SuperFault, count: u64, first: &[u8]) -> Unaccepted
    ensures length { IfSome result.length (λ told. (told ≡ BadLength.Bytes count) × (¬ IsRegionLength count)) }
    ensures words { (file : List ℕ) → Begins file count first.now → IsRefused (region_of file) fault → result.words ≡ said_of (region_of file) fault }
    ensures content { (file : List ℕ) → Begins file count first.now → result.content ≡ known_content file }
    ensures none { IsNone result.length → IsRegionLength count }
{
    Unaccepted {
        length: told_length(count),
        words: bad_first(fault, count, first),
        content: known_content(first),
    }
}

/// Says on standard error for what the image of these bytes was refused, where an answer of this status may be that.
pub fn tell_refused<H: Eprint + AllocGlobal>(rt: &H, status: u8, bytes: &[u8]) {
    if status == REFUSED_STATUS {
        tell_unaccepted(rt, why_refused(rt.alloc(), bytes));
    }
}

/// Says on standard error why an image wasn't accepted, where it wasn't.
pub fn tell_unaccepted<H: Eprint>(rt: &H, why: Option<Unaccepted>) {
    let Some(
        Unaccepted {
            length,
            words,
            content,
        },
    ) = why
    else {
        return;
    };
    if let Some(length) = length {
        tell_length(rt, length);
    }
    if let Some(words) = words {
        let _ = eprintln!(rt; "{words}");
    }
    if let Some(content) = content {
        let _ = eprintln!(rt; "{content}");
    }
}

// What isn't accepted of the superblock of an image.
fn told_words(alloc: Global, bytes: &[u8]) -> Option<BadSuper>
    ensures { IfSome result (λ words. (fault : SuperFault) × IsRefused (region_of bytes.now) fault × (said_of (region_of bytes.now) fault ≡ Some words)) }
{
    match ImageRegion::from_bytes(alloc, bytes) {
        Ok(memory) => bad_super(&memory),
        Err(_) => None,
    }
}

// The length of an image, where no region has so many bytes.
fn told_length(length: u64) -> Option<BadLength>
    ensures told { IfSome result (λ told. (told ≡ BadLength.Bytes length) × (¬ IsRegionLength length)) }
    ensures none { IsNone result → IsRegionLength length }
{
    if is_region_length(length) {
        None
    } else {
        Some(BadLength::Bytes(length))
    }
}

// The length of a file that is too long, where it tells one.
fn length_of(told: Option<u64>) -> BadLength
    ensures { result ≡ length_of told }
{
    match told {
        Some(length) => BadLength::Bytes(length),
        None => BadLength::MoreThan(LONGEST_REGION as u64),
    }
}
