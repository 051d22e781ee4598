//! The check of images in several files, one after another. Each line that it prints begins with the path of its file.

ghost use Rattle.std.specs.Prelude.{◌≡◌, ◌≢◌, ◌≤◌, ◌++◌, IfOk, IfErr, OnOk, map, string_bytes};
ghost use Rattle.std.specs.Io.KnownBytes.{Appends};
ghost use Rattle.std.specs.Str.Lines.{lines};
ghost use Rattle.nv_image_files.specs.Images.{IsUnanswered};
ghost use Rattle.nv_metadata.specs.Gathered.{IsOpen};
ghost use Rattle.nv_image_check.specs.Files.{IsUnchecked};
ghost use Rattle.nv_image_check.specs.Several.{IsImageCheck, WritesNamed, FailsNamed, FailsLines, named_line, named_lines};

use crate::checking::{Checked, check_bytes, refused};
use crate::files::tell_image_refused;
use crate::gathered::check_metadata;
use crate::plain::{gather_plain, why_plain_refused};
use nv_image_files::{
    Failure, Image, ImageFile, Shown, open_image, read_image, tell_explain, tell_failure,
    tell_unaccepted,
};
use nv_metadata::{Blocks, Gathered};
use nv_report::Last;
use nv_stream::{ScriptError, write_text};
use nv_super::SuperFault;
use nv_text::{Output, Refusal};
use std::alloc::{AllocError, Global};
use std::fmt::Write as _;
use std::io;
use std::io::Write;
use std::rt::Files;
use std::thread::Threads;

/// Checks the images in the files at these paths one after another, as `check_file` checks one. Of each it prints a line of sums,
/// or its faults alone, and each line begins with the path. Answers the greatest of their exit statuses. A file that can't be
/// read has status 2, and standard error says why.
///
/// Errors: want of memory or of a place to write to, by which the later ones aren't checked.
pub fn check_files<'a, H: Files + AllocGlobal + Print + Eprint + Threads + Sync>(
    rt: &H,
    paths: &[&'a str],
    workers: u32,
    output: Output,
) -> Result<u8, Failure<'a>>
where
    H::File: Blocks + Sync,
    ensures status { IfOk result (λ status. status ≤ 2) }
    ensures error { IfErr result IsUnanswered }
{
    let mut greatest = Last::Sound.status();
    for path in paths {
        greatest = greatest.max(check_path(rt, path, workers, in_lines(output))?);
    }
    if greatest == Last::Faulty.status() {
        tell_explain(rt);
    }
    Ok(greatest)
}

// What is printed of one of several images: a line of sums in place of the whole report.
fn in_lines(output: Output) -> Output {
    match output {
        Output::Report | Output::Summary => Output::Summary,
        Output::OnlyFaults => Output::OnlyFaults,
        Output::Json => Output::Json,
    }
}

// Checks the image in the file at a path, where it can be read.
fn check_path<'a, H: Files + AllocGlobal + Print + Eprint + Threads + Sync>(
    rt: &H,
    path: &'a str,
    workers: u32,
    output: Output,
) -> Result<u8, Failure<'a>>
where
    H::File: Blocks + Sync,
    ensures status { IfOk result (λ status. status ≤ 2) }
    ensures error { IfErr result IsUnanswered }
{
    match check_readable(rt, path, workers, output) {
        Ok(status) => Ok(status),
        Err(Failure::Answer(error)) => Err(Failure::Answer(error)),
        Err(failure) => {
            tell_failure(rt, failure);
            Ok(Last::Refused.status())
        }
    }
}

// Checks the image in the file at a path: a plain file by its metadata, where that can be, and any other as a whole.
fn check_readable<'a, H: Files + AllocGlobal + Print + Eprint + Threads + Sync>(
    rt: &H,
    path: &'a str,
    workers: u32,
    output: Output,
) -> Result<u8, Failure<'a>>
where
    H::File: Blocks + Sync,
    ensures status { IfOk result (λ status. status ≤ 2) }
    ensures error { IfErr result (IsUnchecked path.entry) }
{
    let name = format!(in rt.alloc(); "{}: ", Shown(path))?;
    let file = open_image(rt, path)?;
    match gather_plain(rt, rt.alloc(), &file, u64::from(workers))? {
        Some(gathered) => {
            let why = why_plain_refused(&file, &gathered)?;
            let status = check_gathered_named(rt, &name, gathered, workers, output)?;
            tell_unaccepted(rt, why);
            Ok(status)
        }
        None => check_whole_named(rt, &name, file, workers, output),
    }
}

// Checks an image of which this was gathered, and prints it with a name before each line.
fn check_gathered_named<H: AllocGlobal + Print + Threads + Sync>(
    rt: &H,
    name: &str,
    gathered: Gathered,
    workers: u32,
    output: Output,
) -> Result<u8, ScriptError>
    requires { IsOpen gathered }
    ensures status { IfOk result (λ status. status ≤ 2) }
    ensures error { IfErr result (λ e. e ≢ ScriptError.Read) }
{
    let checked = check_metadata(rt, rt.alloc(), gathered, u64::from(workers), output)?;
    write_named(rt.alloc(), name, &checked, &mut io::writer(rt))
}

// Checks an image that is read whole, and prints it with a name before each line.
fn check_whole_named<'a, H: Files + AllocGlobal + Print + Eprint + Threads + Sync>(
    rt: &H,
    name: &str,
    file: ImageFile<'a, H::File>,
    workers: u32,
    output: Output,
) -> Result<u8, Failure<'a>>
where
    ensures status { IfOk result (λ status. status ≤ 2) }
    ensures error { IfErr result (IsUnchecked file.entry.path) }
{
    let image = read_image(rt.alloc(), file)?;
    let writer = &mut io::writer(rt);
    let status = check_named(rt, name, &image, workers, output, writer)?;
    tell_image_refused(rt, &image, status);
    Ok(status)
}

// Checks an image, and writes what is printed of it with a name before each line.
fn check_named<H: AllocGlobal + Threads + Sync, W: Write>(
    rt: &H,
    name: &str,
    image: &Image,
    workers: u32,
    output: Output,
    writer: &mut W,
) -> Result<u8, ScriptError>
    ensures ok { IfOk result (λ status. WritesNamed name.now output image.now workers (W.contents writer.old) (W.contents writer.new) status) }
    ensures err { IfErr result (λ e. FailsNamed name.now output image.now workers e (W.contents writer.old) (W.contents writer.new)) }
{
    let alloc = rt.alloc();
    let checked = image_text(rt, alloc, image, workers, output)?;
    write_named(alloc, name, &checked, writer)
}

// What is printed of an image, and the exit status of its check. One that is longer than a region can be is refused as `S1`.
fn image_text<H: Threads + Sync>(
    rt: &H,
    alloc: Global,
    image: &Image,
    workers: u32,
    output: Output,
) -> Result<Checked, AllocError>
    ensures { IfOk result (λ checked. IsImageCheck output image.now workers (string_bytes checked.text) checked.status) }
{
    match image {
        Image::Bytes(bytes) => check_bytes(rt, alloc, bytes, u64::from(workers), output),
        Image::TooLong(_) => refused(alloc, Refusal::Super(SuperFault::Length)),
    }
}

// Writes what a check prints with a name before each line, and answers its status.
fn write_named<W: Write>(
    alloc: Global,
    name: &str,
    checked: &Checked,
    writer: &mut W,
) -> Result<u8, ScriptError>
    ensures ok { IfOk result (λ status. (status ≡ checked.now.status) × Appends (W.contents writer.old) (W.contents writer.new) (named_lines name.now (string_bytes checked.now.text))) }
    ensures err { IfErr result (λ e. FailsLines (named_lines name.now (string_bytes checked.now.text)) e (W.contents writer.old) (W.contents writer.new)) }
{
    let text = named_lines(alloc, name, &checked.text)?;
    write_text(writer, text.as_bytes())?;
    Ok(checked.status)
}

fn named_lines(alloc: Global, name: &str, text: &str) -> Result<String, AllocError>
    ensures { IfOk result (λ named. string_bytes named ≡ named_lines name.now text.now) }
{
    let lines = lines_in(alloc, text)?;
    let mut named = String::new(alloc);
    for line in &lines {
        push_line(&mut named, name, line)?;
    }
    Ok(named)
}

fn lines_in(alloc: Global, text: &str) -> Result<Vec<&str>, AllocError>
    ensures { IfOk result (λ found. map (λ line. line.now) found.items ≡ lines text.now) }
{
    text.lines().collect(alloc)
}

fn push_line(named: &mut String, name: &str, line: &str) -> Result<(), AllocError>
    ensures { OnOk result (string_bytes named.new ≡ string_bytes named.old ++ named_line name.now line.now) }
{
    writeln!(named, "{name}{line}")
}
