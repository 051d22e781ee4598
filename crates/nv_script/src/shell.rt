//! A shell: the commands of scripts, one line after another, where a bad line doesn't end what was made.
//!
//! As in a script, a line's whole text is made, or all room for it is there, before a byte of it is written.

ghost use Rattle.std.specs.Prelude.{◌≡◌, ◌≢◌, ◌++◌, ℕ, IfOk, IfErr, IfSome, IfNone, OnErr, List, Option, None, [], option_map, string_bytes};
ghost use Rattle.nv_region.specs.Region.{Region};
ghost use Rattle.nv_session.specs.Machine.{state_with};
ghost use Rattle.nv_session.specs.Sessions.{IsSettled, Leads, Moves, StandsFor, region_in};
ghost use Rattle.nv_session.specs.Printed.{Prints};
ghost use Rattle.nv_session.specs.declared.printed.Printed.TheVariants as printeds;
ghost use Rattle.nv_script.specs.declared.shell.Answer.TheVariants as answers;
ghost use Rattle.nv_script.specs.Script.{FromEach};
ghost use Rattle.nv_script.specs.Shell.{Kept, Grows, GrowsBy, kept_by, IsOwn, IsSaveAnswer, Tells, PrintsAnswer, ShowsLinesEnd, ShowsAnyLines, ShowsShell, FailsShell, Asks, KeepsFor, AnswersLine};
ghost use Rattle.nv_script.specs.Shell.{KnownAnswers, help_text};
ghost use Rattle.nv_script.specs.Transcript.{WritesAll, FailsScript};

use crate::hinting::Hint;
use crate::script::{Ended, bad_line_text, end_of};
use nv_line::{Command, Line, Reason, classify, why_bad};
use nv_region::MemRegion;
use nv_session::{Printed, Session};
use nv_stream::{Next, ScriptError, read_line, write_text};
use std::alloc::{AllocError, Global};
use std::io::{BufReader, Read, Write};
use std::thread::Threads;

const BUFFER_SIZE: usize = 4096;

const TOO_LONG_STATUS: u8 = 2;

/// What `help` prints.
const HELP: &str =
    "list PATH\nstat PATH\nread PATH OFFSET COUNT\ncreate CPU PATH\nmkdir CPU PATH\nwrite CPU PATH OFFSET COUNT BYTE\nsize CPU PATH N\nattr CPU PATH MODE OWNER GROUP\nlink CPU OLD NEW\nunlink CPU PATH\nrmdir CPU PATH\nrename CPU OLD NEW\nclean PATH\nupgrade\ntree\nfree\nfaults\nreport\npeek AT\ntime T\nrecover WORKERS\nreplay WORKERS w w ..\nstop after|at N none|all|alternate\npoke AT VALUE\ncut LENGTH\nformat CPUS BLOCKS TABLES\nhelp\nquit\nsave\nsave PATH\n";

/// What a shell leaves to the program that has it.
pub trait Host {
    /// What was kept so far, where that is known.
    ghost kept: { Self → Option (List Kept) } = { λ _. None };

    /// Is called before each line is read.
    fn prompt(&mut self)
        ensures { Grows (kept self.old) (kept self.new) [] };

    /// Takes the reason why a line is bad.
    fn give(&mut self, hint: Hint)
        ensures { Grows (kept self.old) (kept self.new) [] };

    /// Keeps the region in the file of this path, or without one in that from which it came. Answers whether that was done.
    fn save(&mut self, region: &MemRegion, path: Option<&[u8]>) -> bool
        ensures { Grows (kept self.old) (kept self.new) (kept_by result region.now.region (option_map (λ path. path.now) path.entry)) };
}

/// Runs a shell on a region: recovers it with so many workers and prints the answer, and then reads lines, runs each, and prints
/// what it answers. It ends with the input, at `quit`, or at a line of more than 4,096 bytes. Answers its exit status, which is
/// that of a script, and the region that there is at the end. Nothing is pending in that.
///
/// A bad line prints `bad line K`, and the host is told why. `help` prints the forms of all commands. `save` and `save PATH` ask
/// the host to keep the region, and print `ok` where it is kept, and `not saved` where it isn't or where there is none.
///
/// Errors: `Read` where the reader failed, `Write` where the writer failed, and `Memory` where a growth was refused; the region is
/// gone then. With `Read` and `Memory` the whole output of the lines before was written, and with `Write` a front of it that
/// lacks a byte at least. With `Memory` nothing was written if it came before the first line.
pub fn run_shell<H: Threads + Sync, R: Read + Drop, W: Write, P: Host>(
    rt: &H,
    alloc: Global,
    region: MemRegion,
    workers: u64,
    reader: R,
    writer: &mut W,
    host: &mut P,
) -> Result<Ended, ScriptError>
    // What is written is what these lines may print that keep what the host has kept, and status and region are those with
    // which they may end.
    ensures ok { IfOk result (λ ended. GrowsBy (P.kept host.old) (P.kept host.new) (λ kept. WritesAll (ShowsShell region.region workers kept (option_map (λ memory. memory.region) ended.region))
        (R.remaining reader) (W.contents writer.old) (W.contents writer.new) ended.status)) }
    // Nothing is pending in the region.
    ensures settled { IfOk result (λ ended. IfSome ended.region (λ memory. IsSettled memory)) }
    ensures err { IfErr result (λ e. GrowsBy (P.kept host.old) (P.kept host.new) (λ kept. FailsShell region.region workers kept e (R.remaining reader) (W.contents writer.old)
        (W.contents writer.new))) }
{
    let mut session = Session::with_region(region);
    let ran = run_recovered(rt, alloc, workers, &mut session, reader, writer, host);
    end_of(session, ran)
}

// Recovers the region of a session by so many workers, prints the answer, and runs the lines of a shell.
fn run_recovered<H: Threads + Sync, R: Read + Drop, W: Write, P: Host>(
    rt: &H,
    alloc: Global,
    workers: u64,
    session: &mut Session,
    reader: R,
    writer: &mut W,
    host: &mut P,
) -> Result<u8, ScriptError>
    ensures ok { (begin : Region) → StandsFor session.old (state_with begin) → IfOk result (λ status. GrowsBy (P.kept host.old) (P.kept host.new)
        (λ kept. WritesAll (ShowsShell begin workers kept (region_in session.new.store)) (R.remaining reader) (W.contents writer.old) (W.contents writer.new) status)) }
    ensures err { (begin : Region) → StandsFor session.old (state_with begin) → IfErr result (λ e. GrowsBy (P.kept host.old) (P.kept host.new)
        (λ kept. FailsShell begin workers kept e (R.remaining reader) (W.contents writer.old) (W.contents writer.new))) }
{
    let text = session.execute(rt, alloc, Command::Recover { workers })?;
    write_text(writer, text.as_bytes())?;
    run_in(rt, alloc, session, reader, writer, host)
}

// Runs the lines of a shell in a session, from what that has made so far.
fn run_in<H: Threads + Sync, R: Read + Drop, W: Write, P: Host>(
    rt: &H,
    alloc: Global,
    session: &mut Session,
    reader: R,
    writer: &mut W,
    host: &mut P,
) -> Result<u8, ScriptError>
    ensures ok { IfOk result (λ status. GrowsBy (P.kept host.old) (P.kept host.new) (λ kept. FromEach session.old
        (λ begin. WritesAll (ShowsLinesEnd 1 begin kept (region_in session.new.store)) (R.remaining reader) (W.contents writer.old) (W.contents writer.new) status))) }
    ensures err { IfErr result (λ e. GrowsBy (P.kept host.old) (P.kept host.new) (λ kept. FromEach session.old
        (λ begin. FailsScript (ShowsAnyLines 1 begin kept) e (R.remaining reader) (W.contents writer.old) (W.contents writer.new)))) }
{
    let Ok(mut reader) = BufReader::with_capacity(alloc, BUFFER_SIZE, reader) else {
        return Err(ScriptError::Memory);
    };
    let mut line = Vec::new(alloc);
    run_lines(rt, alloc, session, &mut line, &mut reader, writer, host)
}

/// What becomes of a line.
#[derive(Drop)]
enum Answer {
    /// There is no line any more, or it asks for the end.
    End,
    /// It prints this.
    Text(Printed),
    /// It is too long, and the last line.
    TooLong,
}

// Runs the lines of a shell in a session. The line is for the bytes of one after another.
fn run_lines<H: Threads + Sync, R: Read, W: Write, P: Host>(
    rt: &H,
    alloc: Global,
    session: &mut Session,
    line: &mut Vec<u8>,
    reader: &mut R,
    writer: &mut W,
    host: &mut P,
) -> Result<u8, ScriptError>
    ensures ok { IfOk result (λ status. GrowsBy (P.kept host.old) (P.kept host.new) (λ kept. FromEach session.old
        (λ begin. WritesAll (ShowsLinesEnd 1 begin kept (region_in session.new.store)) (R.remaining reader.old) (W.contents writer.old) (W.contents writer.new) status))) }
    ensures err { IfErr result (λ e. GrowsBy (P.kept host.old) (P.kept host.new) (λ kept. FromEach session.old
        (λ begin. FailsScript (ShowsAnyLines 1 begin kept) e (R.remaining reader.old) (W.contents writer.old) (W.contents writer.new)))) }
{
    'lines: for number in 1..u64::MAX {
        host.prompt();
        match next_answer(rt, alloc, session, number, line, reader, host)? {
            Answer::End => return Ok(session.status()),
            Answer::Text(printed) => session.print(printed, writer)?,
            Answer::TooLong => {
                let text = bad_line_text(alloc, number)?;
                write_text(writer, text.as_bytes())?;
                host.give(Hint::BadLine(number, Reason::TooLong));
                return Ok(TOO_LONG_STATUS);
            }
        }
    }
    Err(ScriptError::Read)
}

fn next_answer<H: Threads + Sync, R: Read, P: Host>(
    rt: &H,
    alloc: Global,
    session: &mut Session,
    number: u64,
    line: &mut Vec<u8>,
    reader: &mut R,
    host: &mut P,
) -> Result<Answer, ScriptError>
    ensures answers { IfOk result (λ answer. (text : List ℕ) × PrintsAnswer session.new answer text
        × GrowsBy (P.kept host.old) (P.kept host.new) (λ kept. KeepsFor answer kept
        × Leads (λ old new. KnownAnswers number (R.remaining reader.old) (R.remaining reader.new) old answer text kept new) session.old session.new)) }
    ensures none_kept { OnErr result (Grows (P.kept host.old) (P.kept host.new) []) }
    ensures kind { IfErr result (λ e. e ≢ ScriptError.Write) }
{
    match read_line(reader, line)? {
        Next::End => Ok(Answer::End),
        Next::TooLong => Ok(Answer::TooLong),
        Next::Line => Ok(answer_line(rt, alloc, session, number, line, host)?),
    }
}

fn answer_line<H: Threads + Sync, P: Host>(
    rt: &H,
    alloc: Global,
    session: &mut Session,
    number: u64,
    line: &[u8],
    host: &mut P,
) -> Result<Answer, AllocError>
    ensures answers { IfOk result (λ answer. (text : List ℕ) × PrintsAnswer session.new answer text
        × GrowsBy (P.kept host.old) (P.kept host.new) (λ kept. KeepsFor answer kept × Leads (λ old new. AnswersLine number line.now old answer text kept new) session.old session.new)) }
    ensures none_kept { OnErr result (Grows (P.kept host.old) (P.kept host.new) []) }
{
    match own_command(line) {
        Some(Own::Quit) => Ok(Answer::End),
        Some(Own::Help) => Ok(text_answer(owned(alloc, HELP)?)),
        Some(Own::Save) => Ok(text_answer(save_text(alloc, session, None, host)?)),
        Some(Own::SaveAs(path)) => Ok(text_answer(save_text(alloc, session, Some(path), host)?)),
        None => Ok(Answer::Text(script_answer(rt, alloc, session, number, line, host)?)),
    }
}

fn text_answer(text: String) -> Answer
    ensures { result ≡ answers.Text (printeds.Text text) }
{
    Answer::Text(Printed::Text(text))
}

/// A command of the shell's own.
#[derive(Clone, Copy)]
enum Own<'a> {
    Help,
    Quit,
    Save,
    SaveAs(&'a [u8]),
}

fn own_command(line: &[u8]) -> Option<Own<'_>>
    ensures found { IfSome result (λ own. Asks line.now own) }
    ensures none { IfNone result (IsOwn line.now → ⊥) }
{
    match line {
        b"help" => Some(Own::Help),
        b"quit" => Some(Own::Quit),
        b"save" => Some(Own::Save),
        [b's', b'a', b'v', b'e', b' ', path @ ..] => Some(Own::SaveAs(path)),
        _ => None,
    }
}

// What a line prints that is no command of the shell's own.
fn script_answer<H: Threads + Sync, P: Host>(
    rt: &H,
    alloc: Global,
    session: &mut Session,
    number: u64,
    line: &[u8],
    host: &mut P,
) -> Result<Printed, AllocError>
    requires { IsOwn line.now → ⊥ }
    ensures tells { IfOk result (λ printed. (text : List ℕ) × Prints session.new printed text × Moves (λ old said new. Tells number old line.now said new) session.old text session.new) }
    ensures none_kept { Grows (P.kept host.old) (P.kept host.new) [] }
{
    match classify(alloc, line)? {
        Line::Skipped => Ok(Printed::Text(String::new(alloc))),
        Line::Command(command) => session.answer(rt, alloc, command),
        Line::Bad => {
            host.give(Hint::BadLine(number, why_bad(alloc, line)?));
            Ok(Printed::Text(bad_line_text(alloc, number)?))
        }
    }
}

// What `save` prints. Memory is taken first, so that what is kept is told.
fn save_text<P: Host>(
    alloc: Global,
    session: &Session,
    path: Option<&[u8]>,
    host: &mut P,
) -> Result<String, AllocError>
    ensures saved { IfOk result (λ text. GrowsBy (P.kept host.old) (P.kept host.new) (IsSaveAnswer (region_in session.now.store) (option_map (λ path. path.now) path.entry) (string_bytes text))) }
    ensures none_kept { OnErr result (Grows (P.kept host.old) (P.kept host.new) []) }
{
    let saved = owned(alloc, "ok\n")?;
    let not_saved = owned(alloc, "not saved\n")?;
    let Some(region) = session.region() else {
        return Ok(not_saved);
    };
    if host.save(region, path) {
        Ok(saved)
    } else {
        Ok(not_saved)
    }
}

fn owned(alloc: Global, text: &str) -> Result<String, AllocError>
    ensures { IfOk result (λ owned. string_bytes owned ≡ text.now) }
{
    let mut owned = String::new(alloc);
    owned.push_str(text)?;
    Ok(owned)
}
