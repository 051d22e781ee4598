//! A script: its lines are read, run and answered, one after another.
//!
//! Each line's whole text is made before a byte of it is written, or all room for it is there. So a line for which memory is wanted
//! prints nothing.

ghost use Rattle.std.specs.Prelude.{◌≡◌, ◌≢◌, ℕ, List, Ok, Err, IfOk, IfErr, IfSome, OnErr, MatchBool, option_map, bytes_eq, string_bytes};
ghost use Rattle.std.specs.Io.KnownBytes.{Appends};
ghost use Rattle.nv_super.specs.declared.superblock.SuperFault.TheVariants as SuperFault;
ghost use Rattle.nv_text.specs.Answers.{bad_line, refused_line};
ghost use Rattle.nv_super.specs.FaultText.{super_fault_name};
ghost use Rattle.nv_script.specs.Script.{ShowsScript, ShowsFrom, ShowsEnd, FromEach};
ghost use Rattle.nv_script.specs.Strict.{IsLast, ShowsEndBy, ShowsFromBy, HintsFromBy, ShowsStrictEnd, ShowsStrictFrom, HintsStrictFrom, state_from};
ghost use Rattle.nv_script.specs.Hints.{HintsScript, HintsFrom, answer_hint};
ghost use Rattle.nv_script.specs.Replies.{KnownReplies, PrintsReply, RepliesTo};
ghost use Rattle.nv_session.specs.Printed.{Prints};
ghost use Rattle.nv_session.specs.Machine.{State, first_state, state_with};
ghost use Rattle.nv_session.specs.Sessions.{IsSettled, Leads, StandsFor, region_in};
ghost use Rattle.nv_script.specs.Transcript.{WritesAll, WritesWhole, FailsScript};

use crate::hinting::{Hint, Hints, LENGTH_REFUSED, NoHints};
use nv_line::{Line, Reason, classify, why_bad};
use nv_region::MemRegion;
use nv_report::BadLength;
use nv_session::{Printed, Session};
use nv_stream::{Next, ScriptError, read_line, write_text};
use nv_text::{is_refusal_line, push_bad_line};
use std::alloc::{AllocError, Global};
use std::io::{BufReader, Read, Write};
use std::thread::Threads;

const BUFFER_SIZE: usize = 4096;

const BAD_LINE_STATUS: u8 = 2;

const REFUSED_STATUS: u8 = 2;

/// What ends a script before its last line.
#[derive(Clone, Copy, PartialEq, Eq)]
enum Rule {
    /// A bad line alone.
    Lenient,
    /// A bad line, or the first command that is refused.
    Strict,
}

/// What a line is answered with.
#[derive(Drop)]
enum Reply {
    /// There is no line any more.
    End,
    /// It is a comment, or empty.
    Skipped,
    /// It is a command, which prints this.
    Text(Printed),
    /// It is no command, for this reason, and the last line.
    Bad(Reason),
}

/// Runs a script, and answers its exit status: 2 after a bad line, and where the last recovery was refused; else 1 where
/// that showed faults, and 0 otherwise.
///
/// Reads to the end of the input or to the first bad line.
///
/// Errors: `Read` where the reader failed, `Write` where the writer failed, and `Memory` where a growth was refused.
/// With `Read` and `Memory` the whole output of the lines before was written, and with `Write` a front of it that lacks a
/// byte at least.
pub fn run_script<H: Threads + Sync, R: Read + Drop, W: Write>(
    rt: &H,
    alloc: Global,
    reader: R,
    writer: &mut W,
) -> Result<u8, ScriptError>
    // What is written is what these lines may print, and the status the one with which they may end.
    ensures ok { IfOk result (λ status. WritesAll ShowsScript (R.remaining reader) (W.contents writer.old) (W.contents writer.new) status) }
    // Where the writer failed, less was written than the first lines may print; with each other error all that they may print.
    ensures err { IfErr result (λ e. FailsScript ShowsScript e (R.remaining reader) (W.contents writer.old) (W.contents writer.new)) }
{
    run_script_with_hints(rt, alloc, reader, writer, &mut NoHints)
}

/// `run_script`, which also gives a hint behind each line of the output that leaves out what a user needs: behind
/// `bad line K`, and behind the refusal of a region for its length.
///
/// Errors: those of `run_script`; the hints of the first lines were given then.
pub fn run_script_with_hints<H: Threads + Sync, R: Read + Drop, W: Write, N: Hints>(
    rt: &H,
    alloc: Global,
    reader: R,
    writer: &mut W,
    hints: &mut N,
) -> Result<u8, ScriptError>
    ensures ok { IfOk result (λ status. WritesAll ShowsScript (R.remaining reader) (W.contents writer.old) (W.contents writer.new) status) }
    ensures err { IfErr result (λ e. FailsScript ShowsScript e (R.remaining reader) (W.contents writer.old) (W.contents writer.new)) }
    // What was given is the hints of these lines, or after an error those of the first lines.
    ensures hints { IfOk result (λ status. WritesAll HintsScript (R.remaining reader) (N.told hints.old) (N.told hints.new) status) }
    ensures first_hints { OnErr result (WritesWhole HintsScript (R.remaining reader) (N.told hints.old) (N.told hints.new)) }
{
    let mut session = Session::new();
    let status = run_in(
        rt,
        alloc,
        Rule::Lenient,
        &mut session,
        reader,
        writer,
        hints,
    );
    let _region = session.into_region();
    status
}

/// How a script has ended: its exit status, and the region that there is then, if there is one.
#[derive(Drop)]
pub struct Ended {
    pub status: u8,
    pub region: Option<MemRegion>,
}

/// `run_script_with_hints`, where a region is there from the start, as it reads, of which nothing is mounted. Answers the
/// region that there is at the end, too.
///
/// Errors: those of `run_script`; the region is gone then.
pub fn run_script_on<H: Threads + Sync, R: Read + Drop, W: Write, N: Hints>(
    rt: &H,
    alloc: Global,
    region: MemRegion,
    reader: R,
    writer: &mut W,
    hints: &mut N,
) -> Result<Ended, ScriptError>
    // The region is that of the state in which these lines may end.
    ensures ok { IfOk result (λ ended. WritesAll (ShowsEnd (state_with region.region) (option_map (λ memory. memory.region) ended.region)) (R.remaining reader) (W.contents writer.old)
        (W.contents writer.new) ended.status) }
    // Nothing is pending in it.
    ensures settled { IfOk result (λ ended. IfSome ended.region (λ memory. IsSettled memory)) }
    ensures err { IfErr result (λ e. FailsScript (ShowsFrom (state_with region.region)) e (R.remaining reader) (W.contents writer.old) (W.contents writer.new)) }
    ensures hints { IfOk result (λ ended. WritesAll (HintsFrom (state_with region.region)) (R.remaining reader) (N.told hints.old) (N.told hints.new) ended.status) }
    ensures first_hints { OnErr result (WritesWhole (HintsFrom (state_with region.region)) (R.remaining reader) (N.told hints.old) (N.told hints.new)) }
{
    let mut session = Session::with_region(region);
    let ran = run_in(
        rt,
        alloc,
        Rule::Lenient,
        &mut session,
        reader,
        writer,
        hints,
    );
    end_of(session, ran)
}

// How a session has ended whose lines ran so. A session is let go here alone.
pub(crate) fn end_of(session: Session, ran: Result<u8, ScriptError>) -> Result<Ended, ScriptError>
    ensures status { IfOk result (λ ended. ran ≡ Ok ended.status) }
    ensures region { IfOk result (λ ended. option_map (λ memory. memory.region) ended.region ≡ region_in session.store) }
    ensures settled { IfOk result (λ ended. IfSome ended.region (λ memory. IsSettled memory)) }
    ensures err { IfErr result (λ e. ran ≡ Err e) }
{
    let region = session.into_region();
    match ran {
        Ok(status) => Ok(Ended { status, region }),
        Err(error) => Err(error),
    }
}

// Runs a script in a session, from what that has made so far.
fn run_in<H: Threads + Sync, R: Read + Drop, W: Write, N: Hints>(
    rt: &H,
    alloc: Global,
    rule: Rule,
    session: &mut Session,
    reader: R,
    writer: &mut W,
    hints: &mut N,
) -> Result<u8, ScriptError>
    ensures ok { IfOk result (λ status. FromEach session.old (λ begin. WritesAll (ShowsEndBy rule begin (region_in session.new.store)) (R.remaining reader) (W.contents writer.old)
        (W.contents writer.new) status)) }
    ensures err { IfErr result (λ e. FromEach session.old (λ begin. FailsScript (ShowsFromBy rule begin) e (R.remaining reader) (W.contents writer.old) (W.contents writer.new))) }
    ensures hints { IfOk result (λ status. FromEach session.old (λ begin. WritesAll (HintsFromBy rule begin) (R.remaining reader) (N.told hints.old) (N.told hints.new) status)) }
    ensures first_hints { OnErr result (FromEach session.old (λ begin. WritesWhole (HintsFromBy rule begin) (R.remaining reader) (N.told hints.old) (N.told hints.new))) }
{
    let Ok(mut reader) = BufReader::with_capacity(alloc, BUFFER_SIZE, reader) else {
        return Err(ScriptError::Memory);
    };
    let mut line = Vec::new(alloc);
    run_lines(
        rt,
        alloc,
        rule,
        session,
        &mut line,
        &mut reader,
        writer,
        hints,
    )
}

// Runs the lines of a script in a session. The line is for the bytes of one after another.
fn run_lines<H: Threads + Sync, R: Read, W: Write, N: Hints>(
    rt: &H,
    alloc: Global,
    rule: Rule,
    session: &mut Session,
    line: &mut Vec<u8>,
    reader: &mut R,
    writer: &mut W,
    hints: &mut N,
) -> Result<u8, ScriptError>
    ensures ok { IfOk result (λ status. FromEach session.old (λ begin. WritesAll (ShowsEndBy rule begin (region_in session.new.store)) (R.remaining reader.old) (W.contents writer.old)
        (W.contents writer.new) status)) }
    ensures err { IfErr result (λ e. FromEach session.old (λ begin. FailsScript (ShowsFromBy rule begin) e (R.remaining reader.old) (W.contents writer.old) (W.contents writer.new))) }
    ensures hints { IfOk result (λ status. FromEach session.old (λ begin. WritesAll (HintsFromBy rule begin) (R.remaining reader.old) (N.told hints.old) (N.told hints.new) status)) }
    ensures first_hints { OnErr result (FromEach session.old (λ begin. WritesWhole (HintsFromBy rule begin) (R.remaining reader.old) (N.told hints.old) (N.told hints.new))) }
{
    'lines: for number in 1..u64::MAX {
        match next_reply(rt, alloc, session, line, reader)? {
            Reply::End => return Ok(session.status()),
            Reply::Skipped => {}
            Reply::Text(printed) => {
                let ends = ends_script(rule, &printed);
                let is_length = refuses_length(&printed);
                session.print(printed, writer)?;
                hint_length(session, is_length, hints);
                if ends {
                    return Ok(REFUSED_STATUS);
                }
            }
            Reply::Bad(reason) => {
                let text = bad_line_text(alloc, number)?;
                write_text(writer, text.as_bytes())?;
                hints.give(Hint::BadLine(number, reason));
                return Ok(BAD_LINE_STATUS);
            }
        }
    }
    Err(ScriptError::Read)
}

fn next_reply<H: Threads + Sync, R: Read>(
    rt: &H,
    alloc: Global,
    session: &mut Session,
    line: &mut Vec<u8>,
    reader: &mut R,
) -> Result<Reply, ScriptError>
    ensures replies { IfOk result (λ reply. (said : List ℕ) × PrintsReply session.new reply said
        × Leads (λ old new. KnownReplies (R.remaining reader.old) (R.remaining reader.new) old reply said new) session.old session.new) }
    ensures kind { IfErr result (λ e. e ≢ ScriptError.Write) }
{
    match read_line(reader, line)? {
        Next::End => Ok(Reply::End),
        Next::TooLong => Ok(Reply::Bad(Reason::TooLong)),
        Next::Line => answer_line(rt, alloc, session, line),
    }
}

fn answer_line<H: Threads + Sync>(
    rt: &H,
    alloc: Global,
    session: &mut Session,
    line: &[u8],
) -> Result<Reply, ScriptError>
    ensures replies { IfOk result (λ reply. (said : List ℕ) × PrintsReply session.new reply said × Leads (λ old new. RepliesTo line.now old reply said new) session.old session.new) }
    ensures kind { IfErr result (λ e. e ≡ ScriptError.Memory) }
{
    match classify(alloc, line)? {
        Line::Skipped => Ok(Reply::Skipped),
        Line::Command(command) => Ok(Reply::Text(session.answer(rt, alloc, command)?)),
        Line::Bad => Ok(Reply::Bad(why_bad(alloc, line)?)),
    }
}

// Whether a command that prints this is the last line of the script.
fn ends_script(rule: Rule, printed: &Printed) -> bool
    ensures { (s : Session) (said : List ℕ) → Prints s printed.now said → MatchBool result (IsLast rule said) (IsLast rule said → ⊥) }
{
    match printed {
        Printed::Text(text) => is_last(rule, text),
        // The bytes of a file are no refusal.
        Printed::Part(_) => false,
    }
}

// Whether a command with this answer is the last line of the script.
fn is_last(rule: Rule, text: &str) -> bool
    ensures { MatchBool result (IsLast rule text.now) (IsLast rule text.now → ⊥) }
{
    match rule {
        Rule::Lenient => false,
        Rule::Strict => is_refusal_line(text.as_bytes()),
    }
}

pub(crate) fn bad_line_text(alloc: Global, number: u64) -> Result<String, AllocError>
    ensures { IfOk result (λ text. string_bytes text ≡ bad_line number) }
{
    let mut text = String::new(alloc);
    push_bad_line(&mut text, number)?;
    Ok(text)
}

// Tells the region's length behind an answer that is a refusal for it.
fn hint_length<N: Hints>(session: &Session, is_refusal: bool, hints: &mut N)
    ensures { (state : State) (said : List ℕ) → StandsFor session.now state → is_refusal ≡ bytes_eq said (refused_line (super_fault_name SuperFault.Length))
        → Appends (N.told hints.old) (N.told hints.new) (answer_hint said state) }
{
    if !is_refusal {
        return;
    }
    if let Some(length) = session.region_length() {
        hints.give(Hint::Length(BadLength::Bytes(length)));
    }
}

// Whether a command that prints this was refused for the region's length.
fn refuses_length(printed: &Printed) -> bool
    ensures { (s : Session) (said : List ℕ) → Prints s printed.now said → result ≡ bytes_eq said (refused_line (super_fault_name SuperFault.Length)) }
{
    match printed {
        Printed::Text(text) => is_length_refusal(text),
        Printed::Part(_) => false,
    }
}

fn is_length_refusal(text: &str) -> bool
    ensures { result ≡ bytes_eq text.now (refused_line (super_fault_name SuperFault.Length)) }
{
    text == LENGTH_REFUSED
}

/// `run_script_with_hints`, which also answers the region that there is at the end.
///
/// Errors: those of `run_script`; the region is gone then.
pub fn run_script_to_end<H: Threads + Sync, R: Read + Drop, W: Write, N: Hints>(
    rt: &H,
    alloc: Global,
    reader: R,
    writer: &mut W,
    hints: &mut N,
) -> Result<Ended, ScriptError>
    ensures ok { IfOk result (λ ended. WritesAll (ShowsEnd first_state (option_map (λ memory. memory.region) ended.region)) (R.remaining reader) (W.contents writer.old)
        (W.contents writer.new) ended.status) }
    ensures settled { IfOk result (λ ended. IfSome ended.region (λ memory. IsSettled memory)) }
    ensures err { IfErr result (λ e. FailsScript ShowsScript e (R.remaining reader) (W.contents writer.old) (W.contents writer.new)) }
    ensures hints { IfOk result (λ ended. WritesAll HintsScript (R.remaining reader) (N.told hints.old) (N.told hints.new) ended.status) }
    ensures first_hints { OnErr result (WritesWhole HintsScript (R.remaining reader) (N.told hints.old) (N.told hints.new)) }
{
    let mut session = Session::new();
    let ran = run_in(
        rt,
        alloc,
        Rule::Lenient,
        &mut session,
        reader,
        writer,
        hints,
    );
    end_of(session, ran)
}

/// `run_script_with_hints`, where a region may be there from the start, and which ends at the first command that is refused:
/// its exit status is 2 then. Answers the region that there is at the end, too.
///
/// Errors: those of `run_script`; the region is gone then.
pub fn run_script_strictly<H: Threads + Sync, R: Read + Drop, W: Write, N: Hints>(
    rt: &H,
    alloc: Global,
    region: Option<MemRegion>,
    reader: R,
    writer: &mut W,
    hints: &mut N,
) -> Result<Ended, ScriptError>
    ensures ok { IfOk result (λ ended. WritesAll (ShowsStrictEnd (state_from (option_map (λ memory. memory.region) region)) (option_map (λ memory. memory.region) ended.region)) (R.remaining reader)
        (W.contents writer.old) (W.contents writer.new) ended.status) }
    ensures settled { IfOk result (λ ended. IfSome ended.region (λ memory. IsSettled memory)) }
    ensures err { IfErr result (λ e. FailsScript (ShowsStrictFrom (state_from (option_map (λ memory. memory.region) region))) e (R.remaining reader) (W.contents writer.old) (W.contents writer.new)) }
    ensures hints { IfOk result (λ ended. WritesAll (HintsStrictFrom (state_from (option_map (λ memory. memory.region) region))) (R.remaining reader) (N.told hints.old)
        (N.told hints.new) ended.status) }
    ensures first_hints { OnErr result (WritesWhole (HintsStrictFrom (state_from (option_map (λ memory. memory.region) region))) (R.remaining reader) (N.told hints.old) (N.told hints.new)) }
{
    let mut session = session_with(region);
    let ran = run_in(rt, alloc, Rule::Strict, &mut session, reader, writer, hints);
    end_of(session, ran)
}

fn session_with(region: Option<MemRegion>) -> Session
    ensures { StandsFor result (state_from (option_map (λ memory. memory.region) region)) }
{
    match region {
        Some(region) => Session::with_region(region),
        None => Session::new(),
    }
}
