//! A session: what the commands of a script have made so far, and a method for each command that is no call.
//!
//! A method answers the text that its command prints, whole, and leaves what the command leaves. Only `answer` leaves the text of
//! a long part of a file to `print`. After want of memory the script ends, and what the session holds is of no use.

ghost use Rattle.std.specs.Prelude.{◌≡◌, ◌≤◌, ℕ, List, IfOk, IfErr, IfSome, OnOk, OnErr, OnSome, None, Some, [], option_map, false};
ghost use Rattle.std.specs.Io.KnownBytes.{Appends};
ghost use Rattle.nv_calls.specs.Mount.{told};
ghost use Rattle.nv_report.specs.Shown.{shown_of};

use crate::commands::call_of;
use crate::files::{list_text, read_text, stat_text};
use crate::making::{Made, new_region};
use crate::parts::{long_part, write_part};
use crate::printed::Printed;
use crate::stop::Stop;
use crate::store::{Store, has_word, keep_all, poked};
use crate::texts::{ok_text, stopped_text, word_text};
use nv_calls::Fs;
use nv_image_check::{Answer, recover_or_stop, replay_or_stop};
use nv_line::Command;
use nv_region::{Keep, MemRegion, Pmem};
use nv_report::{
    Last, Part, Recovered, Shown, how_it_went, recovered_text, refused_text, shown_text,
};
use nv_stream::{ScriptError, write_text};
use nv_text::Refusal;
use std::alloc::{AllocError, Global};
use std::io::Write;
use std::thread::Threads;

/// What a script has made so far.
#[derive(Drop)]
pub struct Session {
    pub(crate) store: Option<Store>,
    pub(crate) time: u64,
    last: Last,
    // What may come of the next command.
    stop: Stop,
}

impl Session {
    ghost use Rattle.std.specs.Prelude.{string_bytes};
    ghost use Rattle.nv_session.specs.Sessions.{StandsFor, Moves, CanMount, Fails, Settles, IsSettled, region_in, mount_in, is_armed};
    ghost use Rattle.nv_session.specs.declared.store.Store.TheVariants as stores;
    ghost use Rattle.nv_session.specs.Machine.{first_state, state_with, SetsTime, Formats, Recovers, Replays, Pokes, Cuts, ShowsPart, Peeks, MayStop, StopsFormat, StopsRecovery, Arms, Reads};
    ghost use Rattle.nv_session.specs.Machine.{TellsNames, TellsStat, TellsBytes, Does, Step, front};
    ghost use Rattle.nv_session.specs.Machine.{State};
    ghost use Rattle.nv_image_check.specs.declared.recovery.Answer.TheVariants as answers;
    ghost use Rattle.nv_report.specs.Last.{status_of};
    ghost use Rattle.nv_line.specs.View.{view};
    ghost use Rattle.nv_region.specs.Region.{size};
    ghost use Rattle.nv_region.specs.RegionState.{RegionState};
    ghost use Rattle.nv_text.specs.Answers.{ok_line};
    ghost use Rattle.nv_stream.specs.Streams.{AppendsShort};
    ghost use Rattle.nv_session.specs.Printed.{Prints};

    /// Nothing made yet, at time 0.
    pub fn new() -> Session
        ensures { StandsFor result first_state }
    {
        Session {
            store: None,
            time: 0,
            last: Last::Sound,
            stop: Stop::none(),
        }
    }

    /// Nothing made yet but this region as it reads, at time 0. What is pending in the memory is kept.
    pub fn with_region(memory: MemRegion) -> Session
        ensures { StandsFor result (state_with memory.region) }
    {
        Session {
            store: Some(Store::Alone(keep_all(memory))),
            time: 0,
            last: Last::Sound,
            stop: Stop::none(),
        }
    }

    /// The region that there is at the end, if there is one. Nothing is pending in it.
    pub fn into_region(self) -> Option<MemRegion>
        ensures region { option_map (λ memory. memory.region) result ≡ region_in self.store }
        ensures settled { IfSome result (λ memory. IsSettled memory) }
    {
        match self.store {
            Some(store) => Some(keep_all(store.into_memory())),
            None => None,
        }
    }

    /// The exit status by how the last recovery went: 0 where it found no fault or there was none, 1 where it found
    /// some, and 2 where it was refused or stopped.
    pub fn status(&self) -> u8
        ensures { (state : State) → StandsFor self.now state → result ≡ status_of state.last }
    {
        self.last.status()
    }

    /// Runs one command, and answers what it prints. After an error no other command can be run.
    ///
    /// Errors: `AllocError` where a growth was refused; of the session nothing is said then.
    pub fn execute<H: Threads + Sync>(
        &mut self,
        rt: &H,
        alloc: Global,
        command: Command<'_>,
    ) -> Result<String, AllocError>
        ensures { IfOk result (λ text. Moves (λ old said new. Step old (view command.entry) said new) self.old (string_bytes text) self.new) }
    {
        let stop = self.disarm();
        self.run(rt, alloc, command, stop)
    }

    /// `execute`, where a long part of a file is answered before its text is made. The room to write it is taken here.
    ///
    /// Errors: `AllocError` where a growth was refused; of the session nothing is said then.
    pub fn answer<H: Threads + Sync>(
        &mut self,
        rt: &H,
        alloc: Global,
        command: Command<'_>,
    ) -> Result<Printed, AllocError>
        ensures { IfOk result (λ printed. (said : List ℕ) × Prints self.new printed said × Moves (λ old said new. Step old (view command.entry) said new) self.old said self.new) }
    {
        match command {
            Command::Read {
                path,
                offset,
                count,
            } => {
                self.disarm();
                self.answer_read(alloc, path, offset, count)
            }
            command => Ok(Printed::Text(self.execute(rt, alloc, command)?)),
        }
    }

    // What a read prints.
    fn answer_read(
        &self,
        alloc: Global,
        path: &[u8],
        offset: u64,
        count: u64,
    ) -> Result<Printed, AllocError>
        ensures { IfOk result (λ printed. (said : List ℕ) × Prints self.now printed said × Moves (Reads (TellsBytes offset count) path.now) self.now said self.now) }
    {
        if let Some(mount) = self.mount() {
            if let Some(part) = long_part(alloc, mount, path, offset, count)? {
                return Ok(Printed::Part(part));
            }
        }
        Ok(Printed::Text(self.read(alloc, path, offset, count)?))
    }

    /// Writes what the last command has printed. It takes no memory.
    ///
    /// Errors: `Write` where the writer failed; a front was written then, and not all.
    pub fn print<W: Write>(&self, printed: Printed, writer: &mut W) -> Result<(), ScriptError>
        requires { (said : List ℕ) × Prints self.now printed said }
        ensures ok { (said : List ℕ) → Prints self.now printed said → OnOk result (Appends (W.contents writer.old) (W.contents writer.new) said) }
        ensures short { (said : List ℕ) → Prints self.now printed said → OnErr result (AppendsShort (W.contents writer.old) (W.contents writer.new) said) }
        ensures kind { IfErr result (λ e. e ≡ ScriptError.Write) }
    {
        match printed {
            Printed::Text(text) => write_text(writer, text.as_bytes()),
            Printed::Part(part) => match self.mount() {
                Some(mount) => write_part(mount, part, writer),
                None => unreachable!(),
            },
        }
    }

    // Takes the stop that was set, if one was.
    fn disarm(&mut self) -> Stop
        ensures stop { result ≡ self.old.stop }
        ensures rest { self.new ≡ record self.old { stop = self.new.stop } }
        ensures none { is_armed self.new.stop ≡ false }
    {
        let stop = self.stop;
        self.stop = Stop::none();
        stop
    }

    // Runs one command, which may be stopped by this.
    fn run<H: Threads + Sync>(
        &mut self,
        rt: &H,
        alloc: Global,
        command: Command<'_>,
        stop: Stop,
    ) -> Result<String, AllocError>
        ensures { IfOk result (λ text. Moves (Does (is_armed stop) (view command.entry)) self.old (string_bytes text) self.new) }
    {
        match command {
            Command::Format {
                cpus,
                blocks,
                table_blocks,
            } => self.format(alloc, cpus, blocks, table_blocks, stop),
            Command::Time { time } => self.set_time(alloc, time),
            Command::Poke { at, value } => self.poke(alloc, at, value),
            Command::Cut { length } => self.cut(alloc, length),
            Command::Recover { workers } => self.recover(rt, alloc, workers, stop),
            Command::Replay { workers, schedule } => self.replay(alloc, workers, &schedule, stop),
            Command::ListNames { path } => self.list(alloc, path),
            Command::Stat { path } => self.stat(alloc, path),
            Command::Read {
                path,
                offset,
                count,
            } => self.read(alloc, path, offset, count),
            Command::Tree => self.show(alloc, Part::Tree),
            Command::Free => self.show(alloc, Part::Free),
            Command::Faults => self.show(alloc, Part::Faults),
            Command::Report => self.show(alloc, Part::Report),
            Command::Peek { at } => self.peek(alloc, at),
            Command::Stop { fuse, keep } => self.arm(alloc, Stop { fuse, keep }),
            command => match call_of(&command, self.time) {
                Some(call) => self.make(alloc, &call, stop),
                // Each command that is no call stands above.
                None => unreachable!(),
            },
        }
    }

    fn set_time(&mut self, alloc: Global, time: u64) -> Result<String, AllocError>
        ensures { IfOk result (λ text. Moves (SetsTime time) self.old (string_bytes text) self.new) }
    {
        self.time = time;
        ok_text(alloc)
    }

    fn arm(&mut self, alloc: Global, stop: Stop) -> Result<String, AllocError>
        ensures { IfOk result (λ text. Moves (Arms stop.fuse) self.old (string_bytes text) self.new) }
    {
        self.stop = stop;
        ok_text(alloc)
    }

    fn format(
        &mut self,
        alloc: Global,
        cpus: u64,
        blocks: u64,
        table_blocks: u64,
        stop: Stop,
    ) -> Result<String, AllocError>
        ensures { IfOk result (λ text. Moves (MayStop (is_armed stop) (Formats cpus blocks table_blocks) (StopsFormat cpus blocks table_blocks)) self.old (string_bytes text) self.new) }
    {
        match new_region(alloc, cpus, blocks, table_blocks, self.time, stop)? {
            Made::Region(memory) => {
                self.put(memory);
                ok_text(alloc)
            }
            Made::Refused(refusal) => refused_text(alloc, Refusal::Format(refusal)),
            Made::Stopped(memory) => {
                self.put(memory);
                stopped_text(alloc)
            }
        }
    }

    fn poke(&mut self, alloc: Global, at: u64, value: u64) -> Result<String, AllocError>
        ensures { IfOk result (λ text. Moves (Pokes at value) self.old (string_bytes text) self.new) }
    {
        let Some(store) = self.store.take() else {
            return refused_text(alloc, Refusal::NoRegion);
        };
        if !has_word(store.memory(), at) {
            self.hold(store);
            return refused_text(alloc, Refusal::Address);
        }
        self.put(poked(store.into_memory(), at, value));
        ok_text(alloc)
    }

    fn cut(&mut self, alloc: Global, length: u64) -> Result<String, AllocError>
        ensures { IfOk result (λ text. Moves (Cuts length) self.old (string_bytes text) self.new) }
    {
        let Some(store) = self.store.take() else {
            return refused_text(alloc, Refusal::NoRegion);
        };
        if length > store.memory().len() {
            self.hold(store);
            return refused_text(alloc, Refusal::Length);
        }
        self.put_front(alloc, store.into_memory(), length)
    }

    // Puts in the first bytes of a region, of which nothing is mounted.
    fn put_front(
        &mut self,
        alloc: Global,
        memory: MemRegion,
        length: u64,
    ) -> Result<String, AllocError>
        requires { length ≤ size memory.region }
        ensures { IfOk result (λ text. (string_bytes text ≡ ok_line) × (m : RegionState) × (m.region ≡ front memory.region length) × IsSettled m
            × (self.new ≡ record self.old { store = Some (stores.Alone m) })) }
    {
        let front = memory.cut(length)?;
        self.put(front);
        ok_text(alloc)
    }

    fn recover<H: Threads + Sync>(
        &mut self,
        rt: &H,
        alloc: Global,
        workers: u64,
        stop: Stop,
    ) -> Result<String, AllocError>
        ensures { IfOk result (λ text. Moves (MayStop (is_armed stop) (Recovers workers) (StopsRecovery workers [])) self.old (string_bytes text) self.new) }
    {
        let Some(store) = self.store.take() else {
            self.last = Last::Refused;
            return refused_text(alloc, Refusal::NoRegion);
        };
        // Between commands nothing is pending, so this changes no word. No caller has to promise it.
        let mut memory = keep_all(store.into_memory());
        memory.set_fuse(stop.fuse);
        let answer = recover_or_stop(rt, alloc, &mut memory, workers)?;
        self.settle(alloc, memory, answer, stop.keep)
    }

    fn replay(
        &mut self,
        alloc: Global,
        workers: u64,
        schedule: &[u64],
        stop: Stop,
    ) -> Result<String, AllocError>
        ensures { IfOk result (λ text. Moves (MayStop (is_armed stop) (Replays workers schedule.now) (StopsRecovery workers schedule.now)) self.old (string_bytes text) self.new) }
    {
        let Some(store) = self.store.take() else {
            self.last = Last::Refused;
            return refused_text(alloc, Refusal::NoRegion);
        };
        // Between commands nothing is pending, so this changes no word. No caller has to promise it.
        let mut memory = keep_all(store.into_memory());
        memory.set_fuse(stop.fuse);
        let answer = replay_or_stop(alloc, &mut memory, workers, schedule)?;
        self.settle(alloc, memory, answer, stop.keep)
    }

    fn list(&self, alloc: Global, path: &[u8]) -> Result<String, AllocError>
        ensures { IfOk result (λ text. Moves (Reads TellsNames path.now) self.now (string_bytes text) self.now) }
    {
        match self.mount() {
            Some(mount) => Ok(list_text(alloc, mount, path)?.text),
            None => refused_text(alloc, Refusal::NotMounted),
        }
    }

    fn stat(&self, alloc: Global, path: &[u8]) -> Result<String, AllocError>
        ensures { IfOk result (λ text. Moves (Reads TellsStat path.now) self.now (string_bytes text) self.now) }
    {
        match self.mount() {
            Some(mount) => Ok(stat_text(alloc, mount, path)?.text),
            None => refused_text(alloc, Refusal::NotMounted),
        }
    }

    fn read(
        &self,
        alloc: Global,
        path: &[u8],
        offset: u64,
        count: u64,
    ) -> Result<String, AllocError>
        ensures { IfOk result (λ text. Moves (Reads (TellsBytes offset count) path.now) self.now (string_bytes text) self.now) }
    {
        match self.mount() {
            Some(mount) => read_text(alloc, mount, path, offset, count),
            None => refused_text(alloc, Refusal::NotMounted),
        }
    }

    fn show(&self, alloc: Global, part: Part) -> Result<String, AllocError>
        ensures { IfOk result (λ text. Moves (ShowsPart part) self.now (string_bytes text) self.now) }
    {
        match self.mount() {
            Some(mount) => shown_text(alloc, &shown(mount), part),
            None => refused_text(alloc, Refusal::NotMounted),
        }
    }

    fn peek(&self, alloc: Global, at: u64) -> Result<String, AllocError>
        ensures { IfOk result (λ text. Moves (Peeks at) self.now (string_bytes text) self.now) }
    {
        match &self.store {
            Some(store) if has_word(store.memory(), at) => {
                word_text(alloc, store.memory().load(at))
            }
            Some(_) => refused_text(alloc, Refusal::Address),
            None => refused_text(alloc, Refusal::NoRegion),
        }
    }

    /// How many bytes the region has, where there is one.
    pub fn region_length(&self) -> Option<u64>
        ensures { result ≡ option_map size (region_in self.now.store) }
    {
        match &self.store {
            Some(store) => Some(store.memory().len()),
            None => None,
        }
    }

    /// The region that there is, where there is one. Between two commands nothing is pending in it.
    pub fn region(&self) -> Option<&MemRegion>
        ensures { option_map (λ memory. memory.now.region) result ≡ region_in self.now.store }
    {
        match &self.store {
            Some(store) => Some(store.memory()),
            None => None,
        }
    }

    // What is mounted.
    fn mount(&self) -> Option<&Fs<MemRegion>>
        ensures { option_map (λ mount. mount.now) result ≡ mount_in self.now.store }
    {
        match &self.store {
            Some(Store::Mounted(mount)) => Some(mount),
            _ => None,
        }
    }

    // Puts back the region that a recovery was tried on, mounted where it was recovered, or what is kept of it after a stop.
    // Answers what is printed.
    fn settle(
        &mut self,
        alloc: Global,
        memory: MemRegion,
        answer: Option<Answer>,
        keep: Keep,
    ) -> Result<String, AllocError>
        requires mounts { CanMount memory.region answer }
        requires settled { OnSome answer (IsSettled memory) }
        ensures { IfOk result (λ text. Settles memory answer self.old (string_bytes text) self.new) }
    {
        match answer {
            Some(Answer::Recovered(recovered)) => self.mount_region(alloc, memory, recovered),
            Some(Answer::Refused(refusal)) => {
                self.fail(memory);
                refused_text(alloc, refusal)
            }
            None => {
                self.fail(memory.after_stop(keep));
                stopped_text(alloc)
            }
        }
    }

    // Mounts a region with what a recovery found in it. Answers what is printed.
    fn mount_region(
        &mut self,
        alloc: Global,
        memory: MemRegion,
        recovered: Recovered,
    ) -> Result<String, AllocError>
        requires mounts { CanMount memory.region (Some (answers.Recovered recovered)) }
        requires settled { IsSettled memory }
        ensures { IfOk result (λ text. Settles memory (Some (answers.Recovered recovered)) self.old (string_bytes text) self.new) }
    {
        let text = recovered_text(alloc, &recovered)?;
        self.last = how_it_went(&recovered.faults);
        self.put_mount(Fs::open(alloc, memory, recovered));
        Ok(text)
    }

    // Puts a region in that wasn't recovered.
    fn fail(&mut self, memory: MemRegion)
        ensures { Fails memory self.old self.new }
    {
        self.last = Last::Refused;
        self.put(memory);
    }

    // Puts a region in, of which nothing is mounted.
    pub(crate) fn put(&mut self, memory: MemRegion)
        ensures { self.new ≡ record self.old { store = Some (stores.Alone memory) } }
    {
        self.hold(Store::Alone(memory));
    }

    // The one place where what was there is dropped.
    pub(crate) fn hold(&mut self, store: Store)
        ensures { self.new ≡ record self.old { store = Some store } }
    {
        self.store = Some(store);
    }
}

// What is told of a mounted region.
fn shown(mount: &Fs<MemRegion>) -> Shown<'_>
    ensures { shown_of result ≡ record (told mount.now.layout mount.now.rows mount.now.free [] mount.now.faults) { tables = [] } }
{
    // The superblock is that of the tables.
    mount.keeps();
    Shown {
        sup: mount.superblock(),
        rows: mount.rows(),
        free: mount.free(),
        faults: mount.faults(),
    }
}
