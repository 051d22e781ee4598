//! The file calls that write. Each is made on the mount, which is taken out of the session, with the fuse that was set. What is put
//! back is the mount, or what a stop has left.

ghost use Rattle.std.specs.Prelude.{◌≡◌, Some, false, IfOk, string_bytes};
ghost use Rattle.nv_calls.specs.Mount.{IsKept};
ghost use Rattle.nv_line.specs.Request.{Request};

use crate::files::refused_call_text;
use crate::session::Session;
use crate::stop::Stop;
use crate::store::Store;
use crate::texts::{answer_text, stopped_text};
use nv_calls::Fs;
use nv_history::{Answer, Call, make_call};
use nv_region::{Fuse, Keep, MemRegion};
use nv_report::refused_text;
use nv_text::Refusal;
use nv_tree::Refusal as CallRefusal;
use std::alloc::{AllocError, Global};

impl Session {
    ghost use Rattle.std.specs.Prelude.{string_bytes};
    ghost use Rattle.nv_history.specs.Said.{said};
    ghost use Rattle.nv_session.specs.Commands.{answer_line, call_at};
    ghost use Rattle.nv_session.specs.Machine.{Does};
    ghost use Rattle.nv_session.specs.Sessions.{IsSettled, Moves, TakesMount, PutsMount, SettlesCall, is_armed};

    /// Makes a call, which may be stopped by this. Answers what the command prints that is this call.
    pub(crate) fn make(
        &mut self,
        alloc: Global,
        call: &Call<'_>,
        stop: Stop,
    ) -> Result<String, AllocError>
        ensures { IfOk result (λ text. (request : Request) → call_at self.old.time request ≡ Some (said call.now)
            → Moves (Does (is_armed stop) request) self.old (string_bytes text) self.new) }
    {
        let Some(mut mount) = self.take_mount(stop.fuse) else {
            return refused_text(alloc, Refusal::NotMounted);
        };
        // What an upgrade shows is said by what the mount keeps before it.
        mount.keeps();
        let answer = make_call(&mut mount, call);
        self.settle_call(alloc, mount, answer, stop.keep)
    }

    // Takes out what is mounted, with this fuse for what is stored next.
    fn take_mount(&mut self, fuse: Fuse) -> Option<Fs<MemRegion>>
        ensures { TakesMount fuse self.old result self.new }
    {
        match self.store.take() {
            Some(Store::Mounted(mut mount)) => {
                mount.set_fuse(fuse);
                Some(mount)
            }
            other => {
                self.store = other;
                None
            }
        }
    }

    // Puts back a mount after a call, or what is kept of its region after a stop. Answers what is printed. Want of memory is
    // told as no refusal.
    fn settle_call(
        &mut self,
        alloc: Global,
        mount: Fs<MemRegion>,
        answer: Result<Answer, CallRefusal>,
        keep: Keep,
    ) -> Result<String, AllocError>
        ensures settles { IfOk result (λ text. SettlesCall answer_line mount answer self.old (string_bytes text) self.new) }
        ensures keeps { IsKept mount.memory.region mount.sup mount.layout mount.rows mount.free mount.faults mount.read_only mount.stopped }
        ensures settled { mount.stopped ≡ false → IsSettled mount.memory }
    {
        mount.keeps();
        mount.nothing_is_pending();
        match answer {
            Ok(answer) => {
                self.put_mount(mount);
                answer_text(alloc, answer)
            }
            Err(CallRefusal::Stopped) => {
                self.put(mount.into_memory().after_stop(keep));
                stopped_text(alloc)
            }
            Err(refusal) => {
                self.put_mount(mount);
                refused_call_text(alloc, refusal)
            }
        }
    }

    // Puts a mount in, without a fuse.
    pub(crate) fn put_mount(&mut self, mut mount: Fs<MemRegion>)
        ensures { PutsMount mount self.old self.new }
    {
        mount.set_fuse(Fuse::Off);
        self.hold(Store::Mounted(mount));
    }
}
