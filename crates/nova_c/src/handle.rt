//! A handle of a mounted file system, which C holds.

ghost use Rattle.std.specs.Prelude.{◌≡◌, ◌≤◌, Option};
ghost use Rattle.std.specs.Option.{MatchOption};
ghost use Rattle.nv_region.specs.Region.{Region};
ghost use Rattle.nv_calls.specs.Mount.{Mount};
ghost use Rattle.nova_c.specs.Held.{held, mount_coded};

use crate::loose::Loose;
use nv_calls::Fs;
use nv_lent::WordRegion;
use std::alloc::Global;
use std::marker::Model;
use std::mem::replace;
use std::ptr::null_mut;

/// A mount over words.
pub(crate) type Mounted = Fs<WordRegion<'static>>;

/// A handle: closed, where `is_open` is 0, or open, and then it owns a mount. C makes a closed one of zero bytes.
#[repr(C)]
#[derive(Drop)]
pub struct NovaFs {
    pub(crate) at: *mut u8,
    pub is_open: usize,
    pub ghost mount: { Mount Region } by { mount_coded },
}

impl Model for NovaFs {
    ghost also_owns = { λ h. held h.is_open h.at h.mount };
}

impl NovaFs {
    // Takes over a box.
    fn of(loose: Loose<Mounted, Global>) -> NovaFs
        ensures { (result.is_open ≡ 1) × (result.mount ≡ loose.entry.value) }
    {
        let Loose { at, alloc: _ } = loose;
        NovaFs {
            at: at as *mut u8,
            is_open: 1,
        }
    }

    // A closed handle.
    fn closed() -> NovaFs
        ensures { result.is_open ≡ 0 }
    {
        NovaFs {
            at: null_mut(),
            is_open: 0,
        }
    }

    // Whether it is open, and the handle again.
    fn with_open(self) -> (usize, NovaFs)
        ensures { (result.0 ≡ self.is_open) × (result.1 ≡ self) }
    {
        let NovaFs { at, is_open } = self;
        (is_open, NovaFs { at, is_open })
    }

    // The box of an open handle.
    fn into_loose(self, alloc: Global) -> Loose<Mounted, Global>
        requires { 1 ≤ self.is_open }
        ensures { result.value ≡ self.mount }
    {
        let NovaFs { at, is_open: _ } = self;
        Loose {
            at: at as *mut Mounted,
            alloc,
        }
    }

    /// The mount, which leaves the handle closed.
    pub(crate) fn take(&mut self, alloc: Global) -> Option<Box<Mounted>>
        ensures mount { MatchOption result (self.old.is_open ≡ 0) (λ b. (1 ≤ self.old.is_open) × (b.value ≡ self.old.mount)) }
        ensures closed { self.new.is_open ≡ 0 }
    {
        replace(self, NovaFs::closed()).into_mount(alloc)
    }

    fn into_mount(self, alloc: Global) -> Option<Box<Mounted>>
        ensures { MatchOption result (self.is_open ≡ 0) (λ b. (1 ≤ self.is_open) × (b.value ≡ self.mount)) }
    {
        let (is_open, handle) = self.with_open();
        if is_open == 0 {
            None
        } else {
            Some(handle.into_loose(alloc).into_box())
        }
    }

    /// Gives a closed handle a mount.
    pub(crate) fn put(&mut self, mount: Box<Mounted>)
        ensures open { self.new.is_open ≡ 1 }
        ensures mount { self.new.mount ≡ mount.entry.value }
    {
        let _closed = replace(self, NovaFs::of(Loose::of(mount)));
    }
}
