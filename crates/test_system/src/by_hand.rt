//! What serves people who write by hand: scripts that end at their first refused command, shells, and names that are typed with
//! escapes.

use nv_script::{Ended, Hint, Hints, Host, MemRegion, run_script_strictly, run_shell};
use nv_text::unescaped;
use std::alloc::Global;
use std::test::Fail;

/// Counts what it is told. It keeps a region in no file but that from which it came.
#[derive(Drop)]
struct Counts {
    hints: usize,
    prompts: usize,
}

impl Hints for Counts {
    fn give(&mut self, _hint: Hint) {
        self.hints = self.hints.saturating_add(1);
    }
}

impl Host for Counts {
    fn give(&mut self, _hint: Hint) {
        self.hints = self.hints.saturating_add(1);
    }

    fn prompt(&mut self) {
        self.prompts = self.prompts.saturating_add(1);
    }

    fn save(&mut self, _region: &MemRegion, path: Option<&[u8]>) -> bool {
        path.is_none()
    }
}

const NONE_YET: Counts = Counts {
    hints: 0,
    prompts: 0,
};

// The line that lists the name `refused` tells no refusal.
#[test]
fn a_strict_script_ends_at_its_first_refused_command(rt: HostRuntime) -> Result<(), Fail> {
    let script =
        b"format 1 16 1\nrecover 1\ncreate 0 /refused\nlist /\ncreate 0 /refused\nlist /\n";
    let mut out = Vec::new(rt.alloc());
    let mut told = NONE_YET;
    let script = script.as_slice();
    let ended = run_script_strictly(&rt, rt.alloc(), None, script, &mut out, &mut told)?;
    let wanted = b"ok\nrecovered inodes 1 free 12 faults 0\nok\nrefused 2\nrefused Exists\n";
    assert!(rt; out.as_slice() == wanted.as_slice());
    assert!(rt; ended.status == 2 && told.hints == 0);
    assert!(rt; ended.region.is_some());
    Ok(())
}

#[test]
fn a_slip_does_not_end_a_shell(rt: HostRuntime) -> Result<(), Fail> {
    let mut out = Vec::new(rt.alloc());
    let mut host = NONE_YET;
    let script = b"format 1 16 1\n".as_slice();
    let made = run_script_strictly(&rt, rt.alloc(), None, script, &mut out, &mut host)?;
    out.clear();
    let Ended { status, region } = made;
    assert!(rt; status == 0 && region.is_some());
    let Some(region) = region else {
        return Ok(());
    };
    let lines = b"creat 0 /a\ncreate 0 /a\n\nsave\nsave b.img\nlist /\nquit\nlist /\n".as_slice();
    let ended = run_shell(&rt, rt.alloc(), region, 1, lines, &mut out, &mut host)?;
    let wanted = b"recovered inodes 1 free 12 faults 0\nbad line 1\nok\nok\nnot saved\na 2\n";
    assert!(rt; out.as_slice() == wanted.as_slice());
    assert!(rt; ended.status == 0 && host.hints == 1 && host.prompts == 7);
    Ok(())
}

// What is typed, and the path that it spells.
const TYPED: [(&[u8], Option<&[u8]>); 8] = [
    (b"/a b", Some(b"/a b")),
    (b"/a\\x20b", Some(b"/a b")),
    (b"/x\\\\y", Some(b"/x\\y")),
    (b"/\\xFF\\xc3", Some(b"/\xff\xc3")),
    (b"/a\\q", None),
    (b"/a\\x4", None),
    (b"/a\\xg0", None),
    (b"/a\\", None),
];

fn spells(alloc: Global, text: &[u8], wanted: Option<&[u8]>) -> Result<bool, Fail> {
    let name = unescaped(alloc, text)?;
    Ok(match (&name, wanted) {
        (Some(name), Some(wanted)) => name.as_slice() == wanted,
        (None, None) => true,
        _ => false,
    })
}

#[test]
fn escapes_are_read_back(rt: HostRuntime) -> Result<(), Fail> {
    for (text, wanted) in TYPED.iter() {
        assert!(rt; spells(rt.alloc(), text, *wanted)?);
    }
    Ok(())
}
