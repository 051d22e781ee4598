//! The calls of a step, once the way to its place is there.

ghost use Rattle.std.specs.Prelude.{◌≡◌, ◌↔◌, false, map, IfOk, IsTrue, OnOk};
ghost use Rattle.nv_paths.specs.Seen.{tree_of};
ghost use Rattle.nv_changes.specs.Calls.{IsThere};
ghost use Rattle.nv_untar.specs.Items.{item_of};
ghost use Rattle.nv_history.specs.Said.{said};
ghost use Rattle.nv_unpack.specs.Calls.{Adds, AreCallsAt, BeginsFile, IsDirectoryAt, MakesDirectory, MakesFile, MakesKind, MakesLink, attributes_call};

use crate::step::Step;
use nv_calls::Data;
use nv_history::Call;
use nv_region::MemRegion;
use nv_session::Fs;
use nv_super::Kind;
use nv_untar::{Item, ItemKind};
use std::alloc::{AllocError, Global};

/// The calls that a step makes of what is mounted, in the name of a CPU, by the text of the place of its item and of that of the
/// file that it is a further name of. The way to the place was made before. Errors: `AllocError` where a growth was refused.
pub(crate) fn calls_of<'a>(
    alloc: Global,
    mount: &Fs<MemRegion>,
    step: Step<'a>,
    text: &'a [u8],
    old: &'a [u8],
    cpu: u64,
) -> Result<Vec<Call<'a>>, AllocError>
    requires { mount.now.stopped ≡ false }
    ensures { IfOk result (λ calls. AreCallsAt (tree_of mount.now.memory.region mount.now.rows) text.entry.now old.entry.now cpu step.entry (map said calls.items)) }
{
    let mut calls = Vec::new(alloc);
    match step {
        Step::Make(item) => push_item(&mut calls, mount, item, text, old, cpu)?,
        Step::SetAttributes(item) => calls.push(set_attributes(item, text, cpu))?,
    }
    Ok(calls)
}

// The item itself.
fn push_item<'a>(
    calls: &mut Vec<Call<'a>>,
    mount: &Fs<MemRegion>,
    item: Item<'a>,
    text: &'a [u8],
    old: &'a [u8],
    cpu: u64,
) -> Result<(), AllocError>
    requires { mount.now.stopped ≡ false }
    ensures { OnOk result (Adds (MakesKind item.entry.kind (tree_of mount.now.memory.region mount.now.rows) cpu text.entry.now old.entry.now (item_of item.entry)) calls.old.items calls.new.items) }
{
    match item.kind {
        ItemKind::File => push_file(calls, mount, item, text, cpu),
        ItemKind::Link => push_link(calls, mount, item, text, old, cpu),
        ItemKind::Directory => push_directory(calls, mount, item, text, cpu),
    }
}

fn push_file<'a>(
    calls: &mut Vec<Call<'a>>,
    mount: &Fs<MemRegion>,
    item: Item<'a>,
    text: &'a [u8],
    cpu: u64,
) -> Result<(), AllocError>
    requires { mount.now.stopped ≡ false }
    ensures { OnOk result (Adds (MakesFile (tree_of mount.now.memory.region mount.now.rows) cpu text.entry.now (item_of item.entry)) calls.old.items calls.new.items) }
{
    calls.push(begin_file(mount, item, text, cpu))?;
    calls.push(Call::Write {
        cpu,
        path: text,
        offset: 0,
        content: Data::Given(item.bytes),
        time: item.time,
    })?;
    calls.push(set_attributes(item, text, cpu))?;
    Ok(())
}

// Cuts the file that is there, or makes one.
fn begin_file<'a>(mount: &Fs<MemRegion>, item: Item<'a>, text: &'a [u8], cpu: u64) -> Call<'a>
    requires { mount.now.stopped ≡ false }
    ensures { BeginsFile (tree_of mount.now.memory.region mount.now.rows) cpu text.entry.now (item_of item.entry) (said result) }
{
    if is_there(mount, text) {
        Call::SetSize {
            cpu,
            path: text,
            size: 0,
            time: item.time,
        }
    } else {
        Call::Create {
            cpu,
            path: text,
            mode: item.mode,
            time: item.time,
        }
    }
}

fn set_attributes<'a>(item: Item<'a>, text: &'a [u8], cpu: u64) -> Call<'a>
    ensures { said result ≡ attributes_call cpu text.entry.now (item_of item.entry) }
{
    Call::SetAttributes {
        cpu,
        path: text,
        mode: item.mode,
        owner: item.owner,
        group: item.group,
        time: item.time,
    }
}

fn push_link<'a>(
    calls: &mut Vec<Call<'a>>,
    mount: &Fs<MemRegion>,
    item: Item<'a>,
    text: &'a [u8],
    old: &'a [u8],
    cpu: u64,
) -> Result<(), AllocError>
    requires { mount.now.stopped ≡ false }
    ensures { OnOk result (Adds (MakesLink (tree_of mount.now.memory.region mount.now.rows) cpu text.entry.now old.entry.now (item_of item.entry)) calls.old.items calls.new.items) }
{
    let time = item.time;
    if is_there(mount, text) {
        calls.push(Call::Unlink {
            cpu,
            path: text,
            time,
        })?;
    }
    calls.push(Call::Link {
        cpu,
        old,
        new: text,
        time,
    })?;
    Ok(())
}

fn push_directory<'a>(
    calls: &mut Vec<Call<'a>>,
    mount: &Fs<MemRegion>,
    item: Item<'a>,
    text: &'a [u8],
    cpu: u64,
) -> Result<(), AllocError>
    requires { mount.now.stopped ≡ false }
    ensures { OnOk result (Adds (MakesDirectory (tree_of mount.now.memory.region mount.now.rows) cpu text.entry.now (item_of item.entry)) calls.old.items calls.new.items) }
{
    if !is_directory(mount, text) {
        calls.push(Call::MakeDirectory {
            cpu,
            path: text,
            mode: item.mode,
            time: item.time,
        })?;
    }
    Ok(())
}

/// Whether a path leads to an inode.
pub(crate) fn is_there(mount: &Fs<MemRegion>, path: &[u8]) -> bool
    requires { mount.now.stopped ≡ false }
    ensures { IsTrue result ↔ IsThere (tree_of mount.now.memory.region mount.now.rows) path.now }
{
    match mount.stat(path) {
        Ok(_) => true,
        Err(_) => false,
    }
}

// Whether it leads to a directory.
fn is_directory(mount: &Fs<MemRegion>, path: &[u8]) -> bool
    requires { mount.now.stopped ≡ false }
    ensures { IsTrue result ↔ IsDirectoryAt (tree_of mount.now.memory.region mount.now.rows) path.now }
{
    match mount.stat(path) {
        Ok(stat) => stat.kind == Kind::Directory,
        Err(_) => false,
    }
}
