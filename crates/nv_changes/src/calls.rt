//! The calls of a change: one, and for the bytes of a whole file two.

ghost use Rattle.std.specs.Prelude.{◌≡◌, false, ◌↔◌, IfOk, IsTrue};
ghost use Rattle.nv_paths.specs.Seen.{tree_of};
ghost use Rattle.nv_changes.specs.Calls.{AreCallsOf, BeginsFile, HasAttributes, IsFirstCall, IsThere, SetsMode, SetsOwner};

use crate::change::Change;
use nv_calls::Data;
use nv_history::Call;
use nv_region::MemRegion;
use nv_session::Fs;
use std::alloc::{AllocError, Global};

/// The mode of a file that is made.
const FILE_MODE: u32 = 420;

/// The mode of a directory that is made.
const DIRECTORY_MODE: u32 = 493;

/// The calls that a change makes of what is mounted, in the name of a CPU and at a time in seconds since 1970. Errors:
/// `AllocError` where a growth was refused.
pub(crate) fn calls_of<'a>(
    alloc: Global,
    mount: &Fs<MemRegion>,
    change: &Change<'a>,
    cpu: u64,
    time: u64,
) -> Result<Vec<Call<'a>>, AllocError>
    requires { mount.now.stopped ≡ false }
    ensures { IfOk result (λ calls. AreCallsOf (tree_of mount.now.memory.region mount.now.rows) change.now cpu time calls.items) }
{
    let mut calls = Vec::new(alloc);
    calls.push(first_call(mount, change, cpu, time))?;
    if let Change::Put { path, bytes } = *change {
        calls.push(Call::Write {
            cpu,
            path,
            offset: 0,
            content: Data::Given(bytes),
            time,
        })?;
    }
    Ok(calls)
}

fn first_call<'a>(mount: &Fs<MemRegion>, change: &Change<'a>, cpu: u64, time: u64) -> Call<'a>
    requires { mount.now.stopped ≡ false }
    ensures { IsFirstCall (tree_of mount.now.memory.region mount.now.rows) change.now cpu time result }
{
    match *change {
        Change::MakeDirectory { path } => Call::MakeDirectory {
            cpu,
            path,
            mode: DIRECTORY_MODE,
            time,
        },
        Change::Remove { path } => Call::Unlink { cpu, path, time },
        Change::RemoveDirectory { path } => Call::RemoveDirectory { cpu, path, time },
        Change::Rename { old, new } => Call::Rename {
            cpu,
            old,
            new,
            time,
        },
        Change::Link { old, new } => Call::Link {
            cpu,
            old,
            new,
            time,
        },
        Change::SetSize { path, size } => Call::SetSize {
            cpu,
            path,
            size,
            time,
        },
        Change::SetMode { path, mode } => set_mode(mount, path, mode, cpu, time),
        Change::SetOwner { path, owner, group } => set_owner(mount, path, owner, group, cpu, time),
        Change::Put { path, .. } => begin_file(mount, path, cpu, time),
    }
}

fn set_mode<'a>(mount: &Fs<MemRegion>, path: &'a [u8], mode: u32, cpu: u64, time: u64) -> Call<'a>
    requires { mount.now.stopped ≡ false }
    ensures { SetsMode (tree_of mount.now.memory.region mount.now.rows) path.entry mode cpu time result }
{
    let Attributes { owner, group, .. } = attributes_at(mount, path);
    Call::SetAttributes {
        cpu,
        path,
        mode,
        owner,
        group,
        time,
    }
}

fn set_owner<'a>(
    mount: &Fs<MemRegion>,
    path: &'a [u8],
    owner: u32,
    group: Option<u32>,
    cpu: u64,
    time: u64,
) -> Call<'a>
    requires { mount.now.stopped ≡ false }
    ensures { SetsOwner (tree_of mount.now.memory.region mount.now.rows) path.entry owner group cpu time result }
{
    let before = attributes_at(mount, path);
    Call::SetAttributes {
        cpu,
        path,
        mode: before.mode,
        owner,
        group: group.unwrap_or(before.group),
        time,
    }
}

// Cuts the file that a path leads to, or makes one.
fn begin_file<'a>(mount: &Fs<MemRegion>, path: &'a [u8], cpu: u64, time: u64) -> Call<'a>
    requires { mount.now.stopped ≡ false }
    ensures { BeginsFile (tree_of mount.now.memory.region mount.now.rows) path.entry cpu time result }
{
    if is_there(mount, path) {
        Call::SetSize {
            cpu,
            path,
            size: 0,
            time,
        }
    } else {
        Call::Create {
            cpu,
            path,
            mode: FILE_MODE,
            time,
        }
    }
}

// Mode, owner and group of an inode.
#[derive(Clone, Copy)]
struct Attributes {
    mode: u32,
    owner: u32,
    group: u32,
}

// Those of the inode that a path leads to. Where it leads to none, the call is refused whatever they are.
fn attributes_at(mount: &Fs<MemRegion>, path: &[u8]) -> Attributes
    requires { mount.now.stopped ≡ false }
    ensures { HasAttributes (tree_of mount.now.memory.region mount.now.rows) path.now result.mode result.owner result.group }
{
    match mount.stat(path) {
        Ok(stat) => Attributes {
            mode: stat.mode,
            owner: stat.owner,
            group: stat.group,
        },
        Err(_) => Attributes {
            mode: 0,
            owner: 0,
            group: 0,
        },
    }
}

// Whether a path leads to an inode.
fn is_there(mount: &Fs<MemRegion>, path: &[u8]) -> bool
    requires { mount.now.stopped ≡ false }
    ensures { IsTrue result ↔ IsThere (tree_of mount.now.memory.region mount.now.rows) path.now }
{
    match mount.stat(path) {
        Ok(_) => true,
        Err(_) => false,
    }
}
