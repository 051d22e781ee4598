//! What is told in as many bytes as it takes: the names of a directory, and the report.

ghost use Rattle.std.specs.Prelude.{◌≡◌, ◌≢◌, ◌⊎◌, ◌++◌, ℕ, List, Option, IfOk, IfErr, OnOk, false, map, string_bytes};
ghost use Rattle.byteorder.specs.Endian.{little_bytes};
ghost use Rattle.nv_tree.specs.Path.{IsPath, Says};
ghost use Rattle.nv_tree.specs.Refusals.{Path, IsReadRefusedBy};
ghost use Rattle.nv_calls.specs.Listing.{name_and_inode};
ghost use Rattle.nova_c.specs.Codes.{TellsRefusal};
ghost use Rattle.nova_c.specs.Handles.{IsClosed, IsOpen, IsRunning, KeepsAll, TellsClosed, shown};
ghost use Rattle.nova_c.specs.Refused.{list_refusal};
ghost use Rattle.nova_c.specs.Told.{LacksRoom, PutsBytes, TellsNames, TellsReport, line_bytes, names_bytes};

use crate::codes::{CLOSED, DONE, MEMORY, TOO_SMALL, code};
use crate::handle::{Mounted, NovaFs};
use byteorder::{ByteOrder, LittleEndian};
use nv_names::Named;
use nv_report::{Part, Shown, shown_text};
use std::alloc::{AllocError, Global};

fn push_word(out: &mut Vec<u8>, word: u64) -> Result<(), AllocError>
    ensures { OnOk result (out.new.items ≡ out.old.items ++ little_bytes 8 word) }
{
    let mut eight = [0; 8];
    LittleEndian::write_u64(&mut eight, word);
    out.extend_from_slice(&eight)
}

// Adds a name: its inode and its length, 8 bytes each with the lowest first, and its bytes.
fn push_name(out: &mut Vec<u8>, named: &Named<'_>) -> Result<(), AllocError>
    ensures { OnOk result (out.new.items ≡ out.old.items ++ line_bytes (name_and_inode named.now)) }
{
    push_word(out, named.inode)?;
    push_word(out, named.name.len() as u64)?;
    out.extend_from_slice(named.name)?;
    Ok(())
}

pub(crate) fn names_told(alloc: Global, listed: &[Named<'_>]) -> Result<Vec<u8>, AllocError>
    ensures { IfOk result (λ told. told.items ≡ names_bytes (map name_and_inode listed.now)) }
{
    let mut told = Vec::new(alloc);
    for named in listed {
        push_name(&mut told, named)?;
    }
    Ok(told)
}

// Puts bytes into a buffer. `used` says how many there are, also where there is no room for them.
pub(crate) fn put_bytes(told: &[u8], out: &mut [u8], used: &mut usize) -> u32
    ensures put { result ≡ 0 → PutsBytes told.now out.old used.new out.new }
    ensures lacks { result ≢ 0 → (result ≡ 18) × LacksRoom told.now out.old used.new out.new }
{
    let count = told.len();
    *used = count;
    if count > out.len() {
        return TOO_SMALL;
    }
    out[..count].copy_from_slice(told);
    DONE
}

// The bytes of the names of a directory, or the status of a refusal.
fn names_in(alloc: Global, mount: &Mounted, path: &[u8]) -> Result<Vec<u8>, u32>
    ensures found { (places : List (List ℕ)) → IsPath path.now places → IfOk result (λ told. TellsNames (shown mount.now) places (λ bytes. told.items ≡ bytes)) }
    ensures allowed { (p : Path) → Says path.now p → OnOk result (list_refusal mount.now p ≡ Option.None) }
    ensures refused { mount.now.stopped ≡ false → (p : Path) → Says path.now p → IfErr result (TellsRefusal (IsReadRefusedBy (list_refusal mount.now p))) }
    ensures apart { IfErr result (λ status. (status ≢ 0) × (status ≢ 18)) }
{
    match mount.list(path) {
        Ok(listed) => match names_told(alloc, &listed) {
            Ok(told) => Ok(told),
            Err(_) => Err(MEMORY),
        },
        Err(refusal) => Err(code(refusal)),
    }
}

/// Puts the names of a directory into a buffer, rising by bytes: each as its inode and its length, 8 bytes each with the lowest
/// first, and its bytes. `used` says how many bytes they take, also where there is no room for them.
///
/// Statuses, the first that applies, with the buffer as before: 16 where the handle is closed, 6 where the text is no path, 1 or 3
/// for an inode on the way, 1 for the last name, 3 for a file, 14 where memory was refused, 18 where the buffer is too small.
#[unsafe(no_mangle)]
pub extern "C" fn nova_list(
    alloc: Global,
    fs: &mut NovaFs,
    path: &[u8],
    names: &mut [u8],
    used: &mut usize,
) -> u32
    ensures found { IsOpen fs.old → result ≡ 0 → (places : List (List ℕ)) → IsPath path.now places → TellsNames (shown fs.old.mount) places (λ bytes. PutsBytes bytes names.old used.new names.new) }
    // A list that is cut off says so.
    ensures too_small { IsOpen fs.old → result ≡ 18 → (places : List (List ℕ)) → IsPath path.now places
        → TellsNames (shown fs.old.mount) places (λ bytes. LacksRoom bytes names.old used.new names.new) }
    ensures allowed { IsOpen fs.old → (result ≡ 0) ⊎ (result ≡ 18) → (p : Path) → Says path.now p → list_refusal fs.old.mount p ≡ Option.None }
    ensures refused { IsRunning fs.old → result ≢ 0 → result ≢ 18 → (p : Path) → Says path.now p → TellsRefusal (IsReadRefusedBy (list_refusal fs.old.mount p)) result }
    ensures untouched { result ≢ 0 → names.new ≡ names.old }
    ensures same { IsOpen fs.old → KeepsAll fs.old fs.new }
    ensures closed { IsClosed fs.old → TellsClosed fs.new result }
{
    match fs.take(alloc) {
        Some(mount) => {
            let listed = names_in(alloc, &mount, path);
            fs.put(mount);
            match listed {
                Ok(told) => put_bytes(&told, names, used),
                Err(status) => status,
            }
        }
        None => CLOSED,
    }
}

// The report of a mount.
fn report_of(alloc: Global, mount: &Mounted) -> Result<String, AllocError>
    ensures { IfOk result (λ text. TellsReport mount.now (λ bytes. string_bytes text ≡ bytes)) }
{
    let shown = Shown {
        sup: mount.tables().sup(),
        rows: mount.rows(),
        free: mount.free(),
        faults: mount.faults(),
    };
    shown_text(alloc, &shown, Part::Report)
}

/// Puts the report of the mount into a buffer, as text. `used` says how many bytes it has, also where there is no room for them.
///
/// Statuses, with the buffer as before: 16 where the handle is closed, 14 where memory was refused, 18 where the buffer is too
/// small.
#[unsafe(no_mangle)]
pub extern "C" fn nova_report(
    alloc: Global,
    fs: &mut NovaFs,
    text: &mut [u8],
    used: &mut usize,
) -> u32
    ensures told { IsOpen fs.old → result ≡ 0 → TellsReport fs.old.mount (λ bytes. PutsBytes bytes text.old used.new text.new) }
    ensures too_small { IsOpen fs.old → result ≡ 18 → TellsReport fs.old.mount (λ bytes. LacksRoom bytes text.old used.new text.new) }
    ensures refused { IsOpen fs.old → result ≢ 0 → result ≢ 18 → result ≡ 14 }
    ensures untouched { result ≢ 0 → text.new ≡ text.old }
    ensures same { IsOpen fs.old → KeepsAll fs.old fs.new }
    ensures closed { IsClosed fs.old → TellsClosed fs.new result }
{
    match fs.take(alloc) {
        Some(mount) => {
            let report = report_of(alloc, &mount);
            fs.put(mount);
            match report {
                Ok(told) => put_bytes(told.as_bytes(), text, used),
                Err(_) => MEMORY,
            }
        }
        None => CLOSED,
    }
}
