//! Logs that are cleaned: one page after another by a script, and all at once as an image.

use crate::images::run_on;
use nv_script::{Cleaned, clean_image, region_of_file};
use std::alloc::{AllocError, Global};
use std::process::Abort;
use std::test::Fail;
use std::thread::Threads;

// The log of /d gets three pages: it leaves the first by an entry for the next page, and the second at the place 4064.
const MAKING: &str =
    "format 1 32 1\nrecover 1\nmkdir 0 /d\ncreate 0 /d/xxxxxxxxx\nunlink 0 /d/xxxxxxxxx\n";

const MADE: &str = "ok\nrecovered inodes 1 free 28 faults 0\nok\nok\nok\n";

const SETTING: &str = "attr 0 /d 420 0 0\n";

const CLEANING: &str = "tree\nclean /d\nclean /d\nclean /d\nfree\nrecover 2\ntree\n";

const CLEANED: &str =
    "inode 1 dir mode 493 owner 0 group 0 size 0 links 1 time 0\n  log 3 tail 12352\n  name d 2\n\
    inode 2 dir mode 420 owner 0 group 0 size 0 links 1 time 0\n  log 4 5 6 tail 24896\n\
    cleaned 4\ncleaned 5\nnothing\nfree 0 4-5 7-31\nrecovered inodes 2 free 27 faults 0\n\
    inode 1 dir mode 493 owner 0 group 0 size 0 links 1 time 0\n  log 3 tail 12352\n  name d 2\n\
    inode 2 dir mode 420 owner 0 group 0 size 0 links 1 time 0\n  log 6 tail 24896\n";

const FINDING: &[u8] = b"recover 1\nfree\n";

const FOUND: &str = "recovered inodes 2 free 27 faults 0\nfree 0 4-5 7-31\n";

/// A text with a line 260 times in it.
fn often(alloc: Global, first: &str, line: &str, last: &str) -> Result<String, AllocError> {
    let mut text = String::new(alloc);
    text.push_str(first)?;
    for _ in 0..260 {
        text.push_str(line)?;
    }
    text.push_str(last)?;
    Ok(text)
}

/// The image that a script leaves, which makes the log and ends with these commands, and prints this for them.
fn made<H: AllocGlobal + Abort + Threads + Sync>(
    rt: &H,
    commands: &str,
    printed: &str,
) -> Result<Vec<u8>, Fail> {
    let script = often(rt.alloc(), MAKING, SETTING, commands)?;
    let text = often(rt.alloc(), MADE, "ok\n", printed)?;
    run_on(rt, b"", script.as_bytes(), &text)
}

#[test]
fn pages_go_that_end_by_an_entry_and_at_4064(rt: HostRuntime) -> Result<(), Fail> {
    made(&rt, CLEANING, CLEANED)?;
    Ok(())
}

/// The image that cleaning leaves, which is told by this text, or none.
fn cleaned<H: AllocGlobal + Abort>(
    rt: &H,
    image: &[u8],
    path: Option<&[u8]>,
    text: &str,
) -> Result<Vec<u8>, Fail> {
    let Ok(region) = region_of_file(rt.alloc(), image.to_vec(rt.alloc())?) else {
        return Ok(Vec::new(rt.alloc()));
    };
    let cleaned = clean_image(rt.alloc(), region, path)?;
    assert!(rt; cleaned.text(rt.alloc())?.as_str() == text);
    match cleaned {
        Cleaned::Region { region, .. } => Ok(region.to_bytes()?),
        Cleaned::Unrecovered(_) | Cleaned::Refused(_) => Ok(Vec::new(rt.alloc())),
    }
}

#[test]
fn an_image_is_cleaned_of_all_pages(rt: HostRuntime) -> Result<(), Fail> {
    let image = made(&rt, "", "")?;
    let all = cleaned(&rt, &image, None, "cleaned pages 2\n")?;
    let of_one = cleaned(&rt, &image, Some(b"/d"), "cleaned pages 2\n")?;
    assert!(rt; all.as_slice() == of_one.as_slice());
    let again = run_on(&rt, &all, FINDING, FOUND)?;
    assert!(rt; again.as_slice() == all.as_slice());
    let same = cleaned(&rt, &all, None, "cleaned pages 0\n")?;
    assert!(rt; same.as_slice() == all.as_slice());
    Ok(())
}

#[test]
fn a_cleaning_is_refused(rt: HostRuntime) -> Result<(), Fail> {
    let image = made(&rt, "", "")?;
    let other = cleaned(&rt, &image, Some(b"/"), "cleaned pages 0\n")?;
    assert!(rt; other.as_slice() == image.as_slice());
    let none = cleaned(&rt, &image, Some(b"/none"), "refused NotFound\n")?;
    assert!(rt; none.is_empty());
    let short = cleaned(&rt, b"", None, "refused S1\n")?;
    assert!(rt; short.is_empty());
    Ok(())
}
