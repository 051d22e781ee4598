//! A report as JSON, read back: it tells the numbers of the superblock, the inodes, the free runs and the faults.

use crate::checking::clear;
use crate::images::run_on;
use nv_json::report_json;
use nv_recover::recover_one;
use nv_region::MemRegion;
use nv_report::Shown;
use serde_json::Value;
use std::process::Abort;
use std::test::Fail;

// A name of a letter, a backslash and a byte that isn't UTF-8, for a file of five bytes.
const MAKING: &[u8] =
    b"time 7\nformat 2 64 1\nrecover 1\nmkdir 0 /d\ncreate 0 /d/a\\\xff\nwrite 0 /d/a\\\xff 0 5 65\n";

const MADE: &str = "ok\nok\nrecovered inodes 1 free 58 faults 0\nok\nok\nok\n";

fn report_of<H: AllocGlobal + Abort>(rt: &H, bytes: &[u8]) -> Result<Value, Fail> {
    let Ok(mut memory) = MemRegion::from_bytes(rt.alloc(), bytes) else {
        return Ok(Value::Null);
    };
    let Ok(recovered) = recover_one(rt.alloc(), &mut memory) else {
        return Ok(Value::Null);
    };
    let text = report_json(rt.alloc(), &Shown::of(&recovered))?;
    Ok(Value::from_str(rt.alloc(), &text)?)
}

fn number(value: &Value, path: &str) -> Option<u64> {
    value.pointer(path)?.as_u64()
}

fn text<'a>(value: &'a Value, path: &str) -> Option<&'a str> {
    value.pointer(path)?.as_str()
}

fn tells_region<H: Abort>(rt: &H, report: &Value) {
    assert!(rt; number(report, "/region/blocks") == Some(64));
    assert!(rt; number(report, "/region/cpus") == Some(2));
    assert!(rt; number(report, "/region/tables") == Some(1));
    assert!(rt; number(report, "/region/version") == Some(1));
    assert!(rt; number(report, "/region/state") == Some(0));
}

fn tells_inodes<H: Abort>(rt: &H, report: &Value) {
    assert!(rt; number(report, "/inodes/0/inode") == Some(1));
    assert!(rt; text(report, "/inodes/0/names/0/name") == Some("d"));
    assert!(rt; text(report, "/inodes/1/kind") == Some("dir"));
    assert!(rt; text(report, "/inodes/1/names/0/name") == Some("a\\x5c\\xff"));
    assert!(rt; text(report, "/inodes/2/kind") == Some("file"));
    assert!(rt; number(report, "/inodes/2/attributes/size") == Some(5));
    assert!(rt; number(report, "/inodes/2/attributes/mode") == Some(420));
    assert!(rt; number(report, "/inodes/2/attributes/time") == Some(7));
    assert!(rt; number(report, "/inodes/2/extents/0/count") == Some(1));
    assert!(rt; report.pointer("/inodes/2/log/0").is_some());
    assert!(rt; report.pointer("/inodes/3").is_none());
    assert!(rt; report.pointer("/faults/0").is_none());
    assert!(rt; number(report, "/free/1/0/start").is_some());
}

#[test]
fn a_report_and_its_faults_are_read_back(rt: HostRuntime) -> Result<(), Fail> {
    let mut made = run_on(&rt, b"", MAKING, MADE)?;
    let sound = report_of(&rt, &made)?;
    tells_region(&rt, &sound);
    tells_inodes(&rt, &sound);
    // The valid word of inode 4, the third of the first CPU's table.
    clear(&mut made, 12_544);
    let report = report_of(&rt, &made)?;
    assert!(&rt; text(&report, "/faults/0/class") == Some("C1"));
    assert!(&rt; number(&report, "/faults/0/inode") == Some(2));
    assert!(&rt; number(&report, "/faults/0/at") == Some(24_608));
    Ok(())
}
