//! A formatted region that two workers mount.

use nv_calls::{Fs, format};
use nv_region::MemRegion;
use std::test::Fail;

#[test]
fn two_workers_mount_the_root_alone(rt: HostRuntime) -> Result<(), Fail> {
    let mut memory = MemRegion::new(rt.alloc(), 39)?;
    format(&mut memory, 7, 1, 1000)?;
    let fs = Fs::mount_with(&rt, rt.alloc(), memory, 2).map_err(|(_memory, error)| error)?;
    assert!(rt; fs.rows().len() == 1);
    assert!(rt; fs.faults().is_empty());
    Ok(())
}
