//! Each call of a mounted file system, a power cut within one, and a file system in words that the caller lends.
#![tactic(auto)]

mod calls;
mod lent;
mod power;

use anyhow::Result;

fn main(rt: HostRuntime) -> Result<()> {
    calls::make_each(&rt)?;
    power::lose(&rt, rt.alloc())?;
    lent::write_and_read(&rt)
}
