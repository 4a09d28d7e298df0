//! Tries the outside over real files and in memory, and prints what is seen of it.
#![tactic(auto)]

mod memory;
mod real;

use anyhow::Result;

fn main(rt: HostRuntime) -> Result<()> {
    real::try_device(&rt)?;
    real::try_long_file(&rt)?;
    real::try_standard_output(&rt)?;
    memory::try_files(&rt)?;
    memory::try_rooms(&rt)
}
