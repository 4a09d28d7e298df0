use crate::chain::class;
use crate::failure::Failure;
use oref_table::{Obj, Slots};

/// An object that has so many holders; no table reaches the last counts.
fn counted(rt: &HostRuntime, count: u64) -> Result<Obj, Failure> {
    Ok(Obj {
        class: class(rt.alloc())?,
        extent: None,
        id: None,
        level: 0,
        modified: false,
        slots: Slots::new(rt.alloc()),
        count,
    })
}

/// Prints whether an object has room for a further hold, at the first and at the last counts.
pub fn run_counts(rt: &HostRuntime) -> Result<(), Failure> {
    for count in [0, 1, u64::MAX - 1, u64::MAX] {
        let full = counted(rt, count)?.is_full();
        println!(rt; "count {count}: full {full}")?;
    }
    Ok(())
}
