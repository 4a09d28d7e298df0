ghost use Rattle.std.specs.Prelude.{◌≡◌, IfOk};
ghost use Rattle.global_tree.specs.Places.{part, value_in};

use crate::place::Place;
use obj_kinds::{NoMemory, Node, Nodes};
use sqlite_items::Items;
use std::alloc::Global;

/// Copies of the nodes that have a value, with their values.
pub fn copy_valued(alloc: Global, places: &[(Node, Place)]) -> Result<Nodes, NoMemory>
    ensures { IfOk result (λ nodes. nodes ≡ part value_in places.now) }
{
    let mut nodes = Items::new(alloc);
    for place in places {
        if let Some(value) = &place.1.value {
            let node = place.0.copy(alloc)?;
            let value = value.copy(alloc)?;
            nodes.push((node, value))?;
        }
    }
    Ok(nodes)
}
