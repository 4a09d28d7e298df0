ghost use Rattle.std.specs.Prelude.{◌≡◌, IfOk};
ghost use Rattle.class_facts.specs.Facts.{seen};
ghost use Rattle.class_checks.specs.Reasons.{parts_in, part_links};

use crate::climbing::find_parts;
use class_facts::Tables;
use obj_kinds::NoMemory;
use schema_kinds::{ClassTree, Hierarchy, Links};
use sqlite_items::Items;
use std::alloc::Global;

fn class_parts(
    alloc: Global,
    trees: &[ClassTree],
    hierarchy: &Hierarchy,
    tables: &Tables,
    class: usize,
) -> Result<Items<usize>, NoMemory>
    ensures { IfOk result (λ parts. parts ≡ parts_in trees.now (seen hierarchy.now tables.now) class) }
{
    match tables.members.get(class) {
        Some(members) => {
            let spots = members.props.spots(alloc)?;
            let parts = find_parts(alloc, trees, hierarchy, tables, spots.as_slice())?;
            Ok(parts)
        }
        None => Ok(Items::new(alloc)),
    }
}

/// For each class the serial classes of its parts.
pub fn find_part_links(
    alloc: Global,
    trees: &[ClassTree],
    hierarchy: &Hierarchy,
    tables: &Tables,
) -> Result<Links, NoMemory>
    ensures { IfOk result (λ links. links ≡ part_links trees.now (seen hierarchy.now tables.now)) }
{
    let mut links = Items::new(alloc);
    for class in 0..trees.len() {
        links.push(class_parts(alloc, trees, hierarchy, tables, class)?)?;
    }
    Ok(links)
}
