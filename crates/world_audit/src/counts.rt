//! Counters that are at fault.

ghost use Rattle.std.specs.Prelude.{◌≡◌, OnOk};
ghost use Rattle.world_audit.specs.Counts.{low, low_of, count_of};
ghost use Rattle.world_audit.specs.Least.{noted, note_each};
ghost use Rattle.world_audit.specs.Openings.{first_number as number_of};

use crate::counter::{counter_node, counter_told};
use crate::found::{Audited, Finds, Found};
use crate::least::Least;
use obj_kinds::{Id, NoMemory, Pairs};
use schema_kinds::{Class, Key};
use std::alloc::Global;

// The number of an id of one number.
fn first_number(id: &Id) -> u64
    ensures { result ≡ number_of id.now }
{
    match id.part(0) {
        Some(number) => number,
        None => 0,
    }
}

// Notes the counter of the key's extent, where it is below the id.
fn note_low(alloc: Global, nodes: &Pairs, key: &Key, least: &mut Least) -> Result<(), NoMemory>
    ensures { OnOk result (least.new ≡ noted least.old (low nodes.now key.now)) }
{
    let node = counter_node(alloc, &key.extent)?;
    match counter_told(nodes.get(&node)) {
        None => Ok(()),
        Some(number) => {
            if number < first_number(&key.id) {
                least.note(node);
            }
            Ok(())
        }
    }
}

fn note_low_of(
    alloc: Global,
    nodes: &Pairs,
    key: &Key,
    found: &Found,
    least: &mut Least,
) -> Result<(), NoMemory>
    ensures { OnOk result (least.new ≡ noted least.old (low_of nodes.now (key.now, found.now))) }
{
    match found {
        Found::Whole(_) => note_low(alloc, nodes, key, least),
        Found::Broken(_) => Ok(()),
    }
}

/// Notes the counters that are below the id of a whole record. It fails only for want of memory.
pub(crate) fn note_lows(
    alloc: Global,
    nodes: &Pairs,
    finds: &Finds,
    least: &mut Least,
) -> Result<(), NoMemory>
    ensures { OnOk result (least.new ≡ note_each (low_of nodes.now) least.old finds.now.entries) }
{
    for (key, found) in finds {
        note_low_of(alloc, nodes, key, found, least)?;
    }
    Ok(())
}

// Notes the counter of the extent of which the class is the root, where it isn't in a counter's form.
fn note_count(
    alloc: Global,
    on: &Audited<'_>,
    class: &Class,
    least: &mut Least,
) -> Result<(), NoMemory>
    ensures { OnOk result (least.new ≡ noted least.old (count_of on.now.schema.now on.now.nodes.now class.now)) }
{
    let node = counter_node(alloc, &class.name)?;
    if !on.schema.is_own(node.global.as_slice()) {
        return Ok(());
    }
    match counter_told(on.nodes.get(&node)) {
        Some(_) => Ok(()),
        None => {
            least.note(node);
            Ok(())
        }
    }
}

/// Notes the counters that aren't in a counter's form. It fails only for want of memory.
pub(crate) fn note_counts(
    alloc: Global,
    on: &Audited<'_>,
    least: &mut Least,
) -> Result<(), NoMemory>
    ensures { OnOk result (least.new ≡ note_each (count_of on.now.schema.now on.now.nodes.now) least.old on.now.schema.now) }
{
    let mut rest = on.schema.classes().as_slice();
    while let Some((class, more)) = rest.split_first() {
        rest = more;
        note_count(alloc, on, class, least)?;
    }
    Ok(())
}
