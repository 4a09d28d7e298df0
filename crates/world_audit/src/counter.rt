//! What counters tell.

ghost use Rattle.std.specs.Prelude.{◌≡◌, IfOk, Some};
ghost use Rattle.std.specs.Option.{option_copied};
ghost use Rattle.std.specs.FinMap.{find};
ghost use Rattle.obj_kinds.specs.Order.{node_cmp};
ghost use Rattle.obj_kinds.specs.declared.value.Value.TheViews.{out-Value};
ghost use Rattle.world_audit.specs.Counters.{from_zero as zero_on, counted, counter_number};
ghost use Rattle.world_audit.specs.Openings.{counter_node as node_of_counter};

use obj_kinds::{ClassName, NoMemory, Node, Pairs, Value, whole_number};
use sqlite_items::Items;
use std::alloc::Global;

// The number, where it is from 0 on.
fn from_zero(number: i64) -> Option<u64>
    ensures { result ≡ zero_on (Some number) }
{
    if number < 0 {
        return None;
    }
    Some(number.unsigned_abs())
}

fn counted_in(value: &Value) -> Option<u64>
    ensures { result ≡ counted (out-Value value.now) }
{
    match value {
        Value::List(_) => None,
        Value::Str(text) => match whole_number(text.as_slice()) {
            Some(number) => from_zero(number),
            None => None,
        },
    }
}

/// What a counter with this value tells: the greatest id that was given out, 0 where there is no value; `None` where
/// the value isn't a canonical whole number from 0 on.
pub fn counter_told(value: Option<&Value>) -> Option<u64>
    ensures { result ≡ counter_number (option_copied value.entry) }
{
    match value {
        None => Some(0),
        Some(value) => counted_in(value),
    }
}

/// The node of an extent's counter: its data global without subscripts. It fails only for want of memory.
pub fn counter_node(alloc: Global, extent: &ClassName) -> Result<Node, NoMemory>
    ensures { IfOk result (λ node. node ≡ node_of_counter extent.now) }
{
    let mut global = extent.0.copy(alloc)?;
    global.push(b'D')?;
    Ok(Node {
        global,
        subs: Items::new(alloc),
    })
}
