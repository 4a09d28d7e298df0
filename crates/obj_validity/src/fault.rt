ghost use Rattle.std.specs.Prelude.{◌≡◌, IfOk};
ghost use Rattle.obj_validity.specs.Faults.{cause_of, prop_name as name_for};

use obj_kinds::{Cause, ClassName, NoMemory, Text, Why};
use obj_shape::props_of;
use schema_kinds::{Prop, Schema};
use std::alloc::Global;

/// A rule that an object breaks.
#[derive(Clone, Copy, Debug, PartialEq, Eq)]
pub struct Fault {
    /// The place of the property among those of the class; none where the row breaks it.
    pub prop: Option<u32>,
    pub why: Why,
}

fn prop_name(alloc: Global, props: &[Prop], place: Option<u32>) -> Result<Text, NoMemory>
    ensures { IfOk result (λ name. name ≡ name_for props.now place) }
{
    let Some(place) = place else {
        return Ok(Text::new(alloc));
    };
    match props.get(place as usize) {
        Some(prop) => prop.name.copy(alloc),
        None => Ok(Text::new(alloc)),
    }
}

/// The cause that a save names for the fault of an object of the class: it has the name of the property, and an empty
/// one where the row breaks the rule. It fails only for want of memory.
pub fn fault_cause(
    alloc: Global,
    schema: &Schema,
    class: &ClassName,
    fault: &Fault,
) -> Result<Cause, NoMemory>
    ensures { IfOk result (λ cause. cause ≡ cause_of schema.now class.now fault.now) }
{
    let prop = prop_name(alloc, props_of(schema, class), fault.prop)?;
    let class = class.copy(alloc)?;
    Ok(Cause::Invalid {
        class,
        prop,
        why: fault.why,
    })
}
