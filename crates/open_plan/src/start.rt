ghost use Rattle.std.specs.Prelude.{◌≡◌, ◌≤◌, false, IfOk};
ghost use Rattle.object_calls.specs.Extents.{is_at_or_below as at_or_below};
ghost use Rattle.load_plan.specs.Loads.{load_of};
ghost use Rattle.open_plan.specs.Opens.{IsBegun, IsLiveBegun, HasPlace, HasPlaceAt, is_opened};

use crate::phase::{Phase, Raising};
use load_plan::{LoadCall, LoadPlan, RaiseCall, RaisePlan};
use obj_kinds::{Cause, ClassName, NoMemory};
use obj_props::soundness;
use oref_table::{Obj, Oref, Table};
use schema_kinds::Schema;
use std::alloc::Global;

fn is_at_or_below(schema: &Schema, below: &ClassName, above: &ClassName) -> bool
    ensures { result ≡ at_or_below schema.now below.now above.now }
{
    schema.is_below(below, above)
}

// The live object of the key: it is raised, where it is of the class that is asked for.
fn live_phase<'s>(
    alloc: Global,
    schema: &'s Schema,
    oref: Oref,
    obj: &Obj,
    call: LoadCall,
) -> Result<Phase<'s>, NoMemory>
    requires { 1 ≤ call.tries }
    ensures begun { IfOk result (IsLiveBegun schema.now (load_of call) call.tries oref.0 obj.now.class obj.now.level) }
    ensures place { IfOk result (HasPlaceAt oref.0) }
    ensures opened { IfOk result (λ phase. is_opened phase ≡ false) }
{
    if !is_at_or_below(schema, &obj.class, &call.class) {
        let class = obj.class.copy(alloc)?;
        return Ok(Phase::Refused(Cause::OtherClass(class)));
    }
    let raise = RaiseCall {
        key: call.key,
        from: obj.level,
        to: call.level,
        tries: call.tries,
    };
    let plan = RaisePlan::new(alloc, raise);
    Ok(Phase::Raising(Raising { plan, oref }))
}

/// The phase in which an opening begins. It fails only for want of memory.
pub fn first_phase<'s>(
    alloc: Global,
    schema: &'s Schema,
    table: &Table,
    call: LoadCall,
) -> Result<Phase<'s>, NoMemory>
    requires { 1 ≤ call.tries }
    ensures begun { IfOk result (IsBegun table.now schema.now (load_of call) call.tries) }
    ensures place { IfOk result (HasPlace table.now) }
    ensures opened { IfOk result (λ phase. is_opened phase ≡ false) }
{
    soundness(table);
    let Some(oref) = table.by_id(&call.key.extent, call.key.id) else {
        let plan = LoadPlan::new(alloc, schema, call)?;
        return Ok(Phase::Loading(plan));
    };
    let obj = table.get(oref).unwrap();
    live_phase(alloc, schema, oref, obj, call)
}
