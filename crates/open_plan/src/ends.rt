ghost use Rattle.std.specs.Prelude.{◌≡◌, nat_lt, cond, Some, None, IfOk, OnOk, OnErr};
ghost use Rattle.oref_table.specs.Memory.{edited, tighten, with_level, IsLive};
ghost use Rattle.oref_table.specs.Sound.{IsFree};
ghost use Rattle.object_members.specs.Seeing.{with_loaded};
ghost use Rattle.open_plan.specs.Opens.{wanting};

use crate::phase::{Found, Raised};
use obj_kinds::Lack;
use obj_shape::{props_of, slots_of};
use oref_table::{Held, Table};
use std::alloc::Global;

/// An object is made of the record that was read. The caller holds it. At want of memory or of a number the table is as
/// before.
pub fn make(alloc: Global, table: &mut Table, found: &Found<'_>) -> Result<Held, Lack>
    requires { IsFree found.now.key.extent found.now.key.id table.old.objects }
    ensures made { IfOk result (λ h. with_loaded found.now.schema.now (wanting found.now.key found.now.read.class found.now.level) found.now.read table.old ≡ (table.new, h.number)) }
    ensures err { OnErr result (table.new ≡ table.old) }
{
    let class = found.read.class.copy(alloc)?;
    let extent = found.key.extent.copy(alloc)?;
    let props = props_of(found.schema, &class);
    let slots = slots_of(alloc, props, found.read.fields.as_slice())?;
    table.make(class, Some(extent), Some(found.key.id), found.level, slots)
}

/// The live object has its level from now on, where that is higher, and the caller holds it once more. Where it can't be
/// held once more the table is as before.
pub fn hold(table: &mut Table, raised: &Raised) -> Result<Held, Lack>
    requires { IsLive table.old raised.now.oref.0 }
    ensures memory { OnOk result (table.new ≡ edited (cond (nat_lt raised.now.from raised.now.to) (edited table.old raised.now.oref.0 (with_level raised.now.to)) table.old) raised.now.oref.0 tighten) }
    ensures held { IfOk result (λ h. h.number ≡ raised.now.oref.0) }
    ensures err { OnErr result (table.new ≡ table.old) }
{
    let held = table.hold(raised.oref)?;
    if raised.from < raised.to {
        table.set_level(raised.oref, raised.to);
    }
    Ok(held)
}
