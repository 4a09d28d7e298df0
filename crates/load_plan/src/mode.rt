ghost use Rattle.std.specs.Prelude.{◌≡◌, ◌&&◌, ℕ, IfOk, is_some, map};
ghost use Rattle.std.specs.List.{list_any};
ghost use Rattle.record_layout.specs.Shapes.{form_of};
ghost use Rattle.record_layout.specs.Layout.{array_of, arrays_of};
ghost use Rattle.object_calls.specs.Extents.{is_at_or_below as at_or_below, is_filled, last_own, adds_nodes as adds, has_several as several};
ghost use Rattle.object_calls.specs.Loads.{load_mode as mode_of};
ghost use Rattle.load_plan.specs.Loads.{load_of};

use crate::call::LoadCall;
use obj_kinds::{ClassName, Mode, NoMemory};
use record_layout::{count_rows, line_to, own_props};
use schema_kinds::{Class, Kind, Prop, Schema};
use std::alloc::Global;

fn is_array(prop: &Prop) -> bool
    ensures { result ≡ is_some (array_of prop.now (form_of prop.now.kind)) }
{
    matches!(prop.kind, Kind::ArrayOf(_))
}

fn any_array(props: &[Prop]) -> bool
    ensures { result ≡ list_any (λ p. is_some (array_of p (form_of p.kind))) props.now }
{
    props.iter().any(|prop| is_array(prop))
}

#[tactic(auto, using(crate::proofs::ModeLaws::arrays_filled))]
fn has_arrays(props: &[Prop]) -> bool
    ensures { result ≡ is_filled (arrays_of props.now) }
{
    any_array(props)
}

// Whether the last class of the line has row properties that the one above it hasn't.
fn has_own_rows(line: &[&Class]) -> bool
    ensures { result ≡ is_filled (last_own (map (λ c. c.now) line.now)) }
{
    let Some((class, front)) = line.split_last() else {
        return false;
    };
    match front.split_last() {
        Some((above, _)) => count_rows(own_props(above, class)) > 0,
        None => false,
    }
}

fn adds_nodes(alloc: Global, schema: &Schema, class: &Class) -> Result<bool, NoMemory>
    ensures { IfOk result (λ many. many ≡ adds schema.now class.now) }
{
    if has_arrays(class.props.as_slice()) {
        return Ok(true);
    }
    let line = line_to(alloc, schema, &class.name)?;
    Ok(has_own_rows(line.as_slice()))
}

#[tactic(auto, using(crate::proofs::ModeLaws::test_of))]
fn is_at_or_below(schema: &Schema, below: &ClassName, above: &ClassName) -> bool
    ensures { result ≡ at_or_below schema.now below.now above.now }
{
    schema.is_below(below, above)
}

// Whether objects of the other class are of the class, and may have more nodes than their row.
fn is_of_several(
    alloc: Global,
    schema: &Schema,
    class: &ClassName,
    other: &Class,
) -> Result<bool, NoMemory>
    ensures { IfOk result (λ many. many ≡ (at_or_below schema.now other.now.name class.now && adds schema.now other.now)) }
{
    if !is_at_or_below(schema, &other.name, class) {
        return Ok(false);
    }
    adds_nodes(alloc, schema, other)
}

// Whether objects of the class, or of one below it, may have more nodes than their row.
#[tactic(auto, unfolding(object_calls::specs::Extents::has_several))]
fn has_several(alloc: Global, schema: &Schema, class: &ClassName) -> Result<bool, NoMemory>
    ensures { IfOk result (λ many. many ≡ several schema.now class.now) }
{
    for other in schema.classes().as_slice() {
        if is_of_several(alloc, schema, class, other)? {
            return Ok(true);
        }
    }
    Ok(false)
}

/// The mode of the lock that a load takes: from level 2 on, and at level 1 where more nodes than the row may be read.
/// It fails only for want of memory.
pub fn load_mode(alloc: Global, schema: &Schema, call: &LoadCall) -> Result<Option<Mode>, NoMemory>
    ensures { IfOk result (λ mode. (tries most : ℕ) → mode ≡ mode_of schema.now tries most (load_of call.now)) }
{
    match call.level {
        0 => Ok(None),
        1 => {
            if has_several(alloc, schema, &call.class)? {
                Ok(Some(Mode::Shared))
            } else {
                Ok(None)
            }
        }
        4 => Ok(Some(Mode::Exclusive)),
        _ => Ok(Some(Mode::Shared)),
    }
}
