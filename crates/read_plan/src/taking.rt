ghost use Rattle.std.specs.Prelude.{◌≡◌, true, false, cond, IfOk, OnOk, OnErr, Some, None};
ghost use Rattle.std.specs.Option.{option_copied};
ghost use Rattle.obj_kinds.specs.declared.cause.Cause.TheVariants.{OtherClass};
ghost use Rattle.record_layout.specs.Shapes.{row_forms};
ghost use Rattle.record_layout.specs.Reading.{fields_in, element_at};
ghost use Rattle.object_calls.specs.Reading.{value_found, on_row, read_as};
ghost use Rattle.read_plan.specs.Reads.{lists_left, arrays_left, refuses, Leaves, LeavesOf, IsTaken, IsBehindList, IsBehindArray, EndsArray, is_asking, is_told, is_at_list, is_at_key, is_at_element, at_key as at_key_of, behind_key as behind_key_of, with_array, with_list, with_element};

use crate::asking::{element, named};
use crate::call::ReadCall;
use crate::phase::{Begun, Listing, Pending, Phase, Walking};
use item_rows::Rows;
use obj_kinds::{Cause, ClassName, NoMemory, Reply, Sub, Value};
use record_reading::{
    ArrayBelow, ListBelow, array_element, items_behind, list_fields, row_fields, steps_of,
};
use schema_kinds::{Field, FieldPairs, Fields, Schema};
use sqlite_items::{Items, at};
use std::alloc::Global;
use std::mem;
use storage_map::{data_node, row_class};

// The value that a reply tells.
fn value_of(reply: &Reply) -> Option<&Value>
    ensures { option_copied result ≡ value_found reply.now }
{
    match reply {
        Reply::Found(value) => Some(value),
        _ => None,
    }
}

// The fields of a list that a reply tells; `None` where it is missing or has the wrong form.
fn fields_told(
    alloc: Global,
    schema: &Schema,
    list: &ListBelow<'_>,
    reply: &Reply,
) -> Result<Option<Fields>, NoMemory>
    ensures { IfOk result (λ fields. fields ≡ fields_in schema.now (row_forms list.now.props.now) (value_found reply.now)) }
{
    list_fields(alloc, schema, list.props, value_of(reply))
}

// The element that a reply tells; `None` where it is missing or has the wrong form.
fn element_told(
    alloc: Global,
    schema: &Schema,
    array: &ArrayBelow<'_>,
    reply: &Reply,
) -> Result<Option<Field>, NoMemory>
    ensures { IfOk result (λ field. field ≡ element_at schema.now array.now.item.now (value_found reply.now)) }
{
    array_element(alloc, schema, array.item, value_of(reply))
}

// The next array is begun, or all were read.
fn next_array<'s>(alloc: Global, begun: Begun<'s>, maps: Rows<FieldPairs>) -> Phase<'s>
    ensures left { Leaves (λ classes key tag most. arrays_left classes key tag most begun.entry maps) result }
    ensures told { is_told result ≡ false }
{
    match at(begun.steps.arrays.as_slice(), maps.len()) {
        None => Phase::Full(begun, maps),
        Some(array) => {
            let array = *array;
            let pairs = Items::new(alloc);
            Phase::AtKey(
                Walking {
                    begun,
                    maps,
                    array,
                    pairs,
                },
                None,
            )
        }
    }
}

// The next list is awaited, or the arrays are begun.
fn next_list<'s>(alloc: Global, begun: Begun<'s>) -> Phase<'s>
    ensures left { Leaves (λ classes key tag most. lists_left classes key tag most begun.entry begun.entry.lists) result }
    ensures told { is_told result ≡ false }
{
    match at(begun.steps.lists.as_slice(), begun.lists.len()) {
        None => next_array(alloc, begun, Rows::new(alloc)),
        Some(list) => {
            let list = *list;
            Phase::AtList(Listing { begun, list })
        }
    }
}

// ---- the row

// The row has these items behind its marker, which names the class.
#[tactic(auto, unfolding(crate::specs::Reads::to_come_within, object_calls::specs::Reading::read_as))]
fn begin<'s>(
    alloc: Global,
    call: ReadCall<'s, '_>,
    class: &'s ClassName,
    items: &[Value],
) -> Result<Phase<'s>, NoMemory>
    ensures left { IfOk result (LeavesOf call.entry (λ tag most. read_as call.entry.schema.now call.entry.key.now tag most class.now items.now)) }
    ensures told { IfOk result (λ phase. is_told phase ≡ false) }
{
    let steps = steps_of(alloc, call.schema, class)?;
    match row_fields(alloc, call.schema, steps.root, items)? {
        None => Ok(Phase::Over(Err(Cause::Damaged(data_node(alloc, call.key)?)))),
        Some(first) => {
            let lists = Items::new(alloc);
            Ok(next_list(
                alloc,
                Begun {
                    class,
                    steps,
                    first,
                    lists,
                },
            ))
        }
    }
}

fn is_refused(call: ReadCall<'_, '_>, class: &ClassName) -> bool
    ensures { refuses call.entry.schema.now (option_copied call.entry.wanted) class.now ≡ cond result (Some (OtherClass class.now)) None }
{
    match call.wanted {
        None => false,
        Some(wanted) => !call.schema.is_below(class, wanted),
    }
}

#[tactic(auto, unfolding(crate::specs::Reads::to_come_within))]
fn row_found<'s>(alloc: Global, call: ReadCall<'s, '_>, row: &Value) -> Result<Phase<'s>, NoMemory>
    ensures left { IfOk result (LeavesOf call.entry (λ tag most. on_row call.entry.schema.now call.entry.key.now tag most (refuses call.entry.schema.now (option_copied call.entry.wanted)) (Some row.now))) }
    ensures told { IfOk result (λ phase. is_told phase ≡ false) }
{
    match row_class(call.schema, &call.key.extent, row) {
        None => Ok(Phase::Over(Err(Cause::Damaged(data_node(alloc, call.key)?)))),
        Some(class) => {
            if is_refused(call, class) {
                Ok(Phase::Over(Err(Cause::OtherClass(class.copy(alloc)?))))
            } else {
                begin(alloc, call, class, items_behind(row))
            }
        }
    }
}

#[tactic(auto, unfolding(crate::specs::Reads::to_come_within))]
fn row_taken<'s>(
    alloc: Global,
    call: ReadCall<'s, '_>,
    reply: &Reply,
) -> Result<Phase<'s>, NoMemory>
    ensures left { IfOk result (LeavesOf call.entry (λ tag most. on_row call.entry.schema.now call.entry.key.now tag most (refuses call.entry.schema.now (option_copied call.entry.wanted)) (value_found reply.now))) }
    ensures told { IfOk result (λ phase. is_told phase ≡ false) }
{
    match reply {
        Reply::Found(row) => row_found(alloc, call, row),
        _ => Ok(Phase::Over(Ok(None))),
    }
}

// ---- a list below it

// Puts the fields of the list to those that were read; for want of memory nothing has changed.
fn keep_fields(listing: &mut Listing<'_>, fields: Fields) -> Result<(), NoMemory>
    ensures ok { OnOk result (listing.new ≡ with_list listing.old fields) }
    ensures err { OnErr result (listing.new ≡ listing.old) }
{
    listing.begun.lists.push(fields)?;
    Ok(())
}

// The list was read, and the read goes on behind it.
fn list_behind(alloc: Global, phase: &mut Phase<'_>)
    requires { is_at_list phase.old ≡ true }
    ensures left { IsBehindList phase.old phase.new }
    ensures told { is_told phase.new ≡ false }
{
    match mem::replace(phase, Phase::Told) {
        Phase::AtList(listing) => *phase = next_list(alloc, listing.begun),
        _ => unreachable!(),
    }
}

fn list_taken<'s>(
    alloc: Global,
    call: ReadCall<'s, '_>,
    phase: &mut Phase<'s>,
    reply: &Reply,
) -> Result<(), NoMemory>
    requires { is_at_list phase.old ≡ true }
    ensures ok { OnOk result (IsTaken call.entry reply.now phase.old phase.new) }
    ensures told { is_told phase.new ≡ false }
    ensures err { OnErr result (phase.new ≡ phase.old) }
{
    let Phase::AtList(listing) = phase else {
        unreachable!();
    };
    let fields = fields_told(alloc, call.schema, &listing.list, reply)?;
    match fields {
        None => {
            let node = named(alloc, call.key, listing.list.name)?;
            *phase = Phase::Over(Err(Cause::Damaged(node)));
            Ok(())
        }
        Some(fields) => {
            keep_fields(listing, fields)?;
            list_behind(alloc, phase);
            Ok(())
        }
    }
}

// ---- an array

fn await_element(phase: &mut Phase<'_>, key: Sub)
    requires { is_at_key phase.old ≡ true }
    ensures { phase.new ≡ at_key_of phase.old key }
{
    match mem::replace(phase, Phase::Told) {
        Phase::AtKey(walking, _) => *phase = Phase::AtElement(Pending { walking, key }),
        _ => unreachable!(),
    }
}

// The array is put to those that were read; for want of memory nothing has changed.
fn keep_array(alloc: Global, walking: &mut Walking<'_>) -> Result<(), NoMemory>
    ensures ok { OnOk result (walking.new ≡ with_array walking.old) }
    ensures err { OnErr result (walking.new ≡ walking.old) }
{
    let pairs = mem::replace(&mut walking.pairs, Items::new(alloc));
    match walking.maps.push(pairs) {
        Ok(()) => Ok(()),
        Err(failed) => {
            walking.pairs = failed.value;
            Err(NoMemory)
        }
    }
}

fn array_behind(alloc: Global, phase: &mut Phase<'_>)
    requires { is_at_key phase.old ≡ true }
    ensures left { IsBehindArray phase.old phase.new }
    ensures told { is_told phase.new ≡ false }
{
    match mem::replace(phase, Phase::Told) {
        Phase::AtKey(walking, _) => {
            *phase = next_array(alloc, walking.begun, walking.maps);
        }
        _ => unreachable!(),
    }
}

// There is no further key.
#[tactic(auto, using(crate::proofs::ReadLaws::keys_end))]
fn array_ends(alloc: Global, phase: &mut Phase<'_>) -> Result<(), NoMemory>
    requires { is_at_key phase.old ≡ true }
    ensures ok { OnOk result (EndsArray phase.old phase.new) }
    ensures told { is_told phase.new ≡ false }
    ensures err { OnErr result (phase.new ≡ phase.old) }
{
    let Phase::AtKey(walking, _) = phase else {
        unreachable!();
    };
    keep_array(alloc, walking)?;
    array_behind(alloc, phase);
    Ok(())
}

fn key_taken<'s>(
    alloc: Global,
    call: ReadCall<'s, '_>,
    phase: &mut Phase<'s>,
    reply: Reply,
) -> Result<(), NoMemory>
    requires { is_at_key phase.old ≡ true }
    ensures ok { OnOk result (IsTaken call.entry reply phase.old phase.new) }
    ensures told { is_told phase.new ≡ false }
    ensures err { OnErr result (phase.new ≡ phase.old) }
{
    match reply {
        Reply::Next(key) => {
            await_element(phase, key);
            Ok(())
        }
        _ => array_ends(alloc, phase),
    }
}

// Puts the element to those that were read; for want of memory nothing has changed.
fn keep_element(alloc: Global, pending: &mut Pending<'_>, field: Field) -> Result<(), NoMemory>
    ensures ok { OnOk result (pending.new ≡ with_element pending.old field) }
    ensures err { OnErr result (pending.new ≡ pending.old) }
{
    let key = pending.key.copy(alloc)?;
    pending.walking.pairs.push((key, field))?;
    Ok(())
}

// The element was read, and the walk goes on behind its key.
fn key_behind(phase: &mut Phase<'_>)
    requires { is_at_element phase.old ≡ true }
    ensures { phase.new ≡ behind_key_of phase.old }
{
    match mem::replace(phase, Phase::Told) {
        Phase::AtElement(pending) => *phase = Phase::AtKey(pending.walking, Some(pending.key)),
        _ => unreachable!(),
    }
}

fn element_taken<'s>(
    alloc: Global,
    call: ReadCall<'s, '_>,
    phase: &mut Phase<'s>,
    reply: &Reply,
) -> Result<(), NoMemory>
    requires { is_at_element phase.old ≡ true }
    ensures ok { OnOk result (IsTaken call.entry reply.now phase.old phase.new) }
    ensures told { is_told phase.new ≡ false }
    ensures err { OnErr result (phase.new ≡ phase.old) }
{
    let Phase::AtElement(pending) = phase else {
        unreachable!();
    };
    let field = element_told(alloc, call.schema, &pending.walking.array, reply)?;
    match field {
        None => {
            let node = element(alloc, call.key, pending.walking.array.name, &pending.key)?;
            *phase = Phase::Over(Err(Cause::Damaged(node)));
            Ok(())
        }
        Some(field) => {
            keep_element(alloc, pending, field)?;
            key_behind(phase);
            Ok(())
        }
    }
}

/// Takes the reply to what the phase asks. For want of memory the phase stays as it was.
pub fn taken<'s>(
    alloc: Global,
    call: ReadCall<'s, '_>,
    phase: &mut Phase<'s>,
    reply: Reply,
) -> Result<(), NoMemory>
    requires { is_asking phase.old ≡ true }
    ensures ok { OnOk result (IsTaken call.entry reply phase.old phase.new) }
    ensures told { is_told phase.new ≡ false }
    ensures err { OnErr result (phase.new ≡ phase.old) }
{
    match phase {
        Phase::AtRow => {
            *phase = row_taken(alloc, call, &reply)?;
            Ok(())
        }
        Phase::AtList(_) => list_taken(alloc, call, phase, &reply),
        Phase::AtKey(_, _) => key_taken(alloc, call, phase, reply),
        Phase::AtElement(_) => element_taken(alloc, call, phase, &reply),
        Phase::Full(_, _) | Phase::Over(_) | Phase::Told => unreachable!(),
    }
}
