ghost use Rattle.std.specs.Prelude.{◌≡◌, ◌+◌, ◌≤◌, ◌++◌, ◌∷◌, [], IfOk, OnOk, insert, length};
ghost use Rattle.oref_table.specs.declared.slot.Slot.TheViews.{out-Slot};
ghost use Rattle.oref_table.specs.Refs.{refs_of};
ghost use Rattle.record_layout.specs.Inverse.{AreGood, EachGood};
ghost use Rattle.record_layout.specs.Shapes.{listed};
ghost use Rattle.schema_kinds.specs.Classes.{class_of, extent_of, props_of as props_for};
ghost use Rattle.schema_kinds.specs.declared.kind.Item.TheVariants as of;
ghost use Rattle.obj_shape.specs.Fitting.{IsElement, IsOfForm, IsOfKind, IsSlotOf, TableFits};
ghost use Rattle.part_copies.specs.Copies.{as_it_is, as_list, copied_slots as slots_copied, copy_element as copy_of_element, copy_elements as copy_of_elements, copy_fields as copy_of_fields, copy_kind as copy_of_kind, copy_part as copy_of_part, copy_part_at as copy_at_part};
ghost use Rattle.part_copies.specs.Made.{HoldsReference, IsAdded};
ghost use Rattle.obj_shape.specs.Records.{items_of};

use item_rows::Rows;
use obj_kinds::{ClassName, Lack, NoMemory};
use obj_props::copy_slot;
use obj_shape::{empty_slots, object_slots, props_of, slot_items};
use oref_table::{NewObj, NewObjs, Oref, Slot, Slots, Table};
use schema_kinds::{Item, Kind, Prop, Schema};
use std::alloc::Global;

/// What copies of parts are made from, with the level that they get.
#[derive(Clone, Copy)]
pub struct CopySource<'a> {
    pub alloc: Global,
    pub table: &'a Table,
    pub schema: &'a Schema,
    pub level: u8,
}

/// The objects that copies of parts take, in the order of their numbers.
#[derive(Drop)]
pub struct Made {
    /// The last number that is given to one of them, or before them.
    pub last: u64,
    pub objects: NewObjs,
    /// The numbers of the objects that they name and that are none of them.
    pub named: Vec<u64>,
}

fn note(made: &mut Made, number: u64) -> Result<(), NoMemory>
    ensures named { OnOk result (made.new.named.items ≡ made.old.named.items ++ number ∷ []) }
    ensures last { made.new.last ≡ made.old.last }
    ensures objects { made.new.objects.items ≡ made.old.objects.items }
{
    made.named.push(number)?;
    Ok(())
}

fn put_object(made: &mut Made, at: usize, part: NewObj) -> Result<(), NoMemory>
    requires { at ≤ length made.old.objects.items }
    ensures objects { OnOk result (made.new.objects.items ≡ insert made.old.objects.items at part) }
    ensures last { made.new.last ≡ made.old.last }
    ensures named { made.new.named.items ≡ made.old.named.items }
{
    made.objects.insert(at, part)?;
    Ok(())
}

// What is no part with an object, and names nothing.
fn copy_plain(from: &CopySource<'_>, slot: &Slot, made: &Made) -> Result<Slot, NoMemory>
    requires { refs_of slot.now ≡ [] }
    ensures { IfOk result (λ copy. IsAdded made.now made.now (as_it_is made.now.last slot.now) copy) }
{
    copy_slot(from.alloc, slot)
}

fn note_target(slot: &Slot, made: &mut Made) -> Result<(), NoMemory>
    requires { HoldsReference (out-Slot slot.now) }
    ensures named { OnOk result (made.new.named.items ≡ made.old.named.items ++ refs_of slot.now) }
    ensures last { made.new.last ≡ made.old.last }
    ensures objects { made.new.objects.items ≡ made.old.objects.items }
{
    match slot {
        Slot::To(oref) => note(made, oref.0),
        Slot::Plain(_) => Ok(()),
        Slot::Target(_) => Ok(()),
        Slot::Items(_) => Ok(()),
        Slot::Map(_) => Ok(()),
        Slot::Members(_) => Ok(()),
    }
}

fn copy_reference(from: &CopySource<'_>, slot: &Slot, made: &mut Made) -> Result<Slot, NoMemory>
    requires { HoldsReference (out-Slot slot.now) }
    ensures { IfOk result (λ copy. IsAdded made.old made.new (as_it_is made.old.last slot.now) copy) }
{
    note_target(slot, made)?;
    copy_slot(from.alloc, slot)
}

#[cycle(copies)]
fn copy_part_at(
    from: &CopySource<'_>,
    depth: usize,
    class: &ClassName,
    slot: &Slot,
    made: &mut Made,
) -> Result<Slot, Lack>
    requires table { TableFits from.now.schema.now from.now.table.now }
    requires fits { IsElement from.now.schema.now from.now.table.now (of.Serial class.now) (out-Slot slot.now) }
    ensures { IfOk result (λ copy. IsAdded made.old made.new (copy_at_part from.now.table.now (copy_of_part depth from.now.schema.now from.now.table.now from.now.level) class.now (out-Slot slot.now) slot.now made.old.last) copy) }
{
    match slot {
        Slot::To(oref) => {
            let slots = object_slots(from.table, *oref);
            let number = copy_part(from, depth, class, slots, made)?;
            Ok(Slot::To(Oref(number)))
        }
        Slot::Plain(_) => Ok(copy_plain(from, slot, made)?),
        Slot::Target(_) => Ok(copy_plain(from, slot, made)?),
        Slot::Items(_) => Ok(copy_plain(from, slot, made)?),
        Slot::Map(_) => Ok(copy_plain(from, slot, made)?),
        Slot::Members(_) => Ok(copy_plain(from, slot, made)?),
    }
}

#[cycle(copies)]
fn copy_element(
    from: &CopySource<'_>,
    depth: usize,
    item: &Item,
    slot: &Slot,
    made: &mut Made,
) -> Result<Slot, Lack>
    requires table { TableFits from.now.schema.now from.now.table.now }
    requires fits { IsElement from.now.schema.now from.now.table.now item.now (out-Slot slot.now) }
    ensures { IfOk result (λ copy. IsAdded made.old made.new (copy_of_element from.now.table.now (copy_of_part depth from.now.schema.now from.now.table.now from.now.level) item.now slot.now made.old.last) copy) }
{
    match item {
        Item::Text => Ok(copy_plain(from, slot, made)?),
        Item::Whole => Ok(copy_plain(from, slot, made)?),
        Item::Truth => Ok(copy_plain(from, slot, made)?),
        Item::Ref(_) => Ok(copy_reference(from, slot, made)?),
        Item::Serial(class) => copy_part_at(from, depth, class, slot, made),
    }
}

#[cycle(copies)]
fn copy_elements(
    from: &CopySource<'_>,
    depth: usize,
    item: &Item,
    slots: &[Slot],
    made: &mut Made,
) -> Result<Slots, Lack>
    requires table { TableFits from.now.schema.now from.now.table.now }
    requires fits { EachGood (λ s. IsElement from.now.schema.now from.now.table.now item.now (out-Slot s)) slots.now }
    ensures { IfOk result (λ copy. IsAdded made.old made.new (copy_of_elements from.now.table.now (copy_of_part depth from.now.schema.now from.now.table.now from.now.level) item.now slots.now made.old.last) copy) }
{
    let mut copy = Rows::new(from.alloc);
    for slot in slots {
        let element = copy_element(from, depth, item, slot, made)?;
        push_slot(&mut copy, element)?;
    }
    Ok(copy)
}

fn push_slot(slots: &mut Slots, slot: Slot) -> Result<(), NoMemory>
    ensures { OnOk result (slots.new ≡ slots.old ++ slot ∷ []) }
{
    slots.push(slot)?;
    Ok(())
}

#[cycle(copies)]
fn copy_list(
    from: &CopySource<'_>,
    depth: usize,
    item: &Item,
    slot: &Slot,
    made: &mut Made,
) -> Result<Slot, Lack>
    requires table { TableFits from.now.schema.now from.now.table.now }
    requires fits { IsOfForm from.now.schema.now from.now.table.now (listed item.now) (out-Slot slot.now) }
    ensures { IfOk result (λ copy. IsAdded made.old made.new (as_list (copy_of_elements from.now.table.now (copy_of_part depth from.now.schema.now from.now.table.now from.now.level) item.now (items_of (out-Slot slot.now)) made.old.last)) copy) }
{
    let copy = copy_elements(from, depth, item, slot_items(slot), made)?;
    Ok(Slot::Items(copy))
}

#[cycle(copies)]
fn copy_kind(
    from: &CopySource<'_>,
    depth: usize,
    kind: &Kind,
    slot: &Slot,
    made: &mut Made,
) -> Result<Slot, Lack>
    requires table { TableFits from.now.schema.now from.now.table.now }
    requires fits { IsOfKind from.now.schema.now from.now.table.now kind.now (out-Slot slot.now) }
    ensures { IfOk result (λ copy. IsAdded made.old made.new (copy_of_kind from.now.table.now (copy_of_part depth from.now.schema.now from.now.table.now from.now.level) kind.now slot.now made.old.last) copy) }
{
    match kind {
        Kind::Text => Ok(copy_plain(from, slot, made)?),
        Kind::Whole => Ok(copy_plain(from, slot, made)?),
        Kind::Truth => Ok(copy_plain(from, slot, made)?),
        Kind::Ref(_) => Ok(copy_reference(from, slot, made)?),
        Kind::Serial(class) => copy_part_at(from, depth, class, slot, made),
        Kind::ListOf(item) => copy_list(from, depth, item, slot, made),
        Kind::ArrayOf(_) => Ok(Slot::Map(Rows::new(from.alloc))),
        Kind::Many(_, _) => Ok(Slot::Members(Rows::new(from.alloc))),
        Kind::One(_, _) => Ok(copy_reference(from, slot, made)?),
    }
}

#[cycle(copies)]
fn copy_fields(
    from: &CopySource<'_>,
    depth: usize,
    props: &[Prop],
    slots: &[Slot],
    made: &mut Made,
) -> Result<Slots, Lack>
    requires table { TableFits from.now.schema.now from.now.table.now }
    requires fits { AreGood (IsSlotOf from.now.schema.now from.now.table.now) props.now slots.now }
    ensures { IfOk result (λ copy. IsAdded made.old made.new (copy_of_fields from.now.table.now (copy_of_part depth from.now.schema.now from.now.table.now from.now.level) props.now slots.now made.old.last) copy) }
{
    let mut copy = Rows::new(from.alloc);
    let mut rest = slots;
    for prop in props {
        let Some((slot, more)) = rest.split_first() else {
            return Ok(copy);
        };
        let field = copy_kind(from, depth, &prop.kind, slot, made)?;
        push_slot(&mut copy, field)?;
        rest = more;
    }
    Ok(copy)
}

#[cycle(copies)]
fn copied_slots(
    from: &CopySource<'_>,
    depth: usize,
    class: &ClassName,
    slots: &[Slot],
    made: &mut Made,
) -> Result<Slots, Lack>
    requires table { TableFits from.now.schema.now from.now.table.now }
    requires fits { AreGood (IsSlotOf from.now.schema.now from.now.table.now) (props_for (class_of from.now.schema.now class.now)) slots.now }
    ensures { IfOk result (λ copy. IsAdded made.old made.new (slots_copied depth from.now.schema.now from.now.table.now from.now.level class.now slots.now made.old.last) copy) }
{
    let props = props_of(from.schema, class);
    if depth == 0 {
        return Ok(empty_slots(from.alloc, props)?);
    }
    copy_fields(from, depth - 1, props, slots, made)
}

fn new_part(from: &CopySource<'_>, class: &ClassName, slots: Slots) -> Result<NewObj, NoMemory>
    ensures { IfOk result (λ part. part ≡ record { class = class.now; extent = extent_of from.now.schema.now class.now; level = from.now.level; slots = slots }) }
{
    let extent = match from.schema.extent(class) {
        Some(extent) => Some(extent.copy(from.alloc)?),
        None => None,
    };
    Ok(NewObj {
        class: class.copy(from.alloc)?,
        extent,
        level: from.level,
        slots,
    })
}

/// Adds the objects that a copy of a part of the class with these slots takes to those that are made, and answers the number of
/// the copy. `Count` where no number is left, else it fails for want of memory.
#[cycle(copies)]
pub fn copy_part(
    from: &CopySource<'_>,
    depth: usize,
    class: &ClassName,
    slots: &[Slot],
    made: &mut Made,
) -> Result<u64, Lack>
    requires table { TableFits from.now.schema.now from.now.table.now }
    requires fits { AreGood (IsSlotOf from.now.schema.now from.now.table.now) (props_for (class_of from.now.schema.now class.now)) slots.now }
    ensures { IfOk result (λ number. IsAdded made.old made.new (copy_of_part depth from.now.schema.now from.now.table.now from.now.level class.now slots.now made.old.last) number) }
{
    let number = made.last.checked_add(1).ok_or(Lack::Count)?;
    let at = made.objects.len();
    made.last = number;
    let copy = copied_slots(from, depth, class, slots, made)?;
    let part = new_part(from, class, copy)?;
    put_object(made, at, part)?;
    Ok(number)
}
