//! The key that a node belongs to.

ghost use Rattle.std.specs.Prelude.{◌≡◌, ◌⊎◌, ◌∷◌, ◌&&◌, nat_eq, length, IfOk, IsTrue, Some};
ghost use Rattle.std.specs.Option.{option_copied};
ghost use Rattle.std.specs.List.{list_all, list_any};
ghost use Rattle.obj_kinds.specs.Texts.{same_text};
ghost use Rattle.obj_kinds.specs.declared.sub.Sub.TheVariants.{Num, Str};
ghost use Rattle.obj_kinds.specs.Limits.{is_legal_sub, is_legal_node};
ghost use Rattle.schema_kinds.specs.Classes.{class_names, extent_of};
ghost use Rattle.storage_map.specs.Markers.{is_extent};
ghost use Rattle.storage_map.specs.Worlds.{extent_with, is_side_named as side_named, has_entries as entries_of_class, extent_has as has_in_extent, entry_key};
ghost use Rattle.world_audit.specs.Openings.{is_counter as counter_is};
ghost use Rattle.world_audit.specs.Owners.{single_key, row_key as key_of_row, entry_owner as owner_of_entry};

use obj_kinds::{ClassName, Id, NoMemory, Node, Sub, Text};
use schema_kinds::{Class, Index, Key, Kind, Prop, Schema};
use std::alloc::Global;

// The extent whose global of that letter this is.
fn extent_named(
    alloc: Global,
    schema: &Schema,
    global: &Text,
    letter: u8,
) -> Result<Option<ClassName>, NoMemory>
    requires { (letter ≡ 68) ⊎ (letter ≡ 73) }
    ensures { IfOk result (λ extent. extent ≡ extent_with (class_names schema.now) letter global.now schema.now) }
{
    let bytes = global.as_slice();
    let Some((last, name)) = bytes.split_last() else {
        return Ok(None);
    };
    if *last != letter {
        return Ok(None);
    }
    if !schema.is_own(bytes) {
        return Ok(None);
    }
    let name = Text::from_slice(alloc, name)?;
    Ok(Some(ClassName(name)))
}

// The key in the extent whose id the number is.
#[tactic(auto, unfolding(obj_kinds::specs::Limits::is_legal_sub))]
fn key_of_number(extent: ClassName, number: i64) -> Option<Key>
    requires { IsTrue (is_legal_sub (Num number)) }
    ensures { result ≡ single_key (Some (Num number)) extent }
{
    if number < 1 {
        return None;
    }
    Some(Key {
        extent,
        id: Id::new(number.unsigned_abs()),
    })
}

// The key in the extent whose id the subscript is: ids have one number, so no text is one.
#[tactic(auto, using(crate::proofs::OwnerLaws::no_text_key))]
fn key_of_sub(extent: ClassName, sub: &Sub) -> Option<Key>
    requires { IsTrue (is_legal_sub sub.now) }
    ensures { result ≡ single_key (Some sub.now) extent }
{
    match sub {
        Sub::Num(number) => key_of_number(extent, *number),
        Sub::Str(_) => None,
    }
}

/// The key at whose row the node stands, or below it. It fails only for want of memory.
#[tactic(auto, unfolding(crate::specs::Owners::row_key), using(crate::proofs::OwnerLaws::legal_first))]
pub(crate) fn row_key(alloc: Global, schema: &Schema, node: &Node) -> Result<Option<Key>, NoMemory>
    requires { IsTrue (is_legal_node node.now) }
    ensures { IfOk result (λ key. key ≡ key_of_row schema.now node.now) }
{
    let Some(extent) = extent_named(alloc, schema, &node.global, b'D')? else {
        return Ok(None);
    };
    match node.subs.as_slice().split_first() {
        None => Ok(None),
        Some((sub, _)) => Ok(key_of_sub(extent, sub)),
    }
}

// Whether the property is a one side of that name.
fn is_side_named(prop: &Prop, name: &Text) -> bool
    ensures { result ≡ side_named name.now prop.now prop.now.kind }
{
    match &prop.kind {
        Kind::One(_, _) => prop.name.as_slice() == name.as_slice(),
        _ => false,
    }
}

// Whether one of the indexes has the name and so many values.
fn has_index(indexes: &[Index], name: &Text, values: usize) -> bool
    ensures { result ≡ list_any (λ i. same_text i.name name.now && nat_eq (length i.props) values) indexes.now }
{
    indexes.iter().any(|index| index.name.as_slice() == name.as_slice()
        && index.props.len() == values)
}

// Whether one of the properties is a one side of that name.
fn has_side(props: &[Prop], name: &Text) -> bool
    ensures { result ≡ list_any (λ p. side_named name.now p p.kind) props.now }
{
    props.iter().any(|prop| is_side_named(prop, name))
}

// Whether the class has entries of that name with so many values.
fn has_entries(class: &Class, name: &Text, values: usize) -> bool
    ensures { result ≡ entries_of_class name.now values class.now }
{
    has_index(class.indexes.as_slice(), name, values)
        || (values == 1 && has_side(class.props.as_slice(), name))
}

fn is_in_extent(schema: &Schema, extent: &ClassName, name: &ClassName) -> bool
    ensures { result ≡ is_extent extent.now (extent_of schema.now name.now) }
{
    match schema.extent(name) {
        None => false,
        Some(root) => root.0.as_slice() == extent.0.as_slice(),
    }
}

// Whether some class of the extent has such entries.
fn extent_has(schema: &Schema, extent: &ClassName, name: &Text, values: usize) -> bool
    ensures { result ≡ has_in_extent schema.now extent.now name.now values }
{
    schema.classes().as_slice().iter().any(|class| {
        is_in_extent(schema, extent, &class.name) && has_entries(class, name, values)
    })
}

// The key of an entry with this name, where the values and the id behind the name are these.
fn key_of_values(schema: &Schema, extent: ClassName, name: &Text, values: &[Sub]) -> Option<Key>
    requires { IsTrue (list_all is_legal_sub values.now) }
    ensures { result ≡ entry_key schema.now (Str name.now ∷ values.now) extent }
{
    let (id, _) = values.split_last()?;
    if !extent_has(schema, &extent, name, values.len() - 1) {
        return None;
    }
    key_of_sub(extent, id)
}

fn key_of_entry(schema: &Schema, extent: ClassName, subs: &[Sub]) -> Option<Key>
    requires { IsTrue (list_all is_legal_sub subs.now) }
    ensures { result ≡ entry_key schema.now subs.now extent }
{
    let (name, values) = subs.split_first()?;
    match name {
        Sub::Num(_) => None,
        Sub::Str(name) => key_of_values(schema, extent, name, values),
    }
}

/// The key whose entry the node would be: some class of its extent has entries of that name with as many values. It
/// walks over the classes of the schema, so it is asked only of nodes that are nobody's entry. It fails only for want of
/// memory.
#[tactic(auto, unfolding(crate::specs::Owners::entry_owner), using(crate::proofs::OwnerLaws::legal_subs))]
pub(crate) fn entry_owner(
    alloc: Global,
    schema: &Schema,
    node: &Node,
) -> Result<Option<Key>, NoMemory>
    requires { IsTrue (is_legal_node node.now) }
    ensures { IfOk result (λ key. key ≡ owner_of_entry schema.now node.now) }
{
    match extent_named(alloc, schema, &node.global, b'I')? {
        None => Ok(None),
        Some(extent) => Ok(key_of_entry(schema, extent, node.subs.as_slice())),
    }
}

/// Whether the node is a counter: the data global of an extent without subscripts. It fails only for want of memory.
pub(crate) fn is_counter(alloc: Global, schema: &Schema, node: &Node) -> Result<bool, NoMemory>
    ensures { IfOk result (λ is. is ≡ counter_is schema.now node.now) }
{
    if !node.subs.is_empty() {
        return Ok(false);
    }
    let extent = extent_named(alloc, schema, &node.global, b'D')?;
    Ok(extent.is_some())
}
