ghost use Rattle.std.specs.Prelude.{◌≡◌, true, IfOk, List, option_map};
ghost use Rattle.std.specs.Option.{option_and_then};
ghost use Rattle.obj_kinds.specs.declared.sub.Sub.TheVariants.{Num};
ghost use Rattle.obj_kinds.specs.Ids.{id_text};
ghost use Rattle.obj_kinds.specs.IdReading.{id_in};
ghost use Rattle.obj_kinds.specs.Limits.{is_legal_sub};
ghost use Rattle.obj_kinds.specs.Subscript.{sub_of, is_whole as is_whole_number};
ghost use Rattle.schema_kinds.specs.declared.class.Class.{Class};
ghost use Rattle.record_layout.specs.Items.{if_long};
ghost use Rattle.storage_map.specs.Worlds.{id_of_sub};
ghost use Rattle.object_calls.specs.Extents.{extent_at as extent_of_class, id_below as id_of_member};
ghost use Rattle.object_calls.specs.Keys.{many_side_in, members_node as node_of_members};
ghost use Rattle.member_plan.specs.Members.{side_of};

use obj_kinds::{ClassName, Id, NoMemory, Node, Sub, Text, is_whole, whole_number};
use schema_kinds::{Key, Kind, Schema};
use sqlite_items::Items;
use std::alloc::Global;
use storage_map::key_node;

/// How many numbers the ids of an extent have.
const ID_LENGTH: usize = 1;

/// A many side: what its members are.
#[derive(Clone, Copy)]
pub struct ManySide<'s> {
    /// The class of the members.
    pub class: &'s ClassName,
    /// Their one side, which names the holder.
    pub side: &'s Text,
}

/// The many side that a property is; none where it is another property.
pub fn many_side(kind: &Kind) -> Option<ManySide<'_>>
    ensures { option_map side_of result ≡ many_side_in kind.now }
{
    match kind {
        Kind::Many(class, side) => Some(ManySide { class, side }),
        _ => None,
    }
}

/// The extent of a persistent class.
pub fn extent_at<'s>(schema: &'s Schema, class: &'s ClassName) -> &'s ClassName
    ensures { result.now ≡ extent_of_class schema.now class.now }
{
    match schema.extent(class) {
        Some(extent) => extent,
        None => class,
    }
}

/// The subscript that an id is. It fails only for want of memory.
pub fn id_sub(alloc: Global, id: &Id) -> Result<Sub, NoMemory>
    ensures { IfOk result (λ sub. sub ≡ sub_of (id_text id.now)) }
{
    let text = id.text(alloc)?;
    match whole_number(text.as_slice()) {
        Some(number) => Ok(Sub::Num(number)),
        None => Ok(Sub::Str(text)),
    }
}

/// The node below which the entries of the members of the holder with the id stand. It fails only for want of memory.
pub fn members_node(
    alloc: Global,
    schema: &Schema,
    side: &ManySide<'_>,
    holder: &Id,
) -> Result<Node, NoMemory>
    ensures { IfOk result (λ node. node ≡ node_of_members schema.now (side_of side.now) holder.now) }
{
    let extent = extent_at(schema, side.class).copy(alloc)?;
    let members = Key {
        extent,
        id: *holder,
    };
    let mut values = Items::new(alloc);
    values.push(id_sub(alloc, holder)?)?;
    key_node(alloc, &members, side.side, values)
}

// The id that a number is.
fn id_of_number(number: i64) -> Option<Id>
    ensures { is_whole_number number ≡ true → result ≡ id_of_sub (Num number) }
{
    if !is_whole(number) {
        return None;
    }
    if number < 1 {
        return None;
    }
    Some(Id::new(number.unsigned_abs()))
}

// The id that a text is, where it is as long as those of an extent.
#[tactic(auto, using(crate::proofs::SubLaws::id_found, crate::proofs::SubLaws::id_long, crate::proofs::SubLaws::id_none))]
fn id_of_text(text: &Text) -> Option<Id>
    ensures { result ≡ option_and_then (if_long 1) (id_in text.now) }
{
    let id = Id::from_text(text.as_slice())?;
    if id.len() == ID_LENGTH {
        Some(id)
    } else {
        None
    }
}

/// The id of an extent that a subscript within the limits is; none where it is no such id.
#[tactic(auto, unfolding(obj_kinds::specs::Limits::is_legal_sub))]
pub fn id_below(extent: &ClassName, sub: &Sub) -> Option<Id>
    ensures { (classes : List Class) → is_legal_sub sub.now ≡ true → result ≡ id_of_member classes extent.now sub.now }
{
    match sub {
        Sub::Num(number) => id_of_number(*number),
        Sub::Str(text) => id_of_text(text),
    }
}
