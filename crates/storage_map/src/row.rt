ghost use Rattle.std.specs.Prelude.{◌≡◌, ◌++◌, ◌∷◌, [], IfOk, option_map};
ghost use Rattle.std.specs.List.{find};
ghost use Rattle.std.specs.Option.{option_copied};
ghost use Rattle.obj_kinds.specs.declared.value.Value.TheViews.{out-Value};
ghost use Rattle.schema_kinds.specs.Hierarchy.{same_text};
ghost use Rattle.record_layout.specs.Rows.{data_node as node_of, marker};
ghost use Rattle.schema_kinds.specs.Classes.{extent_of};
ghost use Rattle.storage_map.specs.Markers.{is_extent, is_marked, class_marked, marked_by, row_class as class_of_row};

use crate::subscript::id_sub;
use obj_kinds::{ClassName, NoMemory, Node, Value};
use schema_kinds::{Class, Key, Schema};
use sqlite_items::Items;
use std::alloc::Global;

/// The node of a key's row. It fails only for want of memory.
#[tactic(auto, unfolding(record_layout::specs::Rows::data_node))]
pub fn data_node(alloc: Global, key: &Key) -> Result<Node, NoMemory>
    ensures { IfOk result (λ node. node ≡ node_of key.now) }
{
    let mut global = key.extent.0.copy(alloc)?;
    global.push(b'D')?;
    let mut subs = Items::new(alloc);
    subs.push(id_sub(alloc, &key.id)?)?;
    Ok(Node { global, subs })
}

fn is_with(text: &[u8], name: &[u8], last: u8) -> bool
    ensures { result ≡ same_text text.now (name.now ++ last ∷ []) }
{
    match (text.split_first(), name.split_first()) {
        (None, _) => false,
        (Some((byte, rest)), None) => *byte == last && rest.is_empty(),
        (Some((byte, rest)), Some((first, more))) => *byte == *first && is_with(rest, more, last),
    }
}

#[tactic(auto, unfolding(record_layout::specs::Rows::marker))]
fn is_marker(mark: &[u8], extent: &ClassName, name: &ClassName) -> bool
    ensures { result ≡ same_text mark.now (marker extent.now name.now) }
{
    if name.0.as_slice() == extent.0.as_slice() {
        return mark.is_empty();
    }
    match mark.split_first() {
        None => false,
        Some((first, rest)) => *first == b'~' && is_with(rest, name.0.as_slice(), b'~'),
    }
}

fn is_in_extent(schema: &Schema, extent: &ClassName, name: &ClassName) -> bool
    ensures { result ≡ is_extent extent.now (extent_of schema.now name.now) }
{
    match schema.extent(name) {
        None => false,
        Some(root) => root.0.as_slice() == extent.0.as_slice(),
    }
}

fn find_marked<'a>(
    schema: &Schema,
    extent: &ClassName,
    mark: &[u8],
    classes: &'a [Class],
) -> Option<&'a Class>
    ensures { option_copied result ≡ find (is_marked schema.now extent.now mark.now) classes.now }
{
    let (class, rest) = classes.split_first()?;
    if is_marker(mark, extent, &class.name) && is_in_extent(schema, extent, &class.name) {
        return Some(class);
    }
    find_marked(schema, extent, mark, rest)
}

fn class_by<'a>(schema: &'a Schema, extent: &ClassName, mark: &Value) -> Option<&'a ClassName>
    ensures { option_copied result ≡ marked_by schema.now extent.now (out-Value mark.now) }
{
    match mark {
        Value::List(_) => None,
        Value::Str(mark) => match find_marked(
            schema,
            extent,
            mark.as_slice(),
            schema.classes().as_slice(),
        ) {
            Some(class) => Some(&class.name),
            None => None,
        },
    }
}

/// The class that the marker of a row names; `None` exactly where the value isn't a list whose marker names
/// a class of the extent. It takes no memory.
#[tactic(auto, unfolding(crate::specs::Markers::row_class))]
pub fn row_class<'a>(schema: &'a Schema, extent: &ClassName, row: &Value) -> Option<&'a ClassName>
    ensures { option_copied result ≡ class_of_row schema.now extent.now row.now }
{
    match row {
        Value::Str(_) => None,
        Value::List(items) => match items.as_slice().first() {
            None => None,
            Some(mark) => class_by(schema, extent, mark),
        },
    }
}
