ghost use Rattle.std.specs.Prelude.{◌≡◌, ◌++◌, ◌<◌, ◌^◌, pos, [], ◌∷◌, IfOk, OnOk, length, map, codes};
ghost use Rattle.std.specs.Fmt.{decimal};
ghost use Rattle.std.specs.FinMap as finmap;
ghost use Rattle.obj_kinds.specs.declared.value.Value.TheVariants as value;
ghost use Rattle.first_path.specs.Image.{data_global as global_of, counter_node as counter_of_class, row_node as row_of_object, row_of as row_with, rows_from, counter_of, image as image_of};
ghost use Rattle.first_path.specs.Sets.{after_sets, PinnedAtMost};

use crate::session::Fields;
use global_tree::Tree;
use itoa::Buffer;
use obj_kinds::{ClassName, NoMemory, Node, Nodes, Sub, Text, Value};
use sqlite_items::Items;
use std::alloc::Global;

fn data_global(alloc: Global, class: &ClassName) -> Result<Text, NoMemory>
    ensures { IfOk result (λ global. global ≡ global_of class.now.0) }
{
    let mut global = class.0.copy(alloc)?;
    global.push(b'D')?;
    Ok(global)
}

fn counter_node(alloc: Global, class: &ClassName) -> Result<Node, NoMemory>
    ensures { IfOk result (λ node. node ≡ counter_of_class class.now.0) }
{
    let global = data_global(alloc, class)?;
    Ok(Node {
        global,
        subs: Items::new(alloc),
    })
}

fn row_node(alloc: Global, class: &ClassName, id: usize) -> Result<Node, NoMemory>
    requires { id < 2 ^ 63 }
    ensures { IfOk result (λ node. node ≡ row_of_object class.now.0 id) }
{
    let global = data_global(alloc, class)?;
    let mut subs = Items::new(alloc);
    subs.push(Sub::Num(id as i64))?;
    Ok(Node { global, subs })
}

fn number_value(alloc: Global, number: usize) -> Result<Value, NoMemory>
    ensures { IfOk result (λ v. v ≡ value.Str (decimal number)) }
{
    let mut buffer = Buffer::new();
    let text = Text::from_slice(alloc, buffer.format(number).as_bytes())?;
    Ok(Value::Str(text))
}

fn row_value(alloc: Global, fields: &[Text]) -> Result<Value, NoMemory>
    ensures { IfOk result (λ v. v ≡ row_with fields.now) }
{
    let mut items = Items::new(alloc);
    items.push(Value::Str(Text::new(alloc)))?;
    for field in fields {
        items.push(Value::Str(field.copy(alloc)?))?;
    }
    Ok(Value::List(items))
}

fn set_counter(
    alloc: Global,
    tree: &mut Tree,
    class: &ClassName,
    saved: &[Fields],
) -> Result<(), NoMemory>
    requires { PinnedAtMost 0 tree.old.pins }
    ensures globals { OnOk result (tree.new.globals ≡ after_sets tree.old.globals (counter_of class.now.0 saved.now)) }
    ensures pins { OnOk result (PinnedAtMost 1 tree.new.pins) }
{
    if saved.is_empty() {
        return Ok(());
    }
    let counter = counter_node(alloc, class)?;
    tree.set(counter, number_value(alloc, saved.len())?)?;
    Ok(())
}

fn set_rows(
    alloc: Global,
    tree: &mut Tree,
    class: &ClassName,
    saved: &[Fields],
) -> Result<(), NoMemory>
    requires few { length saved.now < 2 ^ 32 }
    requires pins { PinnedAtMost 1 tree.old.pins }
    ensures { OnOk result (tree.new.globals ≡ after_sets tree.old.globals (rows_from class.now.0 1 saved.now)) }
{
    for (index, fields) in saved.iter().enumerate() {
        let row = row_node(alloc, class, index + 1)?;
        tree.set(row, row_value(alloc, fields.as_slice())?)?;
    }
    Ok(())
}

/// The nodes of a world in node order: where it is not empty the counter, which tells how many
/// objects there are, and the row of each object under the ids 1, 2 and so on. It fails only for want
/// of memory.
pub fn image(alloc: Global, class: &ClassName, saved: &[Fields]) -> Result<Nodes, NoMemory>
    requires { length saved.now < 2 ^ 32 }
    ensures { IfOk result (λ nodes. nodes ≡ finmap.entries (image_of class.now.0 saved.now)) }
{
    let mut tree = Tree::new(alloc);
    set_counter(alloc, &mut tree, class, saved)?;
    set_rows(alloc, &mut tree, class, saved)?;
    tree.nodes(alloc)
}
