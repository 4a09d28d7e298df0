ghost use Rattle.std.specs.Prelude.{◌≡◌, ◌++◌, IfOk, OnOk, map};
ghost use Rattle.record_layout.specs.Layout.{layout_of, layout_on, lower_lists, arrays_of, last_props as props_of_last};
ghost use Rattle.record_reading.specs.Steps.{list_seen, array_seen, layout_seen};

use obj_kinds::{ClassName, NoMemory};
use record_layout::{count_rows, line_to, own_props};
use schema_kinds::{Class, Item, Kind, Prop, Schema, short_name_of};
use std::alloc::Global;

/// A list below a row.
#[derive(Clone, Copy)]
pub struct ListBelow<'a> {
    /// Its subscript.
    pub name: &'a [u8],
    /// The properties whose items it has; arrays and many sides among them have none.
    pub props: &'a [Prop],
}

/// An array below a row.
#[derive(Clone, Copy)]
pub struct ArrayBelow<'a> {
    /// Its subscript.
    pub name: &'a [u8],
    /// What its elements are.
    pub item: &'a Item,
}

/// What is read of an object of a class, in this order: its row, the lists below it, the elements of its arrays.
#[derive(Drop)]
pub struct Steps<'a> {
    /// The properties whose items the row has behind its marker.
    pub root: &'a [Prop],
    /// The lists of the classes below the root, the one nearest to it first.
    pub lists: Vec<ListBelow<'a>>,
    /// The arrays, in the order of the properties.
    pub arrays: Vec<ArrayBelow<'a>>,
    /// All properties of the class.
    pub props: &'a [Prop],
}

// The lists of the classes below the root. The depth is that of superclasses, 16 at most.
#[tactic(auto, using(storage_map::proofs::RowLaws::no_list))]
fn push_lists<'a>(
    above: &'a Class,
    line: &[&'a Class],
    lists: &mut Vec<ListBelow<'a>>,
) -> Result<(), NoMemory>
    ensures { OnOk result (map list_seen lists.new.items ≡ map list_seen lists.old.items ++ lower_lists above.now (map (λ c. c.now) line.now)) }
{
    let Some((class, rest)) = line.split_first() else {
        return Ok(());
    };
    let props = own_props(above, class);
    if count_rows(props) == 0 {
        return push_lists(class, rest, lists);
    }
    let list = ListBelow {
        name: short_name_of(&class.name),
        props,
    };
    lists.push(list)?;
    push_lists(class, rest, lists)
}

fn push_arrays<'a>(props: &'a [Prop], arrays: &mut Vec<ArrayBelow<'a>>) -> Result<(), NoMemory>
    ensures { OnOk result (map array_seen arrays.new.items ≡ map array_seen arrays.old.items ++ arrays_of props.now) }
{
    for prop in props {
        if let Kind::ArrayOf(item) = &prop.kind {
            arrays.push(ArrayBelow {
                name: prop.name.as_slice(),
                item,
            })?;
        }
    }
    Ok(())
}

// The properties of the last class. The depth is that of superclasses, 16 at most.
fn last_props<'a>(first: &'a Class, line: &[&'a Class]) -> &'a [Prop]
    ensures { result.now ≡ props_of_last first.now (map (λ c. c.now) line.now) }
{
    match line.split_first() {
        None => first.props.as_slice(),
        Some((class, rest)) => last_props(class, rest),
    }
}

fn steps_on<'a>(alloc: Global, line: &[&'a Class]) -> Result<Steps<'a>, NoMemory>
    ensures { IfOk result (λ steps. layout_seen steps ≡ layout_on (map (λ c. c.now) line.now)) }
{
    let mut lists = Vec::new(alloc);
    let mut arrays = Vec::new(alloc);
    let Some((root, below)) = line.split_first() else {
        return Ok(Steps {
            root: &[],
            lists,
            arrays,
            props: &[],
        });
    };
    let props = last_props(root, below);
    push_lists(root, below, &mut lists)?;
    push_arrays(props, &mut arrays)?;
    Ok(Steps {
        root: root.props.as_slice(),
        lists,
        arrays,
        props,
    })
}

/// What is read of an object of a class, in the order of reading; nothing where the schema has no class of that
/// name. It fails only for want of memory.
#[tactic(auto, unfolding(record_layout::specs::Layout::layout_of))]
pub fn steps_of<'a>(
    alloc: Global,
    schema: &'a Schema,
    class: &ClassName,
) -> Result<Steps<'a>, NoMemory>
    ensures { IfOk result (λ steps. layout_seen steps ≡ layout_of schema.now class.now) }
{
    let line = line_to(alloc, schema, class)?;
    steps_on(alloc, line.as_slice())
}
