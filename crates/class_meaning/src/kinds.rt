ghost use Rattle.std.specs.Prelude.{◌≡◌, IfOk};
ghost use Rattle.class_facts.specs.Types.{data_item};
ghost use Rattle.class_facts.specs.Facts.{seen};
ghost use Rattle.class_meaning.specs.Meaning.{class_item, listed_item, item_of, single_kind, side_with, side_kind, kind_by, is_text_item, is_whole_item, has_text, has_whole, len_limit, given_len, max_len_of, bound_of, prop_of};

use class_facts::{Tables, is_named, number_in_text, sort_at};
use obj_kinds::{ClassName, NoMemory, Text};
use schema_kinds::{Form, Hierarchy, Item, Kind, Prop, PropTree, Sort};
use std::alloc::Global;

fn data_item_of(name: &ClassName) -> Option<Item>
    ensures { result ≡ data_item name.now }
{
    if is_named(name, b"%String".as_slice()) {
        Some(Item::Text)
    } else if is_named(name, b"%Integer".as_slice()) {
        Some(Item::Whole)
    } else if is_named(name, b"%Date".as_slice()) {
        Some(Item::Whole)
    } else if is_named(name, b"%Boolean".as_slice()) {
        Some(Item::Truth)
    } else {
        None
    }
}

fn class_item_of(alloc: Global, name: &ClassName, sort: Sort) -> Result<Item, NoMemory>
    ensures { IfOk result (λ item. item ≡ class_item name.now sort) }
{
    match sort {
        Sort::Persistent => Ok(Item::Ref(name.copy(alloc)?)),
        Sort::Serial => Ok(Item::Serial(name.copy(alloc)?)),
        Sort::Registered => Ok(Item::Ref(name.copy(alloc)?)),
        Sort::Plain => Ok(Item::Ref(name.copy(alloc)?)),
    }
}

fn listed_item_of(
    alloc: Global,
    hierarchy: &Hierarchy,
    tables: &Tables,
    name: &ClassName,
) -> Result<Option<Item>, NoMemory>
    ensures { IfOk result (λ item. item ≡ listed_item (seen hierarchy.now tables.now) name.now) }
{
    match hierarchy.names.place(&name.0) {
        Some(place) => {
            let item = class_item_of(alloc, name, sort_at(hierarchy, tables, place))?;
            Ok(Some(item))
        }
        None => Ok(None),
    }
}

fn find_item(
    alloc: Global,
    hierarchy: &Hierarchy,
    tables: &Tables,
    name: &ClassName,
) -> Result<Option<Item>, NoMemory>
    ensures { IfOk result (λ item. item ≡ item_of (seen hierarchy.now tables.now) name.now) }
{
    if let Some(item) = data_item_of(name) {
        return Ok(Some(item));
    }
    let item = listed_item_of(alloc, hierarchy, tables, name)?;
    Ok(item)
}

fn single(item: Item) -> Kind
    ensures { result ≡ single_kind item }
{
    match item {
        Item::Text => Kind::Text,
        Item::Whole => Kind::Whole,
        Item::Truth => Kind::Truth,
        Item::Ref(class) => Kind::Ref(class),
        Item::Serial(class) => Kind::Serial(class),
    }
}

fn side_of(
    alloc: Global,
    of: &ClassName,
    cardinality: &Text,
    inverse: &Text,
) -> Result<Option<Kind>, NoMemory>
    ensures { IfOk result (λ kind. kind ≡ side_with of.now cardinality.now inverse.now) }
{
    if cardinality.as_slice() == b"many".as_slice() {
        let class = of.copy(alloc)?;
        let side = inverse.copy(alloc)?;
        return Ok(Some(Kind::Many(class, side)));
    }
    if cardinality.as_slice() == b"one".as_slice() {
        let class = of.copy(alloc)?;
        let side = inverse.copy(alloc)?;
        return Ok(Some(Kind::One(class, side)));
    }
    Ok(None)
}

fn find_side(
    alloc: Global,
    of: &ClassName,
    cardinality: &Option<Text>,
    inverse: &Option<Text>,
) -> Result<Option<Kind>, NoMemory>
    ensures { IfOk result (λ kind. kind ≡ side_kind of.now cardinality.now inverse.now) }
{
    match cardinality {
        None => Ok(None),
        Some(cardinality) => match inverse {
            None => Ok(None),
            Some(inverse) => {
                let kind = side_of(alloc, of, cardinality, inverse)?;
                Ok(kind)
            }
        },
    }
}

fn find_kind(
    alloc: Global,
    hierarchy: &Hierarchy,
    tables: &Tables,
    of: &ClassName,
    form: &Form,
) -> Result<Option<Kind>, NoMemory>
    ensures { IfOk result (λ kind. kind ≡ kind_by (seen hierarchy.now tables.now) of.now form.now) }
{
    match form {
        Form::Single => match find_item(alloc, hierarchy, tables, of)? {
            Some(item) => Ok(Some(single(item))),
            None => Ok(None),
        },
        Form::List => match find_item(alloc, hierarchy, tables, of)? {
            Some(item) => Ok(Some(Kind::ListOf(item))),
            None => Ok(None),
        },
        Form::Array => match find_item(alloc, hierarchy, tables, of)? {
            Some(item) => Ok(Some(Kind::ArrayOf(item))),
            None => Ok(None),
        },
        Form::Relation {
            cardinality,
            inverse,
        } => {
            let kind = find_side(alloc, of, cardinality, inverse)?;
            Ok(kind)
        }
    }
}

fn is_text(item: &Item) -> bool
    ensures { result ≡ is_text_item item.now }
{
    match item {
        Item::Text => true,
        Item::Whole => false,
        Item::Truth => false,
        Item::Ref(_) => false,
        Item::Serial(_) => false,
    }
}

fn is_whole(item: &Item) -> bool
    ensures { result ≡ is_whole_item item.now }
{
    match item {
        Item::Text => false,
        Item::Whole => true,
        Item::Truth => false,
        Item::Ref(_) => false,
        Item::Serial(_) => false,
    }
}

fn holds_text(kind: &Kind) -> bool
    ensures { result ≡ has_text kind.now }
{
    match kind {
        Kind::Text => true,
        Kind::Whole => false,
        Kind::Truth => false,
        Kind::Ref(_) => false,
        Kind::Serial(_) => false,
        Kind::ListOf(item) => is_text(item),
        Kind::ArrayOf(item) => is_text(item),
        Kind::Many(_, _) => false,
        Kind::One(_, _) => false,
    }
}

fn holds_whole(kind: &Kind) -> bool
    ensures { result ≡ has_whole kind.now }
{
    match kind {
        Kind::Text => false,
        Kind::Whole => true,
        Kind::Truth => false,
        Kind::Ref(_) => false,
        Kind::Serial(_) => false,
        Kind::ListOf(item) => is_whole(item),
        Kind::ArrayOf(item) => is_whole(item),
        Kind::Many(_, _) => false,
        Kind::One(_, _) => false,
    }
}

fn limit_of(number: i64) -> Option<u32>
    ensures { result ≡ len_limit number }
{
    if number > 32_767 || number < 0 {
        None
    } else {
        Some(number.unsigned_abs() as u32)
    }
}

fn len_of(given: &Option<Text>) -> Option<u32>
    ensures { result ≡ given_len given.now }
{
    match given {
        None => Some(50),
        Some(text) => match number_in_text(text.as_slice()) {
            Some(number) => limit_of(number),
            None => None,
        },
    }
}

fn find_max_len(kind: &Kind, given: &Option<Text>) -> Option<u32>
    ensures { result ≡ max_len_of kind.now given.now }
{
    if holds_text(kind) {
        len_of(given)
    } else {
        None
    }
}

fn find_bound(kind: &Kind, given: &Option<Text>) -> Option<i64>
    ensures { result ≡ bound_of kind.now given.now }
{
    if !holds_whole(kind) {
        return None;
    }
    match given {
        Some(text) => number_in_text(text.as_slice()),
        None => None,
    }
}

/// The property that its declaration means.
pub fn build_prop(
    alloc: Global,
    hierarchy: &Hierarchy,
    tables: &Tables,
    prop: &PropTree,
) -> Result<Option<Prop>, NoMemory>
    ensures { IfOk result (λ built. built ≡ prop_of (seen hierarchy.now tables.now) prop.now) }
{
    match find_kind(alloc, hierarchy, tables, &prop.of, &prop.form)? {
        None => Ok(None),
        Some(kind) => {
            let name = prop.name.copy(alloc)?;
            let initial = prop.initial.copy(alloc)?;
            let max_len = find_max_len(&kind, &prop.max_len);
            let min_val = find_bound(&kind, &prop.min_val);
            let max_val = find_bound(&kind, &prop.max_val);
            Ok(Some(Prop {
                name,
                kind,
                required: prop.required,
                initial,
                max_len,
                min_val,
                max_val,
            }))
        }
    }
}
