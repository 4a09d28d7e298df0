ghost use Rattle.std.specs.Prelude.{◌≡◌, List, ◌<◌, slice_get, is_none, option_and_then, not, ◌&&◌, ◌||◌};
ghost use Rattle.std.specs.List.{list_any};
ghost use Rattle.schema_kinds.specs.Hierarchy.{is_system, place_of};
ghost use Rattle.schema_kinds.specs.Classes.{is_persistent};
ghost use Rattle.class_facts.specs.Spots.{spot_of};
ghost use Rattle.class_facts.specs.Trees.{prop_at, index_at, own_props};
ghost use Rattle.class_facts.specs.Facts.{seen, option_any, is_class_of, any_index, props_in};
ghost use Rattle.class_checks.specs.Reasons.{same_kind, is_unknown, has_unknown, is_unknown_type, has_persistent, inherited_spot, changes_kind, bad_form, bad_type, is_not_yet, is_pair, answers_side, is_answer, lacks_inverse, lacks_other_side, names_unknown, is_unindexed, names_unindexed};

use crate::sameness::{has_unknown_class, is_same_kind};
use class_facts::{
    Spot, SpotTable, Tables, has_ids, has_storage, index_at_spot, is_named, makes_parts,
    names_persistent, names_serial, names_unstored, own_props_of, prop_at_spot, says,
    system_sort_of,
};
use obj_kinds::{ClassName, Text};
use schema_kinds::{
    ClassTree, Form, Hierarchy, Index, NameTable, PropTree, Sort, begins_with_percent,
};

fn is_unknown_super(names: &NameTable, name: &ClassName) -> bool
    ensures { result ≡ is_unknown names.now name.now }
{
    names.place(&name.0).is_none() && system_sort_of(name).is_none()
}

fn is_unknown_later(names: &NameTable, name: &ClassName) -> bool
    ensures { result ≡ (is_unknown names.now name.now && not (is_system name.now)) }
{
    is_unknown_super(names, name) && !begins_with_percent(name)
}

fn any_unknown_later(names: &NameTable, later: &[ClassName]) -> bool
    ensures { result ≡ list_any (λ t. is_unknown names.now t && not (is_system t)) later.now }
{
    later.iter().any(|name| is_unknown_later(names, name))
}

/// Whether a superclass is neither listed nor a system class; a later one that begins with `%` is skipped.
pub fn any_unknown_super(names: &NameTable, supers: &[ClassName]) -> bool
    ensures { result ≡ has_unknown names.now supers.now }
{
    match supers.split_first() {
        None => false,
        Some((first, later)) => is_unknown_super(names, first) || any_unknown_later(names, later),
    }
}

fn unknown_type_at(names: &NameTable, trees: &[ClassTree], spot: Spot) -> bool
    ensures { result ≡ option_any (is_unknown_type names.now) (prop_at trees.now spot) }
{
    match prop_at_spot(trees, spot) {
        Some(prop) => has_unknown_class(names, prop),
        None => false,
    }
}

/// Whether a property names an unknown class.
pub fn any_unknown_type(names: &NameTable, trees: &[ClassTree], spots: &[Spot]) -> bool
    ensures { result ≡ list_any (λ s. option_any (is_unknown_type names.now) (prop_at trees.now s)) spots.now }
{
    spots
        .iter()
        .any(|spot| unknown_type_at(names, trees, *spot))
}

fn is_persistent_later(hierarchy: &Hierarchy, tables: &Tables, name: &ClassName) -> bool
    ensures { result ≡ (not (is_system name.now) && is_class_of (seen hierarchy.now tables.now) is_persistent name.now) }
{
    !begins_with_percent(name) && names_persistent(hierarchy, tables, name)
}

fn any_persistent_later(hierarchy: &Hierarchy, tables: &Tables, later: &[ClassName]) -> bool
    ensures { result ≡ list_any (λ t. not (is_system t) && is_class_of (seen hierarchy.now tables.now) is_persistent t) later.now }
{
    later
        .iter()
        .any(|name| is_persistent_later(hierarchy, tables, name))
}

/// Whether a superclass other than the first is persistent.
pub fn any_persistent(hierarchy: &Hierarchy, tables: &Tables, supers: &[ClassName]) -> bool
    ensures { result ≡ has_persistent (seen hierarchy.now tables.now) supers.now }
{
    match supers.split_first() {
        None => false,
        Some((_, later)) => any_persistent_later(hierarchy, tables, later),
    }
}

fn find_spot(hierarchy: &Hierarchy, tables: &Tables, class: usize, name: &Text) -> Option<Spot>
    ensures { result ≡ spot_of name.now (props_in (seen hierarchy.now tables.now) class) }
{
    match tables.members.get(class) {
        Some(members) => members.props.find(name),
        None => None,
    }
}

fn find_inherited(
    hierarchy: &Hierarchy,
    tables: &Tables,
    name: &Text,
    supers: &[usize],
) -> Option<Spot>
    ensures { result ≡ inherited_spot (seen hierarchy.now tables.now) name.now supers.now }
{
    for class in supers {
        if let Some(spot) = find_spot(hierarchy, tables, *class, name) {
            return Some(spot);
        }
    }
    None
}

fn is_other_kind(trees: &[ClassTree], prop: &PropTree, inherited: Option<Spot>) -> bool
    ensures { result ≡ option_any (λ q. not (same_kind prop.now q)) (option_and_then (prop_at trees.now) inherited) }
{
    match inherited {
        Some(spot) => match prop_at_spot(trees, spot) {
            Some(other) => !is_same_kind(prop, other),
            None => false,
        },
        None => false,
    }
}

/// Whether a property is declared again with another kind.
pub fn any_other_kind(
    trees: &[ClassTree],
    hierarchy: &Hierarchy,
    tables: &Tables,
    supers: &[usize],
    props: &[PropTree],
) -> bool
    ensures { result ≡ list_any (changes_kind trees.now (seen hierarchy.now tables.now) supers.now) props.now }
{
    props.iter().any(|prop| is_other_kind(
        trees,
        prop,
        find_inherited(hierarchy, tables, &prop.name, supers),
    ))
}

fn is_bad_form(
    hierarchy: &Hierarchy,
    tables: &Tables,
    sort: Sort,
    of: &ClassName,
    form: &Form,
) -> bool
    ensures { result ≡ bad_form (seen hierarchy.now tables.now) sort of.now form.now }
{
    match form {
        Form::Single => has_storage(sort) && names_unstored(hierarchy, tables, of),
        Form::List => has_storage(sort) && names_unstored(hierarchy, tables, of),
        Form::Array => makes_parts(sort)
            || has_storage(sort) && names_unstored(hierarchy, tables, of),
        Form::Relation { .. } => !has_ids(sort) || !names_persistent(hierarchy, tables, of),
    }
}

fn bad_type_at(
    trees: &[ClassTree],
    hierarchy: &Hierarchy,
    tables: &Tables,
    sort: Sort,
    spot: Spot,
) -> bool
    ensures { result ≡ option_any (bad_type (seen hierarchy.now tables.now) sort) (prop_at trees.now spot) }
{
    match prop_at_spot(trees, spot) {
        Some(prop) => is_bad_form(hierarchy, tables, sort, &prop.of, &prop.form),
        None => false,
    }
}

/// Whether a property has a type that a class of this sort can't hold.
pub fn any_bad_type(
    trees: &[ClassTree],
    hierarchy: &Hierarchy,
    tables: &Tables,
    sort: Sort,
    spots: &[Spot],
) -> bool
    ensures { result ≡ list_any (λ s. option_any (bad_type (seen hierarchy.now tables.now) sort) (prop_at trees.now s)) spots.now }
{
    spots
        .iter()
        .any(|spot| bad_type_at(trees, hierarchy, tables, sort, *spot))
}

fn is_form_to_come(form: &Form) -> bool
    ensures { result ≡ is_not_yet form.now }
{
    match form {
        Form::Single => false,
        Form::List => false,
        Form::Array => false,
        Form::Relation { cardinality, .. } => says(cardinality, b"parent".as_slice())
            || says(cardinality, b"children".as_slice()),
    }
}

fn to_come_at(trees: &[ClassTree], spot: Spot) -> bool
    ensures { result ≡ option_any (λ p. is_not_yet p.form) (prop_at trees.now spot) }
{
    match prop_at_spot(trees, spot) {
        Some(prop) => is_form_to_come(&prop.form),
        None => false,
    }
}

/// Whether a cardinality is `parent` or `children`.
pub fn any_to_come(trees: &[ClassTree], spots: &[Spot]) -> bool
    ensures { result ≡ list_any (λ s. option_any (λ p. is_not_yet p.form) (prop_at trees.now s)) spots.now }
{
    spots.iter().any(|spot| to_come_at(trees, *spot))
}

fn are_pair(left: &Option<Text>, right: &Option<Text>) -> bool
    ensures { result ≡ is_pair left.now right.now }
{
    says(left, b"one".as_slice()) && says(right, b"many".as_slice())
        || says(left, b"many".as_slice()) && says(right, b"one".as_slice())
}

fn answers(
    class: &ClassName,
    name: &Text,
    cardinality: &Option<Text>,
    of: &ClassName,
    form: &Form,
) -> bool
    ensures { result ≡ answers_side class.now name.now cardinality.now of.now form.now }
{
    match form {
        Form::Single => false,
        Form::List => false,
        Form::Array => false,
        Form::Relation {
            cardinality: other_cardinality,
            inverse,
        } => {
            is_named(of, class.0.as_slice())
                && says(inverse, name.as_slice())
                && are_pair(cardinality, other_cardinality)
        }
    }
}

fn is_inverse(
    class: &ClassName,
    name: &Text,
    cardinality: &Option<Text>,
    inverse: &Option<Text>,
    other: &PropTree,
) -> bool
    ensures { result ≡ is_answer class.now name.now cardinality.now inverse.now other.now }
{
    says(inverse, other.name.as_slice())
        && answers(class, name, cardinality, &other.of, &other.form)
}

fn props_named<'a>(trees: &'a [ClassTree], names: &NameTable, name: &ClassName) -> &'a [PropTree]
    ensures { result.now ≡ own_props (option_and_then (slice_get trees.now) (place_of names.now name.now)) }
{
    match names.place(&name.0) {
        Some(place) => own_props_of(trees, place),
        None => &[],
    }
}

fn any_inverse(
    class: &ClassName,
    name: &Text,
    cardinality: &Option<Text>,
    inverse: &Option<Text>,
    others: &[PropTree],
) -> bool
    ensures { result ≡ list_any (is_answer class.now name.now cardinality.now inverse.now) others.now }
{
    others.iter().any(|other| is_inverse(class, name, cardinality, inverse, other))
}

fn has_no_answer(
    trees: &[ClassTree],
    hierarchy: &Hierarchy,
    tables: &Tables,
    class: &ClassName,
    prop: &PropTree,
) -> bool
    ensures { result ≡ lacks_inverse trees.now (seen hierarchy.now tables.now) class.now prop.now.name prop.now.of prop.now.form }
{
    match &prop.form {
        Form::Single => false,
        Form::List => false,
        Form::Array => false,
        Form::Relation {
            cardinality,
            inverse,
        } => {
            !any_inverse(
                class,
                &prop.name,
                cardinality,
                inverse,
                props_named(trees, &hierarchy.names, &prop.of),
            )
        }
    }
}

/// Whether a side that the class declares has no fitting inverse.
pub fn any_without_inverse(
    trees: &[ClassTree],
    hierarchy: &Hierarchy,
    tables: &Tables,
    tree: &ClassTree,
) -> bool
    ensures { result ≡ lacks_other_side trees.now (seen hierarchy.now tables.now) tree.now }
{
    tree.props.as_slice().iter().any(|prop| has_no_answer(
        trees, hierarchy, tables, &tree.name, prop,
    ))
}

fn has_unknown_prop(props: &SpotTable, index: &Index) -> bool
    ensures { result ≡ names_unknown props.now index.now }
{
    index
        .props
        .as_slice()
        .iter()
        .any(|name| props.find(name).is_none())
}

fn unknown_prop_at(trees: &[ClassTree], props: &SpotTable, spot: Spot) -> bool
    ensures { result ≡ option_any (names_unknown props.now) (index_at trees.now spot) }
{
    match index_at_spot(trees, spot) {
        Some(index) => has_unknown_prop(props, index),
        None => false,
    }
}

/// Whether an index names no property of its class.
pub fn any_unknown_prop(trees: &[ClassTree], props: &SpotTable, indexes: &[(Text, Spot)]) -> bool
    ensures { result ≡ any_index trees.now indexes.now (names_unknown props.now) }
{
    indexes
        .iter()
        .any(|pair| unknown_prop_at(trees, props, pair.1))
}

fn cannot_be_indexed(hierarchy: &Hierarchy, tables: &Tables, prop: &PropTree) -> bool
    ensures { result ≡ is_unindexed (seen hierarchy.now tables.now) prop.now.of prop.now.form }
{
    match &prop.form {
        Form::Single => names_serial(hierarchy, tables, &prop.of),
        Form::List => true,
        Form::Array => true,
        Form::Relation { cardinality, .. } => says(cardinality, b"many".as_slice()),
    }
}

fn is_unindexed_name(
    trees: &[ClassTree],
    hierarchy: &Hierarchy,
    tables: &Tables,
    props: &SpotTable,
    name: &Text,
) -> bool
    ensures { result ≡ option_any (λ p. is_unindexed (seen hierarchy.now tables.now) p.of p.form) (option_and_then (prop_at trees.now) (spot_of name.now props.now)) }
{
    match props.find(name) {
        Some(spot) => match prop_at_spot(trees, spot) {
            Some(prop) => cannot_be_indexed(hierarchy, tables, prop),
            None => false,
        },
        None => false,
    }
}

fn has_unindexed(
    trees: &[ClassTree],
    hierarchy: &Hierarchy,
    tables: &Tables,
    props: &SpotTable,
    index: &Index,
) -> bool
    ensures { result ≡ names_unindexed trees.now (seen hierarchy.now tables.now) props.now index.now }
{
    index.props.as_slice().iter().any(|name| is_unindexed_name(
        trees, hierarchy, tables, props, name,
    ))
}

fn unindexed_at(
    trees: &[ClassTree],
    hierarchy: &Hierarchy,
    tables: &Tables,
    props: &SpotTable,
    spot: Spot,
) -> bool
    ensures { result ≡ option_any (names_unindexed trees.now (seen hierarchy.now tables.now) props.now) (index_at trees.now spot) }
{
    match index_at_spot(trees, spot) {
        Some(index) => has_unindexed(trees, hierarchy, tables, props, index),
        None => false,
    }
}

/// Whether an index names a serial part, a collection or a many side.
pub fn any_unindexed(
    trees: &[ClassTree],
    hierarchy: &Hierarchy,
    tables: &Tables,
    props: &SpotTable,
    indexes: &[(Text, Spot)],
) -> bool
    ensures { result ≡ any_index trees.now indexes.now (names_unindexed trees.now (seen hierarchy.now tables.now) props.now) }
{
    indexes.iter().any(|pair| unindexed_at(trees, hierarchy, tables, props, pair.1))
}
