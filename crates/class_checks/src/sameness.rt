ghost use Rattle.std.specs.Prelude.{◌≡◌, List, ◌<◌, is_some, ◌&&◌};
ghost use Rattle.class_facts.specs.Types.{data_item};
ghost use Rattle.class_checks.specs.Reasons.{is_unknown_type, is_whole_type, same_type, same_form, same_kind};
ghost use Rattle.class_facts.specs.Words.{same_word};

use class_facts::is_named;
use obj_kinds::{ClassName, Text};
use schema_kinds::{Form, NameTable, PropTree};

fn is_data_type(name: &ClassName) -> bool
    ensures { result ≡ is_some (data_item name.now) }
{
    is_named(name, b"%String".as_slice())
        || is_named(name, b"%Integer".as_slice())
        || is_named(name, b"%Date".as_slice())
        || is_named(name, b"%Boolean".as_slice())
}

/// Whether the class that a property names is unknown.
pub fn has_unknown_class(names: &NameTable, prop: &PropTree) -> bool
    ensures { result ≡ is_unknown_type names.now prop.now }
{
    !is_data_type(&prop.of) && names.place(&prop.of.0).is_none()
}

fn is_whole_name(name: &ClassName) -> bool
    ensures { result ≡ is_whole_type name.now }
{
    is_named(name, b"%Integer".as_slice()) || is_named(name, b"%Date".as_slice())
}

fn is_same_type(left: &ClassName, right: &ClassName) -> bool
    ensures { result ≡ same_type left.now right.now }
{
    is_named(left, right.0.as_slice()) || is_whole_name(left) && is_whole_name(right)
}

fn is_same_word(left: &Option<Text>, right: &Option<Text>) -> bool
    ensures { result ≡ same_word left.now right.now }
{
    match (left, right) {
        (None, None) => true,
        (Some(left), Some(right)) => left.as_slice() == right.as_slice(),
        (Some(_), None) => false,
        (None, Some(_)) => false,
    }
}

fn is_same_form(left: &Form, right: &Form) -> bool
    ensures { result ≡ same_form left.now right.now }
{
    match left {
        Form::Single => matches!(right, Form::Single),
        Form::List => matches!(right, Form::List),
        Form::Array => matches!(right, Form::Array),
        Form::Relation {
            cardinality,
            inverse,
        } => match right {
            Form::Single => false,
            Form::List => false,
            Form::Array => false,
            Form::Relation {
                cardinality: other_cardinality,
                inverse: other_inverse,
            } => is_same_word(cardinality, other_cardinality)
                && is_same_word(inverse, other_inverse),
        },
    }
}

/// Whether two properties are declared with one kind.
pub fn is_same_kind(left: &PropTree, right: &PropTree) -> bool
    ensures { result ≡ same_kind left.now right.now }
{
    is_same_form(&left.form, &right.form) && is_same_type(&left.of, &right.of)
}
