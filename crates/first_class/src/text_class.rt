ghost use Rattle.std.specs.Prelude.{◌≡◌, IfOk, map};
ghost use Rattle.std.specs.List.{list_all};
ghost use Rattle.first_class.specs.TextClasses.{is_single as single_test, is_empty, is_text_prop as prop_test, is_plain_persistent as supers_test, is_text_tree as tree_test, IsTextClass};
ghost use Rattle.first_class.specs.declared.form.TextClass.{TextClass as Class};

use crate::form::{FormError, TextClass};
use obj_kinds::{ClassName, NoMemory, Text};
use schema_kinds::{ClassTree, Form, Index, Method, PropTree};
use sqlite_items::Items;
use std::alloc::Global;

fn is_single(form: &Form) -> bool
    ensures { result ≡ single_test form.now }
{
    match form {
        Form::Single => true,
        Form::List => false,
        Form::Array => false,
        Form::Relation { .. } => false,
    }
}

fn is_text_prop(prop: &PropTree) -> bool
    ensures { result ≡ prop_test prop.now }
{
    is_single(&prop.form)
        && prop.of.0.as_slice() == b"%String".as_slice()
        && !prop.required
        && prop.initial.is_empty()
        && prop.max_len.is_none()
}

fn is_plain_persistent(supers: &[ClassName]) -> bool
    ensures { result ≡ supers_test supers.now }
{
    match supers {
        [name] => name.0.as_slice() == b"%Persistent".as_slice(),
        _ => false,
    }
}

fn are_text_props(props: &[PropTree]) -> bool
    ensures { result ≡ list_all prop_test props.now }
{
    props.iter().all(|prop| is_text_prop(prop))
}

fn has_no_index(indexes: &[Index]) -> bool
    ensures { result ≡ is_empty indexes.now }
{
    matches!(indexes, [])
}

fn has_no_method(methods: &[Method]) -> bool
    ensures { result ≡ is_empty methods.now }
{
    matches!(methods, [])
}

fn is_text_tree(tree: &ClassTree) -> bool
    ensures { result ≡ tree_test tree.now }
{
    is_plain_persistent(tree.supers.as_slice())
        && are_text_props(tree.props.as_slice())
        && has_no_index(tree.indexes.as_slice())
        && has_no_method(tree.methods.as_slice())
}

fn names_of(alloc: Global, props: &[PropTree]) -> Result<Items<Text>, NoMemory>
    ensures { IfOk result (λ names. names ≡ map (λ p. p.name) props.now) }
{
    let mut names = Items::new(alloc);
    for prop in props {
        names.push(prop.name.copy(alloc)?)?;
    }
    Ok(names)
}

/// The class of text properties that a class file declares, where it declares nothing else: one class
/// that extends `%Persistent` alone, without indexes and methods, each of whose properties is a single
/// `%String` without `MAXLEN`, `Required` and an initial value. `NotInForm` comes exactly where it
/// declares no such class. This form is our own profile's first step.
pub fn text_class_of(alloc: Global, trees: &[ClassTree]) -> Result<TextClass, FormError>
    ensures found { IfOk result (λ class. IsTextClass trees.now class) }
    ensures refused { result ≡ Err FormError.NotInForm → (class : Class) → IsTextClass trees.now class → ⊥ }
{
    let [tree] = trees else {
        return Err(FormError::NotInForm);
    };
    if !is_text_tree(tree) {
        return Err(FormError::NotInForm);
    }
    let name = tree.name.copy(alloc)?;
    let props = names_of(alloc, tree.props.as_slice())?;
    Ok(TextClass { name, props })
}
