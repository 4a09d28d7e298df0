//! Schemas as lines that a Caché programmer reads.

use anyhow::Result;
use obj_kinds::{ClassName, Text};
use schema_kinds::{Arg, Class, Index, Item, Kind, Method, Prop, Schema};
use std::str;

/// The text as letters; all texts of class files are ASCII.
pub fn text_of(text: &Text) -> &str {
    match str::from_utf8(text.as_slice()) {
        Ok(letters) => letters,
        Err(_) => "?",
    }
}

fn name_of(class: &ClassName) -> &str {
    text_of(&class.0)
}

fn print_item(rt: &HostRuntime, item: &Item) -> Result<()> {
    match item {
        Item::Text => print!(rt; "text")?,
        Item::Whole => print!(rt; "whole")?,
        Item::Truth => print!(rt; "truth")?,
        Item::Ref(class) => {
            let name = name_of(class);
            print!(rt; "reference to {name}")?;
        }
        Item::Serial(class) => {
            let name = name_of(class);
            print!(rt; "part {name}")?;
        }
    }
    Ok(())
}

fn print_side(rt: &HostRuntime, word: &str, class: &ClassName, side: &Text) -> Result<()> {
    let name = name_of(class);
    let inverse = text_of(side);
    print!(rt; "{word} {name} by {inverse}")?;
    Ok(())
}

fn print_kind(rt: &HostRuntime, kind: &Kind) -> Result<()> {
    match kind {
        Kind::Text => print_item(rt, &Item::Text),
        Kind::Whole => print_item(rt, &Item::Whole),
        Kind::Truth => print_item(rt, &Item::Truth),
        Kind::Ref(class) => {
            let name = name_of(class);
            print!(rt; "reference to {name}")?;
            Ok(())
        }
        Kind::Serial(class) => {
            let name = name_of(class);
            print!(rt; "part {name}")?;
            Ok(())
        }
        Kind::ListOf(item) => {
            print!(rt; "list of ")?;
            print_item(rt, item)
        }
        Kind::ArrayOf(item) => {
            print!(rt; "array of ")?;
            print_item(rt, item)
        }
        Kind::Many(class, side) => print_side(rt, "many", class, side),
        Kind::One(class, side) => print_side(rt, "one", class, side),
    }
}

fn print_prop(rt: &HostRuntime, prop: &Prop) -> Result<()> {
    let name = text_of(&prop.name);
    print!(rt; "  {name}: ")?;
    print_kind(rt, &prop.kind)?;
    if prop.required {
        print!(rt; ", required")?;
    }
    if !prop.initial.as_slice().is_empty() {
        let initial = text_of(&prop.initial);
        print!(rt; ", at first \"{initial}\"")?;
    }
    if let Some(most) = prop.max_len {
        print!(rt; ", at most {most} bytes")?;
    }
    if let Some(least) = prop.min_val {
        print!(rt; ", from {least}")?;
    }
    if let Some(most) = prop.max_val {
        print!(rt; ", up to {most}")?;
    }
    println!(rt; "")?;
    Ok(())
}

fn print_index(rt: &HostRuntime, index: &Index) -> Result<()> {
    let name = text_of(&index.name);
    print!(rt; "  index {name} on")?;
    for prop in index.props.as_slice() {
        let prop = text_of(prop);
        print!(rt; " {prop}")?;
    }
    if index.unique {
        print!(rt; ", unique")?;
    }
    println!(rt; "")?;
    Ok(())
}

fn print_arg(rt: &HostRuntime, arg: &Arg) -> Result<()> {
    let name = text_of(&arg.name);
    print!(rt; " {name}")?;
    if let Some(default) = &arg.default {
        let default = text_of(default);
        print!(rt; "=\"{default}\"")?;
    }
    Ok(())
}

fn print_method(rt: &HostRuntime, method: &Method) -> Result<()> {
    let name = text_of(&method.name);
    let word = if method.of_class {
        "class method"
    } else {
        "method"
    };
    print!(rt; "  {word} {name}")?;
    for arg in method.args.as_slice() {
        print_arg(rt, arg)?;
    }
    let line = method.line;
    let column = method.column;
    println!(rt; ", body at {line}:{column}")?;
    Ok(())
}

fn print_class(rt: &HostRuntime, schema: &Schema, class: &Class) -> Result<()> {
    let name = name_of(&class.name);
    let sort = class.sort;
    print!(rt; "{name} {sort:?}")?;
    if let Some(root) = schema.extent(&class.name) {
        let root = name_of(root);
        print!(rt; " in {root}")?;
    }
    for other in schema.classes().as_slice() {
        if schema.is_below(&class.name, &other.name) {
            let above = name_of(&other.name);
            print!(rt; " below {above}")?;
        }
    }
    println!(rt; "")?;
    for prop in class.props.as_slice() {
        print_prop(rt, prop)?;
    }
    for index in class.indexes.as_slice() {
        print_index(rt, index)?;
    }
    for method in class.methods.as_slice() {
        print_method(rt, method)?;
    }
    Ok(())
}

/// Prints the classes of a schema with their members; of more than 20 classes only how many there are.
pub fn print_schema(rt: &HostRuntime, schema: &Schema) -> Result<()> {
    let classes = schema.classes().as_slice();
    let count = classes.len();
    if count > 20 {
        println!(rt; "{count} classes")?;
        return Ok(());
    }
    for class in classes {
        print_class(rt, schema, class)?;
    }
    Ok(())
}
