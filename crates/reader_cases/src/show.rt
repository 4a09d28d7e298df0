//! Prints classes and refusals.

use crate::failure::Failure;
use class_reader::{ClassWhy, ReadError, read_classes};
use itoa::Buffer;
use obj_kinds::{ClassName, NoMemory, Text};
use schema_kinds::{Arg, ClassTree, ClassTrees, Form, Index, Method, PropTree};
use std::alloc::Global;

/// How many bytes a class file of the cases may have.
const MAX_FILE: usize = 64_000_000;

/// Puts a number.
pub fn put_number(out: &mut Text, number: u32) -> Result<(), NoMemory> {
    let mut buffer = Buffer::new();
    out.push_slice(buffer.format(number).as_bytes())
}

fn hex_digit(n: u8) -> u8 {
    if n < 10 { b'0' + n } else { b'a' + (n & 7) - 2 }
}

fn put_byte(out: &mut Text, b: u8) -> Result<(), NoMemory> {
    match b {
        b'\n' => out.push_slice(b"\\n".as_slice()),
        b'\r' => out.push_slice(b"\\r".as_slice()),
        b'\t' => out.push_slice(b"\\t".as_slice()),
        32..=126 => out.push(b),
        _ => {
            out.push_slice(b"\\x".as_slice())?;
            out.push(hex_digit(b >> 4))?;
            out.push(hex_digit(b & 15))
        }
    }
}

/// Puts the bytes, those that can't be seen as a backslash and their names.
pub fn put_text(out: &mut Text, text: &[u8]) -> Result<(), NoMemory> {
    for b in text {
        put_byte(out, *b)?;
    }
    Ok(())
}

fn put_quoted(out: &mut Text, text: &Text) -> Result<(), NoMemory> {
    out.push(b'"')?;
    put_text(out, text.as_slice())?;
    out.push(b'"')
}

fn put_given(out: &mut Text, word: &[u8], text: &Option<Text>) -> Result<(), NoMemory> {
    if let Some(text) = text {
        out.push_slice(word)?;
        put_quoted(out, text)?;
    }
    Ok(())
}

fn put_names(out: &mut Text, names: &[Text]) -> Result<(), NoMemory> {
    let mut between = b"".as_slice();
    for name in names {
        out.push_slice(between)?;
        out.push_slice(name.as_slice())?;
        between = b", ".as_slice();
    }
    Ok(())
}

fn put_supers(out: &mut Text, supers: &[ClassName]) -> Result<(), NoMemory> {
    let mut between = b" extends ".as_slice();
    for name in supers {
        out.push_slice(between)?;
        out.push_slice(name.0.as_slice())?;
        between = b", ".as_slice();
    }
    Ok(())
}

fn put_form(out: &mut Text, form: &Form) -> Result<(), NoMemory> {
    match form {
        Form::Single => Ok(()),
        Form::List => out.push_slice(b" list of".as_slice()),
        Form::Array => out.push_slice(b" array of".as_slice()),
        Form::Relation {
            cardinality,
            inverse,
        } => {
            put_given(out, b" cardinality ".as_slice(), cardinality)?;
            put_given(out, b" inverse ".as_slice(), inverse)?;
            out.push_slice(b" to".as_slice())
        }
    }
}

fn put_prop(out: &mut Text, prop: &PropTree) -> Result<(), NoMemory> {
    out.push_slice(b"        property ".as_slice())?;
    out.push_slice(prop.name.as_slice())?;
    put_form(out, &prop.form)?;
    out.push(b' ')?;
    out.push_slice(prop.of.0.as_slice())?;
    if prop.required {
        out.push_slice(b" required".as_slice())?;
    }
    if !prop.initial.is_empty() {
        out.push_slice(b" initial ".as_slice())?;
        put_quoted(out, &prop.initial)?;
    }
    put_given(out, b" MAXLEN ".as_slice(), &prop.max_len)?;
    put_given(out, b" MINVAL ".as_slice(), &prop.min_val)?;
    put_given(out, b" MAXVAL ".as_slice(), &prop.max_val)?;
    out.push(b'\n')
}

fn put_index(out: &mut Text, index: &Index) -> Result<(), NoMemory> {
    out.push_slice(b"        index ".as_slice())?;
    out.push_slice(index.name.as_slice())?;
    out.push_slice(b" on (".as_slice())?;
    put_names(out, index.props.as_slice())?;
    out.push(b')')?;
    if index.unique {
        out.push_slice(b" unique".as_slice())?;
    }
    out.push(b'\n')
}

fn put_arg(out: &mut Text, arg: &Arg) -> Result<(), NoMemory> {
    out.push_slice(arg.name.as_slice())?;
    put_given(out, b" = ".as_slice(), &arg.default)
}

fn put_args(out: &mut Text, args: &[Arg]) -> Result<(), NoMemory> {
    let mut between = b"".as_slice();
    for arg in args {
        out.push_slice(between)?;
        put_arg(out, arg)?;
        between = b", ".as_slice();
    }
    Ok(())
}

fn put_place(out: &mut Text, line: u32, column: u32) -> Result<(), NoMemory> {
    put_number(out, line)?;
    out.push(b':')?;
    put_number(out, column)
}

fn put_method(out: &mut Text, method: &Method) -> Result<(), NoMemory> {
    out.push_slice(if method.of_class {
        b"        class method ".as_slice()
    } else {
        b"        method ".as_slice()
    })?;
    out.push_slice(method.name.as_slice())?;
    out.push(b'(')?;
    put_args(out, method.args.as_slice())?;
    out.push_slice(b") at ".as_slice())?;
    put_place(out, method.line, method.column)?;
    out.push(b' ')?;
    put_quoted(out, &method.body)?;
    out.push(b'\n')
}

fn put_class(out: &mut Text, class: &ClassTree) -> Result<(), NoMemory> {
    out.push_slice(b"    class ".as_slice())?;
    out.push_slice(class.name.0.as_slice())?;
    put_supers(out, class.supers.as_slice())?;
    out.push(b'\n')?;
    for prop in class.props.as_slice() {
        put_prop(out, prop)?;
    }
    for index in class.indexes.as_slice() {
        put_index(out, index)?;
    }
    for method in class.methods.as_slice() {
        put_method(out, method)?;
    }
    Ok(())
}

fn why_name(why: ClassWhy) -> &'static [u8] {
    match why {
        ClassWhy::NotAscii => b"NotAscii".as_slice(),
        ClassWhy::UnexpectedEnd => b"UnexpectedEnd".as_slice(),
        ClassWhy::UnexpectedToken => b"UnexpectedToken".as_slice(),
        ClassWhy::NameTooLong => b"NameTooLong".as_slice(),
        ClassWhy::NumberTooLong => b"NumberTooLong".as_slice(),
        ClassWhy::NoPackage => b"NoPackage".as_slice(),
        ClassWhy::LeftOut => b"LeftOut".as_slice(),
        ClassWhy::RepeatedMember => b"RepeatedMember".as_slice(),
        ClassWhy::TooMany => b"TooMany".as_slice(),
    }
}

fn put_refusal(out: &mut Text, line: u32, column: u32, why: ClassWhy) -> Result<(), NoMemory> {
    out.push_slice(b"    ".as_slice())?;
    put_place(out, line, column)?;
    out.push(b' ')?;
    out.push_slice(why_name(why))?;
    out.push(b'\n')
}

/// The classes of a class file; where it is refused, the refusal is printed.
pub fn read_or_refuse(
    alloc: Global,
    text: &[u8],
    out: &mut Text,
) -> Result<Option<ClassTrees>, Failure> {
    if text.len() > MAX_FILE {
        return Err(Failure::File);
    }
    match read_classes(alloc, text) {
        Ok(classes) => Ok(Some(classes)),
        Err(ReadError::BadClass { line, column, why }) => {
            put_refusal(out, line, column, why)?;
            Ok(None)
        }
        Err(ReadError::NoMemory) => Err(Failure::NoMemory),
    }
}

/// Prints the classes of a class file, or its refusal.
pub fn show_file(alloc: Global, text: &[u8], out: &mut Text) -> Result<(), Failure> {
    let Some(classes) = read_or_refuse(alloc, text, out)? else {
        return Ok(());
    };
    if classes.is_empty() {
        out.push_slice(b"    no class\n".as_slice())?;
    }
    for class in classes.as_slice() {
        put_class(out, class)?;
    }
    Ok(())
}
