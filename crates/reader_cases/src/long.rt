//! Long class files, which the program makes itself.

use crate::failure::Failure;
use crate::show::{put_number, read_or_refuse};
use obj_kinds::{NoMemory, Text};
use schema_kinds::{ClassTree, PropTree};
use std::alloc::Global;

/// A class file at a limit: its name, its front, and its items, numbered by three letters, with what stands before and
/// behind these, and how many there are. A brace ends it.
type Full = (
    &'static [u8],
    &'static [u8],
    &'static [u8],
    &'static [u8],
    u32,
);

const FULL: [Full; 8] = [
    (
        b"200 properties",
        b"Class A.B {\n",
        b"Property ",
        b";\n",
        200,
    ),
    (
        b"201 properties",
        b"Class A.B {\n",
        b"Property ",
        b";\n",
        201,
    ),
    (b"50 indexes", b"Class A.B {\n", b"Index ", b" On P;\n", 50),
    (b"51 indexes", b"Class A.B {\n", b"Index ", b" On P;\n", 51),
    (
        b"500 methods",
        b"Class A.B {\n",
        b"Method ",
        b"() { }\n",
        500,
    ),
    (
        b"501 methods",
        b"Class A.B {\n",
        b"Method ",
        b"() { }\n",
        501,
    ),
    (
        b"500 classes",
        b"Class A.B {\n",
        b"}\nClass A.",
        b" {\n",
        499,
    ),
    (
        b"501 classes",
        b"Class A.B {\n",
        b"}\nClass A.",
        b" {\n",
        500,
    ),
];

/// A long class file: its name, its front, what is repeated how often, and its back.
type Long = (
    &'static [u8],
    &'static [u8],
    &'static [u8],
    u32,
    &'static [u8],
);

const LONG: [Long; 22] = [
    (
        b"a number of half a million zeros",
        b"Class A.B { Property P As %String(MAXLEN = 0",
        b"0",
        500_000,
        b"7); }",
    ),
    (
        b"a number of a million digits",
        b"Class A.B { Property P As %String(MAXLEN = 1",
        b"1",
        1_000_000,
        b"); }",
    ),
    (
        b"a name of a million letters",
        b"Class A.B { Property P",
        b"p",
        1_000_000,
        b"; }",
    ),
    (
        b"a class's name of a million letters",
        b"Class A.B Extends C",
        b"c",
        1_000_000,
        b" { }",
    ),
    (
        b"a class's name of half a million words",
        b"Class A.B Extends C",
        b".c",
        500_000,
        b" { }",
    ),
    (
        b"a string of 32,767 bytes",
        b"Class A.B { Property P [ InitialExpression = \"",
        b"s",
        32_767,
        b"\" ]; }",
    ),
    (
        b"a string of 32,768 bytes",
        b"Class A.B { Property P [ InitialExpression = \"",
        b"s",
        32_768,
        b"\" ]; }",
    ),
    (
        b"a string of a million quotes",
        b"Class A.B { Parameter P = \"",
        b"\"\"",
        1_000_000,
        b"\"; }",
    ),
    (
        b"a string left open",
        b"Class A.B { Parameter P = \"",
        b"s",
        1_000_000,
        b"",
    ),
    (b"a comment", b"Class A.B { /*", b" *", 1_000_000, b"/ }"),
    (b"comments", b"Class A.B { ", b"/**/", 500_000, b" }"),
    (b"lines", b"Class A.B {", b"// c\n\r\n", 300_000, b"}"),
    (
        b"a storage block",
        b"Class A.B { Storage S { ",
        b"{ } \" ",
        400_000,
        b"} }",
    ),
    (
        b"a value in brackets",
        b"Class A.B { Parameter P = {",
        b"(\")\")",
        400_000,
        b"}; }",
    ),
    (
        b"open brackets",
        b"Class A.B { Parameter P = ",
        b"{",
        1_000_000,
        b"",
    ),
    (
        b"a body",
        b"Class A.B { Method M() {",
        b"{ } ; }\n",
        300_000,
        b"} }",
    ),
    (
        b"open braces",
        b"Class A.B { Method M() ",
        b"{",
        1_000_000,
        b"",
    ),
    (
        b"superclasses",
        b"Class A.B Extends (C",
        b", C",
        300_000,
        b") { }",
    ),
    (
        b"keywords",
        b"Class A.B [ X",
        b", Not X = 5",
        200_000,
        b" ] { }",
    ),
    (
        b"parameters of a property",
        b"Class A.B { Property P As C(X = 1",
        b", X = 1",
        300_000,
        b"); }",
    ),
    (
        b"parameters",
        b"Class A.B { ",
        b"Parameter P = 1; ",
        200_000,
        b"}",
    ),
    (
        b"storage blocks",
        b"Class A.B { ",
        b"Storage S { } ",
        200_000,
        b"}",
    ),
];

/// Puts three letters that tell the number, which is below 17,576.
fn put_letters(text: &mut Text, number: u32) -> Result<(), NoMemory> {
    text.push(b'A' + ((number / 676) % 26) as u8)?;
    text.push(b'a' + ((number / 26) % 26) as u8)?;
    text.push(b'a' + (number % 26) as u8)
}

fn full_file(alloc: Global, full: Full) -> Result<Text, NoMemory> {
    let (_, front, item, end, times) = full;
    let mut text = Text::from_slice(alloc, front)?;
    for number in 0..times {
        text.push_slice(item)?;
        put_letters(&mut text, number)?;
        text.push_slice(end)?;
    }
    text.push(b'}')?;
    Ok(text)
}

fn long_file(alloc: Global, long: Long) -> Result<Text, NoMemory> {
    let (_, front, item, times, back) = long;
    let mut text = Text::from_slice(alloc, front)?;
    for _ in 0..times {
        text.push_slice(item)?;
    }
    text.push_slice(back)?;
    Ok(text)
}

/// How much there is in classes.
#[derive(Clone, Copy)]
struct Counts {
    supers: u32,
    props: u32,
    indexes: u32,
    methods: u32,
    /// The bytes of initial values, bounds and bodies.
    bytes: u32,
}

fn plus(sum: u32, count: usize) -> u32 {
    match u32::try_from(count) {
        Ok(count) => sum.saturating_add(count),
        Err(_) => u32::MAX,
    }
}

fn plus_given(sum: u32, text: &Option<Text>) -> u32 {
    match text {
        Some(text) => plus(sum, text.len()),
        None => sum,
    }
}

fn prop_bytes(sum: u32, prop: &PropTree) -> u32 {
    plus_given(plus(sum, prop.initial.len()), &prop.max_len)
}

fn count_class(counts: Counts, class: &ClassTree) -> Counts {
    let mut bytes = counts.bytes;
    for prop in class.props.as_slice() {
        bytes = prop_bytes(bytes, prop);
    }
    for method in class.methods.as_slice() {
        bytes = plus(bytes, method.body.len());
    }
    Counts {
        supers: plus(counts.supers, class.supers.len()),
        props: plus(counts.props, class.props.len()),
        indexes: plus(counts.indexes, class.indexes.len()),
        methods: plus(counts.methods, class.methods.len()),
        bytes,
    }
}

fn put_count(out: &mut Text, count: u32, what: &[u8]) -> Result<(), NoMemory> {
    put_number(out, count)?;
    out.push_slice(what)
}

fn show_counts(alloc: Global, text: &[u8], out: &mut Text) -> Result<(), Failure> {
    let Some(classes) = read_or_refuse(alloc, text, out)? else {
        return Ok(());
    };
    let mut counts = Counts {
        supers: 0,
        props: 0,
        indexes: 0,
        methods: 0,
        bytes: 0,
    };
    for class in classes.as_slice() {
        counts = count_class(counts, class);
    }
    out.push_slice(b"    classes ".as_slice())?;
    put_count(out, plus(0, classes.len()), b", superclasses ".as_slice())?;
    put_count(out, counts.supers, b", properties ".as_slice())?;
    put_count(out, counts.props, b", indexes ".as_slice())?;
    put_count(out, counts.indexes, b", methods ".as_slice())?;
    put_count(out, counts.methods, b", bytes ".as_slice())?;
    put_count(out, counts.bytes, b"\n".as_slice())?;
    Ok(())
}

/// Prints what each of the long class files says.
pub fn show_long(alloc: Global, out: &mut Text) -> Result<(), Failure> {
    for full in FULL {
        let text = full_file(alloc, full)?;
        out.push_slice(full.0)?;
        out.push(b'\n')?;
        show_counts(alloc, text.as_slice(), out)?;
    }
    for long in LONG {
        let text = long_file(alloc, long)?;
        out.push_slice(long.0)?;
        out.push(b'\n')?;
        show_counts(alloc, text.as_slice(), out)?;
    }
    Ok(())
}
