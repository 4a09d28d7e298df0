ghost use Rattle.std.specs.Prelude.{◌≡◌, ◌++◌, IfOk, OnOk};
ghost use Rattle.std.specs.Fmt.{decimal};
ghost use Rattle.host_top.specs.Refusals.{message_of, place_message, class_message, status_of};

use crate::whys::{class_why_text, link_why_text};
use class_link::LinkWhy;
use class_reader::ClassWhy;
use first_class::FormError;
use itoa::Buffer;
use obj_kinds::{ClassName, NoMemory, Text};
use std::alloc::Global;

/// Why a run is refused before its process starts.
#[derive(Debug, Drop)]
pub enum Refusal<'a> {
    /// The words aren't those of a run.
    BadWords,
    /// The file of this name has more bytes than a file may have.
    TooLong(&'a str),
    /// The file of this name could not be read.
    NotRead(&'a str),
    /// The class file of this name isn't in its grammar: the place, counted from 1 with columns in bytes.
    BadClass {
        name: &'a str,
        line: u32,
        column: u32,
        why: ClassWhy,
    },
    /// The class of this name can't be linked.
    BadLink {
        class: ClassName,
        why: LinkWhy,
    },
    /// The classes and the script aren't in the forms that are built.
    BadForm,
    /// Memory ran out.
    Memory,
}

const USAGE: &str =
    "usage: objstep run [--load FILE] [--schedule FILE] [--fuel N] [--tries N] [--volume N] [--order] FILE...\n";

fn about_file(alloc: Global, name: &str, what: &str) -> Result<Text, NoMemory>
    ensures { IfOk result (λ text. text ≡ name.now ++ what.now) }
{
    let mut text = Text::from_slice(alloc, name.as_bytes())?;
    text.push_slice(what.as_bytes())?;
    Ok(text)
}

fn push_number(text: &mut Text, number: u32) -> Result<(), NoMemory>
    ensures { OnOk result (text.new ≡ text.old ++ decimal number) }
{
    let mut buffer = Buffer::new();
    text.push_slice(buffer.format(number).as_bytes())
}

fn about_place(
    alloc: Global,
    name: &str,
    line: u32,
    column: u32,
    why: ClassWhy,
) -> Result<Text, NoMemory>
    ensures { IfOk result (λ text. text ≡ place_message name.now line column why) }
{
    let mut text = Text::from_slice(alloc, name.as_bytes())?;
    text.push_slice(b":")?;
    push_number(&mut text, line)?;
    text.push_slice(b":")?;
    push_number(&mut text, column)?;
    text.push_slice(b": ")?;
    text.push_slice(class_why_text(why))?;
    text.push_slice(b"\n")?;
    Ok(text)
}

fn about_class(alloc: Global, class: &ClassName, why: LinkWhy) -> Result<Text, NoMemory>
    ensures { IfOk result (λ text. text ≡ class_message class.now why) }
{
    let mut text = Text::from_slice(alloc, b"class ")?;
    text.push_slice(class.0.as_slice())?;
    text.push_slice(b": ")?;
    text.push_slice(link_why_text(why))?;
    text.push_slice(b"\n")?;
    Ok(text)
}

impl Refusal<'_> {
    /// The exit status of a run that is refused so.
    pub(crate) fn status(&self) -> u8
        ensures { result ≡ status_of self.now }
    {
        match self {
            Refusal::BadWords => 7,
            Refusal::TooLong(_) => 2,
            Refusal::NotRead(_) => 4,
            Refusal::BadClass { .. } => 2,
            Refusal::BadLink { .. } => 2,
            Refusal::BadForm => 8,
            Refusal::Memory => 3,
        }
    }

    /// What is put into the sink.
    pub(crate) fn message(&self, alloc: Global) -> Result<Text, NoMemory>
        ensures { IfOk result (λ text. text ≡ message_of self.now) }
    {
        match self {
            Refusal::BadWords => Text::from_slice(alloc, USAGE.as_bytes()),
            Refusal::TooLong(name) => about_file(alloc, name, ": too long\n"),
            Refusal::NotRead(name) => about_file(alloc, name, ": not read\n"),
            Refusal::BadClass {
                name,
                line,
                column,
                why,
            } => about_place(alloc, name, *line, *column, *why),
            Refusal::BadLink { class, why } => about_class(alloc, class, *why),
            Refusal::BadForm => Text::from_slice(alloc, b"not built\n"),
            Refusal::Memory => Ok(Text::new(alloc)),
        }
    }
}
