ghost use Rattle.std.specs.Prelude.{◌≡◌, ◌+◌, ◌≤◌, ◌<◌, ◌^◌, List, [], IfOk, IfErr, OnOk, length, vec_len};
ghost use Rattle.first_class.specs.TextClasses.{IsTextClass};
ghost use Rattle.first_path.specs.World.{AreKnown};
ghost use Rattle.first_path.specs.Lines.{Line};
ghost use Rattle.first_path.specs.Script.{IsScript};
ghost use Rattle.host_top.specs.Texts.{Declares, CanLink, IsUnderstood, max_file_len};
ghost use Rattle.host_top.specs.Refusals.{IsTextRefused, IsFormRefused, AreRefused, IsScriptRefused, IsJobRefused};

use crate::refusal::Refusal;
use crate::texts::Texts;
use class_link::{LinkError, link};
use class_reader::{ReadError, read_classes};
use first_class::{FormError, TextClass, text_class_of};
use first_path::{Act, MAX_LINES, read_script};
use schema_kinds::{ClassTree, ClassTrees};
use sqlite_items::Items;
use std::alloc::Global;

/// A class, and what a script for it does.
#[derive(Debug, Drop)]
pub(crate) struct Job {
    pub class: TextClass,
    pub acts: Items<Act>,
}

// The classes that the class file of this name says.
fn declared_classes<'a>(
    alloc: Global,
    name: &'a str,
    text: &[u8],
) -> Result<ClassTrees, Refusal<'a>>
    requires { length text.now + 1 < 2 ^ 32 }
    ensures said { IfOk result (Declares text.now) }
    ensures refused { IfErr result (IsTextRefused name.now text.now) }
{
    match read_classes(alloc, text) {
        Ok(trees) => Ok(trees),
        Err(ReadError::BadClass { line, column, why }) => Err(Refusal::BadClass {
            name,
            line,
            column,
            why,
        }),
        Err(ReadError::NoMemory) => Err(Refusal::Memory),
    }
}

// Whether the classes link.
fn check_links(alloc: Global, trees: ClassTrees) -> Result<(), Refusal<'static>>
    ensures links { OnOk result (CanLink trees) }
    ensures refused { IfErr result (AreRefused trees) }
{
    match link(alloc, trees) {
        Ok(_) => Ok(()),
        Err(LinkError::BadLink { class, why }) => Err(Refusal::BadLink { class, why }),
        Err(LinkError::NoMemory) => Err(Refusal::Memory),
    }
}

// The one class of text properties that the classes are, whether they link or not.
fn class_of(alloc: Global, trees: &[ClassTree]) -> Result<TextClass, Refusal<'static>>
    ensures class { IfOk result (IsTextClass trees.now) }
    ensures refused { IfErr result (IsFormRefused trees.now) }
{
    match text_class_of(alloc, trees) {
        Ok(class) => Ok(class),
        Err(FormError::NotInForm) => Err(Refusal::BadForm),
        Err(FormError::NoMemory) => Err(Refusal::Memory),
    }
}

// The one class of text properties that the classes are. That they don't link comes first.
fn only_class(alloc: Global, trees: ClassTrees) -> Result<TextClass, Refusal<'static>>
    ensures links { OnOk result (CanLink trees) }
    ensures class { IfOk result (IsTextClass trees) }
    ensures refused { IfErr result (AreRefused trees) }
{
    let class = class_of(alloc, trees.as_slice());
    check_links(alloc, trees)?;
    class
}

// What the script does with objects of the class.
fn acts_of(alloc: Global, class: &TextClass, text: &[u8]) -> Result<Items<Act>, Refusal<'static>>
    ensures found { IfOk result (λ acts. (lines : List Line) × IsScript class.now.name.0 class.now.props text.now lines acts) }
    ensures few { IfOk result (λ acts. length acts ≤ MAX_LINES) }
    ensures known { IfOk result (λ acts. AreKnown (length class.now.props) [] acts) }
    ensures refused { IfErr result (IsScriptRefused class.now text.now) }
{
    match read_script(alloc, class, text) {
        Ok(acts) => Ok(acts),
        Err(FormError::NotInForm) => Err(Refusal::BadForm),
        Err(FormError::NoMemory) => Err(Refusal::Memory),
    }
}

/// The class and the acts that the texts have the forms of.
pub(crate) fn understand<'a>(alloc: Global, texts: &Texts<'a>) -> Result<Job, Refusal<'a>>
    requires { vec_len texts.now.class ≤ max_file_len }
    ensures found { IfOk result (λ job. (lines : List Line) × IsUnderstood texts.now.class.items texts.now.script.items job.class lines job.acts) }
    ensures few { IfOk result (λ job. length job.acts ≤ MAX_LINES) }
    ensures known { IfOk result (λ job. AreKnown (length job.class.props) [] job.acts) }
    ensures refused { IfErr result (IsJobRefused texts.now.names.class.now texts.now.class.items texts.now.script.items) }
{
    let trees = declared_classes(alloc, texts.names.class, texts.class.as_slice())?;
    let class = only_class(alloc, trees)?;
    let acts = acts_of(alloc, &class, texts.script.as_slice())?;
    Ok(Job { class, acts })
}
