ghost use Rattle.std.specs.Prelude.{◌≡◌, IfOk};

use crate::method::Methods;
use crate::prop::Props;
use obj_kinds::{ClassName, NoMemory, Text};
use sqlite_items::Items;
use std::alloc::Global;

/// What becomes of the objects of a class.
#[derive(Clone, Copy, Debug, PartialEq, Eq)]
pub enum Sort {
    /// They are stored and have an id: the class is below `%Persistent`.
    Persistent,
    /// They are stored inside other objects alone: the class is below `%SerialObject`.
    Serial,
    /// They live in memory alone: the class is below `%RegisteredObject`.
    Registered,
    /// There are none: the class has no such superclass, and has class methods alone.
    Plain,
}

/// Names of properties, in order.
pub type Texts = Items<Text>;

/// Names of classes, in order.
pub type ClassNames = Items<ClassName>;

/// An index over properties of the objects of a class.
#[derive(Debug, Drop)]
pub struct Index {
    pub name: Text,
    /// The names of its properties, in the order of the key.
    pub props: Texts,
    /// Whether no two objects of the extent may have the same key.
    pub unique: bool,
}

/// The indexes of a class, in order.
pub type Indexes = Items<Index>;

/// A class with all that it has, inherited or its own.
#[derive(Debug, Drop)]
pub struct Class {
    pub name: ClassName,
    pub sort: Sort,
    /// Its superclasses as written, in order.
    pub supers: ClassNames,
    /// All its properties, the inherited ones first.
    pub props: Props,
    /// All its indexes, the inherited ones first.
    pub indexes: Indexes,
    /// The methods that it declares itself.
    pub methods: Methods,
}

/// The classes of a schema, in the order of the files.
pub type Classes = Items<Class>;

impl Index {
    /// The same again; it fails only for want of memory.
    pub fn copy(&self, alloc: Global) -> Result<Index, NoMemory>
        ensures { IfOk result (λ index. index ≡ self.now) }
    {
        let name = self.name.copy(alloc)?;
        let props = copy_texts(alloc, self.props.as_slice())?;
        Ok(Index {
            name,
            props,
            unique: self.unique,
        })
    }
}

/// The same texts again; it fails only for want of memory.
pub fn copy_texts(alloc: Global, texts: &[Text]) -> Result<Texts, NoMemory>
    ensures { IfOk result (λ copy. copy ≡ texts.now) }
{
    let mut copy = Items::new(alloc);
    for text in texts {
        copy.push(text.copy(alloc)?)?;
    }
    Ok(copy)
}

/// The same names again; it fails only for want of memory.
pub fn copy_class_names(alloc: Global, names: &[ClassName]) -> Result<ClassNames, NoMemory>
    ensures { IfOk result (λ copy. copy ≡ names.now) }
{
    let mut copy = Items::new(alloc);
    for name in names {
        copy.push(name.copy(alloc)?)?;
    }
    Ok(copy)
}

/// The same indexes again; it fails only for want of memory.
pub fn copy_indexes(alloc: Global, indexes: &[Index]) -> Result<Indexes, NoMemory>
    ensures { IfOk result (λ copy. copy ≡ indexes.now) }
{
    let mut copy = Items::new(alloc);
    for index in indexes {
        copy.push(index.copy(alloc)?)?;
    }
    Ok(copy)
}
