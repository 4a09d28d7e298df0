use crate::class::{ClassNames, Indexes};
use crate::method::Methods;
use obj_kinds::{ClassName, Text};
use sqlite_items::Items;

/// How a property is declared.
#[derive(Debug, Drop)]
pub enum Form {
    /// `Property P As C`.
    Single,
    /// `Property P As list Of C`.
    List,
    /// `Property P As array Of C`.
    Array,
    /// `Relationship P As C`, with the words of its two keywords where they are given.
    Relation {
        cardinality: Option<Text>,
        inverse: Option<Text>,
    },
}

/// A property or relationship as its class declares it.
#[derive(Debug, Drop)]
pub struct PropTree {
    pub name: Text,
    pub form: Form,
    /// The type: its whole name, `%String` where none is written.
    pub of: ClassName,
    pub required: bool,
    /// What a new object has; empty where nothing is given.
    pub initial: Text,
    /// The number or the text that `MAXLEN` gives, without the quotes of a string; so are the other two.
    pub max_len: Option<Text>,
    pub min_val: Option<Text>,
    pub max_val: Option<Text>,
}

/// The properties and relationships that a class declares, in order.
pub type PropTrees = Items<PropTree>;

/// A class as the class file declares it. Each name of a class is whole: the package of the class in which
/// a name without a dot and without `%` stands is put before it, and `%Library.X` is `%X`.
#[derive(Debug, Drop)]
pub struct ClassTree {
    pub name: ClassName,
    pub supers: ClassNames,
    pub props: PropTrees,
    pub indexes: Indexes,
    pub methods: Methods,
}

/// The classes of one or more class files, in order.
pub type ClassTrees = Items<ClassTree>;
