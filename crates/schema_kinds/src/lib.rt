//! What a class file declares, what it means as a schema, and the form of the records of its objects.
#![tactic(auto)]

mod class;
mod globals;
mod hierarchy;
mod key;
mod kind;
mod links;
mod method;
mod names;
mod prop;
mod record;
mod schema;
mod tree;

pub use class::{
    Class, ClassNames, Classes, Index, Indexes, Sort, Texts, copy_class_names, copy_indexes,
    copy_texts,
};
pub use hierarchy::{Header, Headers, Hierarchy, begins_with_percent, find_first};
pub use key::Key;
pub use kind::{Item, Kind};
pub use links::{Links, Marks, is_marked, marks_above};
pub use method::{Arg, ArgDecls, Method, Methods, copy_methods};
pub use names::NameTable;
pub use prop::{Prop, Props, copy_props};
pub use record::{
    Change, Field, FieldPairs, Fields, Part, Record, copy_change, copy_field_pairs, copy_fields,
};
pub use schema::{Schema, short_name_of};
pub use tree::{ClassTree, ClassTrees, Form, PropTree, PropTrees};
