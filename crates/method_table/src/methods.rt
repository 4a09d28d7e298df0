//! All methods of a schema.

ghost use Rattle.std.specs.Prelude.{◌≡◌, IfOk};
ghost use Rattle.method_table.specs.Places.{method_place};
ghost use Rattle.method_table.specs.Tables.{IsTableOf};

use crate::gather::gather_all;
use crate::table::{MethodPlace, PlaceTable};
use obj_kinds::{ClassName, NoMemory, Text};
use schema_kinds::Schema;
use sqlite_items::Items;
use std::alloc::Global;

/// The methods of each class of a schema, those that it inherits among them.
#[derive(Drop)]
pub struct MethodTable {
    tables: Items<PlaceTable>,
}

impl MethodTable {
    /// The methods of this schema. It fails only for want of memory.
    pub fn new(alloc: Global, schema: &Schema) -> Result<MethodTable, NoMemory>
        ensures { IfOk result (IsTableOf schema.now) }
    {
        let tables = gather_all(alloc, schema)?;
        Ok(MethodTable { tables })
    }

    /// Where the method is declared that a class of the schema has by a name: by the class itself, or else by the first of its
    /// superclasses, from left to right, that has one. It takes no memory, and no walk over classes.
    pub fn find(&self, schema: &Schema, class: &ClassName, name: &Text) -> Option<MethodPlace>
        requires { IsTableOf schema.now self.now }
        ensures { result ≡ method_place schema.now class.now name.now }
    {
        match schema.place(class) {
            Some(at) => match self.tables.get(at) {
                Some(table) => table.find(name),
                None => None,
            },
            None => None,
        }
    }
}
