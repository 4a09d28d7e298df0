//! Methods are gathered: those that a class declares, and then those of its superclasses, from left to right, as far as they are known.

ghost use Rattle.std.specs.Prelude.{◌≡◌, ◌++◌, ◌+◌, [], suc, length, IfOk, OnOk};
ghost use Rattle.schema_kinds.specs.Classes.{class_names};
ghost use Rattle.method_table.specs.Places.{own_places, put_all, put_above, gathered, round_from, round, rounds, put_super};

use crate::table::{MethodPlace, PlaceTable, are_same};
use obj_kinds::{ClassName, NoMemory};
use schema_kinds::{Class, Method, Schema};
use sqlite_items::Items;
use std::alloc::Global;

fn put_own(
    alloc: Global,
    table: &mut PlaceTable,
    class: usize,
    methods: &[Method],
) -> Result<(), NoMemory>
    ensures { OnOk result (table.new ≡ put_all table.old (own_places class 0 methods.now)) }
{
    let mut at = 0;
    for method in methods {
        table.put(alloc, &method.name, MethodPlace { class, method: at })?;
        at += 1;
    }
    Ok(())
}

fn put_super(
    alloc: Global,
    schema: &Schema,
    tables: &[PlaceTable],
    name: &ClassName,
    table: &mut PlaceTable,
) -> Result<(), NoMemory>
    ensures { OnOk result (table.new ≡ put_super (class_names schema.now) tables.now table.old name.now) }
{
    match schema.place(name) {
        Some(class) => match tables.get(class) {
            Some(other) => table.put_all(alloc, other),
            None => Ok(()),
        },
        None => Ok(()),
    }
}

fn put_above(
    alloc: Global,
    schema: &Schema,
    tables: &[PlaceTable],
    supers: &[ClassName],
    table: &mut PlaceTable,
) -> Result<(), NoMemory>
    ensures { OnOk result (table.new ≡ put_above (class_names schema.now) tables.now table.old supers.now) }
{
    for name in supers {
        put_super(alloc, schema, tables, name, table)?;
    }
    Ok(())
}

fn gather(
    alloc: Global,
    schema: &Schema,
    tables: &[PlaceTable],
    at: usize,
    class: &Class,
) -> Result<PlaceTable, NoMemory>
    ensures { IfOk result (λ table. table ≡ gathered (class_names schema.now) tables.now at class.now) }
{
    let mut table = PlaceTable::new(alloc);
    put_own(alloc, &mut table, at, class.methods.as_slice())?;
    put_above(alloc, schema, tables, class.supers.as_slice(), &mut table)?;
    Ok(table)
}

/// All classes once, from what was known of each before.
fn gather_round(
    alloc: Global,
    schema: &Schema,
    tables: &[PlaceTable],
) -> Result<Items<PlaceTable>, NoMemory>
    ensures { IfOk result (λ next. next ≡ round schema.now tables.now) }
{
    let mut next = Items::new(alloc);
    let mut at = 0;
    for class in schema.classes().as_slice() {
        next.push(gather(alloc, schema, tables, at, class)?)?;
        at += 1;
    }
    Ok(next)
}

/// The methods of each class, with all that it inherits. Rounds are made until one changes nothing: no more than the longest chain of
/// superclasses has, and one to see it.
pub(crate) fn gather_all(alloc: Global, schema: &Schema) -> Result<Items<PlaceTable>, NoMemory>
    ensures { IfOk result (λ tables. tables ≡ rounds schema.now (suc (length schema.now))) }
{
    let classes = schema.classes().as_slice();
    let mut tables = Items::new(alloc);
    for _made in 0..classes.len() + 1 {
        let next = gather_round(alloc, schema, tables.as_slice())?;
        if are_same(next.as_slice(), tables.as_slice()) {
            return Ok(next);
        }
        tables = next;
    }
    Ok(tables)
}
