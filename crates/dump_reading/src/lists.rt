//! The lists that are open while a value is read.

ghost use Rattle.std.specs.Prelude.{◌≡◌, [], ◌∷◌, IfOk, OnOk};
ghost use Rattle.std.specs.Option.{option_copied};
ghost use Rattle.dump_reading.specs.Building as spec;

use obj_kinds::{NoMemory, Value, Values};
use sqlite_items::Items;
use std::alloc::Global;
use std::marker::Model;
use std::mem::replace;

/// The items so far of each list that is open, and around them those of the whole, which are the value when it is read.
/// They are seen as a list of lists, the innermost first.
#[derive(Debug, Drop)]
pub struct Lists {
    outer: Items<Values>,
    items: Values,
}

impl Model for Lists {
    ghost use Rattle.std.specs.Prelude.{List, ◌∷◌, reverse};
    ghost use Rattle.std.specs.Coded.{coded_list};
    ghost use Rattle.obj_kinds.specs.declared.value.Value.{Value as Stored};
    ghost use Rattle.obj_kinds.specs.contracts.value.Value as value;

    ghost Value = { List (List Stored) };

    ghost coded = { coded_list (coded_list (value.the_row).coded) };

    ghost view = { λ l. l.items ∷ reverse l.outer };
}

impl Lists {
    /// No list is open, and no value is read.
    pub fn new(alloc: Global) -> Lists
        ensures { result ≡ [] ∷ [] }
    {
        Lists {
            outer: Items::new(alloc),
            items: Items::new(alloc),
        }
    }

    /// A list begins.
    pub fn open(&mut self, alloc: Global) -> Result<(), NoMemory>
        ensures { OnOk result (self.new ≡ [] ∷ self.old) }
    {
        let around = replace(&mut self.items, Items::new(alloc));
        self.outer.push(around)?;
        Ok(())
    }

    /// A value is read.
    pub fn put(&mut self, value: Value) -> Result<(), NoMemory>
        ensures { OnOk result (self.new ≡ spec.with_value value self.old) }
    {
        self.items.push(value)?;
        Ok(())
    }

    /// The innermost list ends, and is a value itself.
    pub fn close(&mut self) -> Result<(), NoMemory>
        ensures { OnOk result (self.new ≡ spec.closed self.old) }
    {
        if let Some(around) = self.outer.pop() {
            let list = replace(&mut self.items, around);
            self.items.push(Value::List(list))?;
        }
        Ok(())
    }

    /// Whether no more list may be opened, since as many are open as may stand in one another.
    pub fn is_full(&self) -> bool
        ensures { result ≡ spec.is_full self.now }
    {
        self.outer.len() >= Value::MAX_DEPTH as usize
    }

    /// The value, where one is read and no list is open.
    pub fn into_value(self) -> Option<Value>
        ensures { result ≡ spec.whole_value self }
    {
        let Lists { outer, items } = self;
        if !outer.is_empty() {
            return None;
        }
        let mut items = items;
        let last = items.pop();
        if !items.is_empty() {
            return None;
        }
        last
    }
}
