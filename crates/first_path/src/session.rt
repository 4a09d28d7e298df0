ghost use Rattle.std.specs.Prelude.{◌≡◌, ◌<◌, List, ℕ, [], replicate, Some, IfOk, OnOk, OnErr, slice_get};

use crate::act::Act;
use obj_kinds::{NoMemory, Text};
use sqlite_items::Items;
use std::alloc::Global;

/// The values of an object's properties, in declared order.
pub type Fields = Items<Text>;

// An object of a session: its values, and the place of its row once it was saved.
#[derive(Debug, Drop)]
pub struct Object {
    fields: Fields,
    row: Option<usize>,
}

/// The objects of one process, and the rows of those that were saved, in the order of first saves.
#[derive(Debug, Drop)]
pub struct Session {
    properties: usize,
    objects: Vec<Object>,
    saved: Items<Fields>,
}

fn copy_fields(alloc: Global, fields: &[Text]) -> Result<Fields, NoMemory>
    ensures { IfOk result (λ copy. copy ≡ fields.now) }
{
    let mut copy = Items::new(alloc);
    for field in fields {
        copy.push(field.copy(alloc)?)?;
    }
    Ok(copy)
}

fn blank_fields(alloc: Global, properties: usize) -> Result<Fields, NoMemory>
    ensures { IfOk result (λ fields. fields ≡ replicate properties []) }
{
    let mut fields = Items::new(alloc);
    for _ in 0..properties {
        fields.push(Text::new(alloc))?;
    }
    Ok(fields)
}

impl Session {
    ghost use Rattle.first_path.specs.declared.act.Act.TheVariants as act;
    ghost use Rattle.first_path.specs.Steps.{CanStep, Steps, Stands};

    // No objects yet, of a class with so many properties.
    pub(crate) fn new(alloc: Global, properties: usize) -> Session
        ensures { Stands properties [] result }
    {
        Session {
            properties,
            objects: Vec::new(alloc),
            saved: Items::new(alloc),
        }
    }

    fn make(&mut self, alloc: Global) -> Result<(), NoMemory>
        ensures { OnOk result (Steps act.Make self.old self.new) }
    {
        let fields = blank_fields(alloc, self.properties)?;
        self.objects.push(Object { fields, row: None })?;
        Ok(())
    }

    fn fill(
        &mut self,
        alloc: Global,
        object: usize,
        place: usize,
        text: &Text,
    ) -> Result<(), NoMemory>
        requires { CanStep (act.Fill object place text.now) self.old }
        ensures { OnOk result (Steps (act.Fill object place text.now) self.old self.new) }
    {
        let text = text.copy(alloc)?;
        let object = &mut self.objects[object];
        object.fields.set(place, text);
        Ok(())
    }

    fn save(&mut self, alloc: Global, object: usize) -> Result<(), NoMemory>
        requires { CanStep (act.Save object) self.old }
        ensures { OnOk result (Steps (act.Save object) self.old self.new) }
    {
        let stands = &self.objects[object];
        let fields = copy_fields(alloc, stands.fields.as_slice())?;
        match stands.row {
            Some(row) => self.saved.set(row, fields),
            None => {
                let row = self.saved.len();
                self.saved.push(fields)?;
                self.objects[object].row = Some(row);
            }
        }
        Ok(())
    }

    // The rows of the saved objects, in the order of first saves.
    pub(crate) fn into_saved(self) -> Items<Fields>
        ensures { result ≡ self.saved }
    {
        self.saved
    }

    // Does what the act says.
    pub(crate) fn step(&mut self, alloc: Global, act: &Act) -> Result<(), NoMemory>
        requires { CanStep act.now self.old }
        ensures { OnOk result (Steps act.now self.old self.new) }
    {
        match act {
            Act::Make => self.make(alloc),
            Act::Fill(object, place, text) => self.fill(alloc, *object, *place, text),
            Act::Save(object) => self.save(alloc, *object),
        }
    }
}
