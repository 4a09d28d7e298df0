ghost use Rattle.std.specs.Prelude.{◌≡◌, [], IfOk, IfErr, IfSome, IfNone, OnErr, Some, None, MatchOption};
ghost use Rattle.std.specs.Option.{option_copied};
ghost use Rattle.os_meaning.specs.Frames.{value_in, with_var, without_var};
ghost use Rattle.os_machine.specs.Variables.{last_object};

use indexmap::IndexMap;
use obj_kinds::Text;
use os_kinds::Val;
use std::alloc::Global;
use std::marker::Model;
use std::mem;

/// The variables of a frame, each name once, in the order in which they were first set. A name is found by its hash.
#[derive(Drop)]
pub struct Variables {
    values: IndexMap<Text, Val>,
}

impl Model for Variables {
    ghost use Rattle.std.specs.Prelude.{List};
    ghost use Rattle.os_meaning.specs.Frames.{Var};
    ghost use Rattle.os_machine.specs.Variables.{vars_of, vars_code};

    ghost Value = { List Var };

    ghost coded = { vars_code };

    ghost view = { λ v. vars_of v.values.entries };
}

fn replace(slot: &mut Val, value: Val) -> Val
    ensures value { slot.new ≡ value }
    ensures old { result ≡ slot.old }
{
    mem::replace(slot, value)
}

impl Variables {
    /// No variable. It takes no memory yet.
    pub fn new(alloc: Global) -> Variables
        ensures { result ≡ [] }
    {
        Variables {
            values: IndexMap::new(alloc),
        }
    }

    /// The value of a variable.
    pub fn value(&self, name: &Text) -> Option<&Val>
        ensures { option_copied result ≡ value_in name.now self.now }
    {
        self.values.get(name)
    }

    /// Gives a variable a value, and answers the value that it had; for want of memory nothing is changed, and the value is
    /// handed back.
    pub fn set(&mut self, alloc: Global, name: &Text, value: Val) -> Result<Option<Val>, Val>
        ensures ok { IfOk result (λ old. (old ≡ value_in name.now self.old) × (self.new ≡ with_var name.now value self.old)) }
        ensures err { OnErr result (self.new ≡ self.old) }
        ensures back { IfErr result (λ v. v ≡ value) }
    {
        match self.values.get_mut(name) {
            Some(slot) => Ok(Some(replace(slot, value))),
            None => self.add(alloc, name, value),
        }
    }

    fn add(&mut self, alloc: Global, name: &Text, value: Val) -> Result<Option<Val>, Val>
        ensures ok { IfOk result (λ old. (old ≡ value_in name.now self.old) × (self.new ≡ with_var name.now value self.old)) }
        ensures err { OnErr result (self.new ≡ self.old) }
        ensures back { IfErr result (λ v. v ≡ value) }
    {
        match name.copy(alloc) {
            Err(_) => Err(value),
            Ok(key) => match self.values.insert(key, value) {
                Ok(old) => Ok(old),
                Err(failed) => {
                    let (_, value) = failed.value;
                    Err(value)
                }
            },
        }
    }

    /// Takes a variable away, and answers the value that it had.
    pub fn remove(&mut self, name: &Text) -> Option<Val>
        ensures value { result ≡ value_in name.now self.old }
        ensures rest { self.new ≡ without_var name.now self.old }
    {
        self.values.shift_remove(name)
    }

    /// Takes the variables away that were set last, up to one with an object, and answers the number of this object; where none has
    /// an object, all of them.
    pub(crate) fn drop_object(&mut self) -> Option<u64>
        ensures { MatchOption result ((last_object self.old ≡ None) × (self.new ≡ [])) (λ number. last_object self.old ≡ Some (number, self.new)) }
    {
        'variables: while let Some((_, value)) = self.values.pop() {
            if let Val::Ref { number, .. } = value {
                return Some(number);
            }
        }
        None
    }
}
