ghost use Rattle.std.specs.Prelude.{ℕ, IsOk, ◌≡◌, ◌+◌, ◌<◌, ◌≤◌, ◌^◌, ◌↔◌, ◌++◌, ◌∷◌, [], List, Option, Some, None, insert, length, slice_get, slice_set, IfSome, IfNone, IfOk, IfErr, OnOk, OnErr, IsErr, IsSome};
ghost use Rattle.std.specs.List.{AllByRecursion};
ghost use Rattle.std.specs.Option.{option_copied, option_map};
ghost use Rattle.obj_kinds.specs.declared.memory.Lack.TheVariants.{Count};
ghost use Rattle.oref_table.specs.declared.fill.Place.TheVariants.{Slot as AtSlot};
ghost use Rattle.oref_table.specs.declared.obj.Entry.{Entry};
ghost use Rattle.oref_table.specs.declared.oref.Oref.{Oref};
ghost use Rattle.oref_table.specs.declared.slot.Slot.{Slot};
ghost use Rattle.oref_table.specs.declared.slot.Slot.TheVariants.{Items, Members};
ghost use Rattle.oref_table.specs.Entries.{HasHolder, is_entry, is_uncounted, lowered, raised, with_entry_id, with_entry_level, with_entry_mark, with_entry_slot, IsEntryKey};
ghost use Rattle.oref_table.specs.Filling.{is_member};
ghost use Rattle.oref_table.specs.Making.{entry_of_new, new_entries};
ghost use Rattle.oref_table.specs.declared.obj.NewObj.{NewObj};
ghost use Rattle.oref_table.specs.Memory.{at_first, first_that, without_first};
ghost use Rattle.oref_table.specs.Places.{IsAmong, Takes};
ghost use Rattle.oref_table.specs.Exchanges.{FillsFirst, InsertsFirst, DropsFirst, HasItemsAt, HasMembersAt};
ghost use Rattle.oref_table.specs.Refs.{refs_of};
ghost use Rattle.oref_table.specs.Indexed.{extent_in};

use crate::edits;
use crate::fill::{Fill, Place};
use crate::keys::Keys;
use crate::obj::{Entry, NewObj, NewObjs, Obj};
use crate::rows::{ByNumber, Waiting, await_release, count_off, take_first};
use crate::slot::Slot;
use obj_kinds::{ClassName, Id, Lack, NoMemory};
use std::alloc::Global;
use std::collections::{BTreeMap, BinaryHeap};
use std::marker::Model;

/// The objects of a table with their counts, seen in rising order of their numbers. What comes to have no holder is
/// noted for release, in room that was taken when it was added; so is the room for its key.
#[derive(Drop)]
pub struct Objects {
    rows: ByNumber,
    waiting: Waiting,
    keys: Keys,
}

impl Model for Objects {
    ghost use Rattle.std.specs.Prelude.{List};
    ghost use Rattle.std.specs.Coded.{coded_list};
    ghost use Rattle.std.specs.BinaryHeap.{heap_items, heap_len, heap_capacity};
    ghost use Rattle.oref_table.specs.contracts.obj.Entry as entry;
    ghost use Rattle.oref_table.specs.declared.obj.Entry.{Entry};
    ghost use Rattle.oref_table.specs.Rows.{AreRows, entries_in};
    ghost use Rattle.oref_table.specs.Indexed.{IsIndexedBy};

    ghost Value = { List Entry };

    ghost coded = { coded_list (entry.the_row).coded };

    ghost view = { λ o. entries_in o.rows.entries };

    ghost invariant = { λ o. AreRows o.rows.entries (heap_items o.waiting) (heap_len o.waiting) (heap_capacity o.waiting) × IsIndexedBy (entries_in o.rows.entries) o.keys };
}

fn extent_of(obj: Option<&Obj>) -> Option<&ClassName>
    ensures { option_copied result ≡ extent_in (option_copied obj.entry) }
{
    obj?.extent.as_ref()
}

impl Objects {
    /// None. It takes no memory.
    pub fn new(alloc: Global) -> Objects
        ensures { result ≡ [] }
    {
        Objects {
            rows: BTreeMap::new(alloc),
            waiting: BinaryHeap::new(alloc),
            keys: Keys::new(alloc),
        }
    }

    /// How many there are.
    pub fn len(&self) -> usize
        ensures value { result ≡ length self.now }
        ensures small { result < 2 ^ 63 }
    {
        self.rows.len()
    }

    /// The object of the number. It looks at as many as the logarithm of their number.
    pub fn get(&self, number: u64) -> Option<&Obj>
        ensures { option_copied result ≡ option_map (λ e. e.obj) (first_that (is_entry number) self.now) }
    {
        self.rows.get(&number)
    }

    /// Adds an object behind the others, with the room to note it and for its key; for want of memory nothing changes.
    pub fn add(&mut self, alloc: Global, number: u64, obj: Obj) -> Result<(), NoMemory>
        requires above { AllByRecursion (λ e. e.number < number) self.old }
        requires free { (x : ClassName) (i : Id) → obj.extent ≡ Some x → obj.id ≡ Some i → AllByRecursion (λ e. ¬ IsEntryKey x i e) self.old }
        requires held { 0 < obj.count }
        ensures ok { OnOk result (self.new ≡ self.old ++ record { number = number; obj = obj } ∷ []) }
        ensures err { OnErr result (self.new ≡ self.old) }
    {
        self.waiting.reserve(self.rows.len() + 1)?;
        self.keys
            .make_room(alloc, obj.extent.as_ref(), self.rows.len())?;
        let spot = self.keys.spot(obj.extent.as_ref(), obj.id);
        self.rows.insert(number, obj)?;
        self.keys.put(spot, number);
        Ok(())
    }

    /// Adds an object of the number behind the others, with one holder; for want of memory nothing changes.
    fn add_new(&mut self, alloc: Global, number: u64, new: NewObj) -> Result<(), NoMemory>
        requires { AllByRecursion (λ e. e.number < number) self.old }
        ensures ok { OnOk result (self.new ≡ self.old ++ entry_of_new number new ∷ []) }
        ensures err { OnErr result (self.new ≡ self.old) }
    {
        let obj = Obj {
            class: new.class,
            extent: new.extent,
            id: None,
            level: new.level,
            modified: false,
            slots: new.slots,
            count: 1,
        };
        self.add(alloc, number, obj)
    }

    // Takes the last object out again, which has one holder, where each of the others has one.
    fn take_last(&mut self, number: u64)
        ensures { (es : List Entry) (n : NewObj) → self.old ≡ es ++ entry_of_new number n ∷ [] → AllByRecursion HasHolder es → AllByRecursion (λ e. e.number < number) es → self.new ≡ es }
    {
        self.lower(number);
        let _ = self.take_unheld();
    }

    // Takes the objects behind the last number out again.
    fn take_back(&mut self, last: u64, number: u64)
        ensures { (es : List Entry) (news : List NewObj) → self.old ≡ es ++ new_entries last news → number ≡ last + length news → AllByRecursion HasHolder es → AllByRecursion (λ e. e.number < last + 1) es → self.new ≡ es }
    {
        let mut left = number;
        while left > last {
            self.take_last(left);
            left -= 1;
        }
    }

    /// Adds objects behind the others, with the numbers behind the last one and one holder each; for want of memory
    /// nothing changes.
    pub fn add_all(&mut self, alloc: Global, last: u64, news: NewObjs) -> Result<(), NoMemory>
        requires above { AllByRecursion (λ e. e.number < last + 1) self.old }
        requires held { AllByRecursion HasHolder self.old }
        requires room { last + length news.items < 2 ^ 64 }
        ensures ok { OnOk result (self.new ≡ self.old ++ new_entries last news.items) }
        ensures err { OnErr result (self.new ≡ self.old) }
    {
        let mut number = last;
        for new in news {
            match self.add_new(alloc, number + 1, new) {
                Ok(()) => number += 1,
                Err(NoMemory) => {
                    self.take_back(last, number);
                    return Err(NoMemory);
                }
            }
        }
        Ok(())
    }

    /// Counts one holder less of the object with the number, if there is one. It takes no memory.
    pub fn lower(&mut self, number: u64)
        ensures { self.new ≡ lowered (number ∷ []) self.old }
    {
        if count_off(&mut self.rows, number) {
            await_release(&mut self.waiting, number);
        }
    }

    /// Takes the object of least number that nothing holds out. It takes no memory.
    pub fn take_unheld(&mut self) -> Option<Entry>
        ensures some { IfSome result (λ e. (first_that is_uncounted self.old ≡ Some e) × (self.new ≡ without_first is_uncounted self.old)) }
        ensures none { IfNone result ((self.new ≡ self.old) × (first_that is_uncounted self.old ≡ None)) }
    {
        let entry = take_first(&mut self.rows, &mut self.waiting)?;
        let spot = self.keys.spot(entry.obj.extent.as_ref(), entry.obj.id);
        self.keys.forget(spot);
        Some(entry)
    }

    /// Gives the object an id. It takes no memory.
    pub fn set_id(&mut self, number: u64, id: Id)
        requires { (e : Entry) × (x : ClassName) × (first_that (is_entry number) self.old ≡ Some e) × (e.obj.extent ≡ Some x) × (e.obj.id ≡ None) × AllByRecursion (λ o. ¬ IsEntryKey x id o) self.old }
        ensures { self.new ≡ at_first (is_entry number) (with_entry_id id) self.old }
    {
        let spot = self.keys.spot(extent_of(self.rows.get(&number)), Some(id));
        self.keys.put(spot, number);
        edits::set_id(&mut self.rows, number, id);
    }

    /// Notes the level of the object. It takes no memory.
    pub fn set_level(&mut self, number: u64, level: u8)
        ensures { self.new ≡ at_first (is_entry number) (with_entry_level level) self.old }
    {
        edits::set_level(&mut self.rows, number, level);
    }

    /// Marks the object as modified, or takes the mark away. It takes no memory.
    pub fn set_modified(&mut self, number: u64, modified: bool)
        ensures { self.new ≡ at_first (is_entry number) (with_entry_mark modified) self.old }
    {
        edits::set_modified(&mut self.rows, number, modified);
    }

    /// Counts one holder more of the object. It takes no memory: `Count` where the object has 2^64 - 1 holders already.
    pub fn raise(&mut self, number: u64) -> Result<(), Lack>
        requires { AllByRecursion HasHolder self.old }
        ensures ok { OnOk result (self.new ≡ at_first (is_entry number) raised self.old) }
        ensures err { IfErr result (λ e. (e ≡ Count) × (self.new ≡ self.old)) }
        ensures count { (e : Entry) → first_that (is_entry number) self.old ≡ Some e → IsErr result ↔ (2 ^ 64 ≤ e.obj.count + 1) }
    {
        edits::raise(&mut self.rows, number)
    }

    /// Fills the place of the object, and answers what is given up; for want of memory what was to stand there comes
    /// back, and nothing changes.
    pub fn fill(&mut self, alloc: Global, number: u64, at: &Place, with: Fill) -> Result<Slot, Fill>
        requires { (e : Entry) × (first_that (is_entry number) self.old ≡ Some e) × Takes at.now with e.obj.slots }
        ensures ok { IfOk result (λ out. FillsFirst at.now with number self.old self.new (refs_of out)) }
        ensures err { IfErr result (λ back. (back ≡ with) × (self.new ≡ self.old)) }
        ensures slot { (s : ℕ) → at.now ≡ AtSlot s → IsOk result }
        ensures there { (e : Entry) → first_that (is_entry number) self.old ≡ Some e → IsAmong at.now e.obj.slots → IsOk result }
    {
        edits::fill(alloc, &mut self.rows, number, at, with)
    }

    /// Adds an item before the place to the list in the slot of the object, or hands it back, and then nothing changes.
    pub fn insert_item(&mut self, number: u64, at: usize, before: usize, item: Slot) -> Option<Slot>
        requires { (e : Entry) × (first_that (is_entry number) self.old ≡ Some e) × HasItemsAt at before e.obj.slots }
        ensures added { result ≡ None → InsertsFirst number at before item self.old self.new }
        ensures refused { (back : Slot) → result ≡ Some back → (back ≡ item) × (self.new ≡ self.old) }
    {
        edits::insert_item(&mut self.rows, number, at, before, item)
    }

    /// Takes the member out of the slot of the object. It takes no memory.
    pub fn drop_member(&mut self, number: u64, at: usize, member: u64)
        requires { (e : Entry) × (first_that (is_entry number) self.old ≡ Some e) × HasMembersAt at e.obj.slots }
        ensures { DropsFirst number at member self.old self.new }
    {
        edits::drop_member(&mut self.rows, number, at, member);
    }

    /// The number of the object with this id in this extent. It looks at no other object.
    pub fn find_key(&self, extent: &ClassName, id: Id) -> Option<u64>
        ensures found { IfSome result (λ n. (e : Entry) × (first_that (is_entry n) self.now ≡ Some e) × IsEntryKey extent.now id e) }
        ensures none { IfNone result (AllByRecursion (λ e. ¬ IsEntryKey extent.now id e) self.now) }
    {
        self.keys.find(extent, id)
    }
}
