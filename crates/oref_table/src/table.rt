ghost use Rattle.std.specs.Prelude.{ℕ, IsOk, ◌≡◌, ◌≢◌, ◌+◌, ◌-◌, ◌<◌, ◌≤◌, ◌^◌, ◌↔◌, [], ◌∷◌, length, IfOk, OnOk, IfErr, OnErr, IsErr, IfSome, IfNone, IsSomeAnd};
ghost use Rattle.std.specs.List.{AllByRecursion};
ghost use Rattle.std.specs.Option.{option_copied, option_map};
ghost use Rattle.obj_kinds.specs.declared.name.ClassName.{ClassName};
ghost use Rattle.obj_kinds.specs.declared.id.Id.{Id};
ghost use Rattle.obj_kinds.specs.declared.memory.Lack.TheVariants.{Count};
ghost use Rattle.oref_table.specs.Refs.{refs_in, times};
ghost use Rattle.oref_table.specs.Sound.{IsFree, HasKey, IsSound};
ghost use Rattle.oref_table.specs.Kept.{as_kept, holders_of};
ghost use Rattle.oref_table.specs.Memory.{outside_of, loosed, edited, tighten, with_id, with_level, with_mark, with_object, fresh, holders, object_of, IsLive, Object};
ghost use Rattle.oref_table.specs.Dropping.{dropped};
ghost use Rattle.oref_table.specs.Making.{refs_of_new, with_all};
ghost use Rattle.oref_table.specs.Filling.{InsertsItem, DropsMember, HasItems, HasMember, IsHeldFor, passed};
ghost use Rattle.oref_table.specs.Places.{IsAmong, MayFill, IsFilledTo};
ghost use Rattle.oref_table.specs.declared.fill.Place.TheVariants.{Slot as AtSlot};
ghost use Rattle.oref_table.specs.declared.fill.Fill.TheVariants.{Nothing};

use crate::counts::give_up;
use crate::fill::{Fill, Place, fill_of, slot_of};
use crate::obj::{NewObjs, Obj, Released};
use crate::objects::Objects;
use crate::oref::{Held, Oref};
use crate::release::{make_room, release};
use crate::slot::Slots;
use obj_kinds::{ClassName, Id, Lack, NoMemory};
use std::alloc::Global;
use std::marker::Model;

/// The objects of one process. Contracts see it as a memory: the live objects with how many holds
/// outside name each, the last number that was given, and what is told of those released.
#[derive(Drop)]
pub struct Table {
    objects: Objects,
    last: u64,
    released: Released,
    alloc: Global,
}

impl Model for Table {
    ghost use Rattle.std.specs.Prelude.{vec_capacity};
    ghost use Rattle.oref_table.specs.Memory.{Memory};
    ghost use Rattle.oref_table.specs.MemoryCode.{memory_code};
    ghost use Rattle.oref_table.specs.Stands.{memory_of, IsTable};

    ghost Value = { Memory };

    ghost coded = { memory_code };

    ghost view = { λ t. memory_of t.objects t.last t.released.items };

    ghost invariant = { λ t. IsTable t.objects t.last t.released.items (vec_capacity t.released) };
}

impl Table {
    /// The table without objects. It takes no memory yet.
    pub fn new(alloc: Global) -> Table
        ensures { result ≡ record { objects = []; last = 0; freed = [] } }
    {
        Table {
            objects: Objects::new(alloc),
            last: 0,
            released: Vec::new(alloc),
            alloc,
        }
    }

    /// A new object with the next number, no mark and one hold outside. The room to tell of its release is taken
    /// here. `Count` where no number is left below 2^64, else `Memory` for want of memory; the table is then as before.
    /// It costs a logarithm of the number of live objects.
    pub fn make(
        &mut self,
        class: ClassName,
        extent: Option<ClassName>,
        id: Option<Id>,
        level: u8,
        slots: Slots,
    ) -> Result<Held, Lack>
        requires free { (e : ClassName) (i : Id) → extent ≡ Some e → id ≡ Some i → IsFree e i self.old.objects }
        requires no_refs { refs_in slots ≡ [] }
        ensures ok { OnOk result (self.new ≡ with_object self.old (fresh self.old class extent id level slots)) }
        ensures held { IfOk result (λ h. h.number ≡ self.old.last + 1) }
        ensures outside { IfOk result (λ h. outside_of self.new h.number ≡ 1) }
        ensures holds { IfOk result (λ h. (n : ℕ) → outside_of self.new n ≡ outside_of self.old n + times n (h.number ∷ [])) }
        ensures err { OnErr result (self.new ≡ self.old) }
        ensures count { (result ≡ Err Count) ↔ (2 ^ 64 ≤ self.old.last + 1) }
    {
        let number = self.last.checked_add(1).ok_or(Lack::Count)?;
        make_room(&self.objects, &mut self.released, 1)?;
        let obj = Obj {
            class,
            extent,
            id,
            level,
            modified: false,
            slots,
            count: 1,
        };
        self.objects.add(self.alloc, number, obj)?;
        self.last = number;
        Ok(Held { number })
    }

    /// Several new objects with the next numbers, in their order, all of them or none, without an id or a mark. Each has one
    /// hold outside, and each OREF in their slots takes one hold outside of the object that it names, which is live or one of
    /// them. `Count` where fewer numbers are left below 2^64, else `Memory` for want of memory; the table is then as before.
    /// It costs a logarithm of the number of live objects for each.
    pub fn make_all(&mut self, news: NewObjs) -> Result<(), Lack>
        requires { (n : ℕ) → times n (refs_of_new news.items) ≤ outside_of (with_all self.old news.items) n }
        ensures ok { OnOk result (self.new ≡ loosed (with_all self.old news.items) (refs_of_new news.items)) }
        ensures err { OnErr result (self.new ≡ self.old) }
        ensures count { (result ≡ Err Count) ↔ (2 ^ 64 ≤ self.old.last + length news.items) }
    {
        let last = self.last.checked_add(news.len() as u64).ok_or(Lack::Count)?;
        make_room(&self.objects, &mut self.released, news.len())?;
        self.objects.add_all(self.alloc, self.last, news)?;
        self.last = last;
        Ok(())
    }

    /// One hold more of a live object. It takes no memory: `Count` where the object has 2^64 - 1 holders already. It costs
    /// a logarithm.
    pub fn hold(&mut self, oref: Oref) -> Result<Held, Lack>
        requires { IsLive self.old oref.0 }
        ensures ok { OnOk result (self.new ≡ edited self.old oref.0 tighten) }
        ensures held { IfOk result (λ h. h.number ≡ oref.0) }
        ensures outside { IfOk result (λ h. outside_of self.new h.number ≡ outside_of self.old h.number + 1) }
        ensures holds { IfOk result (λ h. (n : ℕ) → outside_of self.new n ≡ outside_of self.old n + times n (h.number ∷ [])) }
        ensures err { IfErr result (λ e. (e ≡ Count) × (self.new ≡ self.old)) }
        ensures count { IsErr result ↔ (2 ^ 64 ≤ holders_of self.old oref.0 + 1) }
    {
        self.objects.raise(oref.0)?;
        Ok(Held { number: oref.0 })
    }

    /// Gives the hold back, and releases all that nothing holds from then on. It takes no memory, and costs a logarithm,
    /// and one for each object that it releases and for each OREF in the slots of these.
    pub fn let_go(&mut self, held: Held)
        requires { 0 < outside_of self.old held.number }
        ensures memory { self.new ≡ dropped (loosed self.old (held.number ∷ [])) }
        ensures holds { (n : ℕ) → outside_of self.new n ≡ outside_of self.old n - times n (held.number ∷ []) }
    {
        let Held { number } = held;
        self.objects.lower(number);
        release(&mut self.objects, &mut self.released);
    }

    /// Passes the hold to a place of the caller's own, as a variable. It takes no memory.
    pub fn park(&mut self, held: Held) -> Oref
        requires { 0 < outside_of self.old held.number }
        ensures same { self.new ≡ self.old }
        ensures oref { result.0 ≡ held.number }
    {
        let Held { number } = held;
        Oref(number)
    }

    /// Takes the hold from there. It takes no memory.
    pub fn unpark(&mut self, oref: Oref) -> Held
        requires { 0 < outside_of self.old oref.0 }
        ensures same { self.new ≡ self.old }
        ensures held { result.number ≡ oref.0 }
    {
        Held { number: oref.0 }
    }

    /// Fills the place, and releases all that nothing holds from then on. An item is put in the place of another or,
    /// where the place is the number of items, at the end, and `Nothing` takes it out; an element of an array takes the
    /// place of the one of its key, or stands among the others in the order of keys, and `Nothing` takes it out; at a
    /// slot `Nothing` leaves no id; among members an object that isn't one yet is added. For want of memory it hands back
    /// what was to stand there, and the table is as before; a slot, and an item or an element that is there, take none. It costs what `let_go` does, and in a
    /// collection a move of what stands behind the place.
    pub fn fill(&mut self, oref: Oref, at: &Place, with: Fill) -> Result<(), (Fill, NoMemory)>
        requires live { IsLive self.old oref.0 }
        requires place { MayFill self.old oref.0 at.now with }
        requires held { IsHeldFor self.old with }
        ensures ok { OnOk result (IsFilledTo self.old self.new oref.0 at.now with) }
        ensures holds { OnOk result ((n : ℕ) → outside_of self.new n ≡ outside_of self.old n - times n (passed with)) }
        ensures err { OnErr result (self.new ≡ self.old) }
        ensures back { IfErr result (λ e. e.0 ≡ with) }
        ensures slot { (s : ℕ) → at.now ≡ AtSlot s → IsOk result }
        ensures there { (o : Object) → object_of oref.0 self.old.objects ≡ Some o → IsAmong at.now o.slots → IsOk result }
    {
        match self.objects.fill(self.alloc, oref.0, at, with) {
            Ok(out) => {
                give_up(&mut self.objects, out);
                release(&mut self.objects, &mut self.released);
                Ok(())
            }
            Err(with) => Err((with, NoMemory)),
        }
    }

    /// Puts an item before the one at the place in the list in the slot, counted from 0, or at its end where the
    /// place is the number of items. For want of memory it hands back what was to stand there, and the table is as
    /// before.
    pub fn insert_item(
        &mut self,
        oref: Oref,
        slot: u32,
        before: u64,
        with: Fill,
    ) -> Result<(), (Fill, NoMemory)>
        requires live { IsLive self.old oref.0 }
        requires there { HasItems self.old oref.0 slot before }
        requires held { IsHeldFor self.old with }
        requires filling { with ≢ Nothing }
        ensures ok { OnOk result (InsertsItem self.old self.new oref.0 slot before with) }
        ensures holds { OnOk result ((n : ℕ) → outside_of self.new n ≡ outside_of self.old n - times n (passed with)) }
        ensures err { OnErr result (self.new ≡ self.old) }
        ensures back { IfErr result (λ e. e.0 ≡ with) }
    {
        match self
            .objects
            .insert_item(oref.0, slot as usize, before as usize, slot_of(with))
        {
            None => Ok(()),
            Some(item) => Err((fill_of(item), NoMemory)),
        }
    }

    /// Takes the member out of the slot, and releases all that nothing holds from then on. It takes no memory. It costs
    /// what `let_go` does, and looks at the members from the first on.
    pub fn drop_member(&mut self, oref: Oref, slot: u32, member: Oref)
        requires live { IsLive self.old oref.0 }
        requires there { HasMember self.old oref.0 slot member.0 }
        ensures memory { DropsMember self.old self.new oref.0 slot member.0 }
        ensures holds { (n : ℕ) → outside_of self.new n ≡ outside_of self.old n }
    {
        self.objects.drop_member(oref.0, slot as usize, member.0);
        self.objects.lower(member.0);
        release(&mut self.objects, &mut self.released);
    }

    /// The live object with this id in this extent. It takes no memory, and looks at no other object.
    pub fn by_id(&self, extent: &ClassName, id: Id) -> Option<Oref>
        ensures found { IfSome result (λ o. IsSomeAnd (object_of o.0 self.now.objects) (HasKey extent.now id)) }
        ensures none { IfNone result (IsFree extent.now id self.now.objects) }
    {
        match self.objects.find_key(extent, id) {
            None => None,
            Some(number) => Some(Oref(number)),
        }
    }

    /// The live object. It takes no memory, and costs a logarithm.
    pub fn get(&self, oref: Oref) -> Option<&Obj>
        ensures { option_copied result ≡ option_map (as_kept self.now.objects) (object_of oref.0 self.now.objects) }
    {
        self.objects.get(oref.0)
    }

    /// Gives the object its id in its extent, which no other live object there has. It takes no memory.
    pub fn set_id(&mut self, oref: Oref, id: Id)
        requires without { (e : ClassName) × IsSomeAnd (object_of oref.0 self.old.objects) (λ o. (o.extent ≡ Some e) × (o.id ≡ None)) × IsFree e id self.old.objects }
        ensures { self.new ≡ edited self.old oref.0 (with_id id) }
    {
        self.objects.set_id(oref.0, id);
    }

    /// Notes the level that the object is opened at. It takes no memory.
    pub fn set_level(&mut self, oref: Oref, level: u8)
        requires { IsLive self.old oref.0 }
        ensures { self.new ≡ edited self.old oref.0 (with_level level) }
    {
        self.objects.set_level(oref.0, level);
    }

    /// Marks the object as modified, or takes the mark away. It takes no memory.
    pub fn set_modified(&mut self, oref: Oref, modified: bool)
        requires { IsLive self.old oref.0 }
        ensures { self.new ≡ edited self.old oref.0 (with_mark modified) }
    {
        self.objects.set_modified(oref.0, modified);
    }

    /// How many objects are live. It takes no memory.
    pub fn live(&self) -> usize
        ensures count { result ≡ length self.now.objects }
        ensures sound { IsSound self.now }
        ensures held { AllByRecursion (λ o. 0 < holders self.now.objects o) self.now.objects }
    {
        self.objects.len()
    }

    /// The last number that was given, 0 before the first. It takes no memory.
    pub fn last_number(&self) -> u64
        ensures { result ≡ self.now.last }
    {
        self.last
    }

    /// What is told of the objects that were released since it was cleared, in this order. It takes
    /// no memory.
    pub fn released(&self) -> &Released
        ensures { result.now.items ≡ self.now.freed }
    {
        &self.released
    }

    /// Forgets what is told of them; the room stays. It takes no memory.
    pub fn clear_released(&mut self)
        ensures { self.new ≡ record self.old { freed = [] } }
    {
        self.released.clear();
    }
}
