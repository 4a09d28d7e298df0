ghost use Rattle.std.specs.Prelude.{ℕ, ◌≡◌, ◌+◌, ◌≤◌, ◌∷◌, [], IfOk, OnErr, OnOk};
ghost use Rattle.oref_table.specs.Memory.{IsLive, outside_of};
ghost use Rattle.oref_table.specs.Refs.{times};
ghost use Rattle.obj_shape.specs.Fitting.{TableFits};
ghost use Rattle.obj_shape.specs.Wholeness.{IsWhole};
ghost use Rattle.part_copies.specs.Making.{AreCopies, IsCopied, IsCopyOf, IsWholly};
ghost use Rattle.part_copies.specs.Copies.{Copies, with_copies};

use crate::copies::{CopySource, Made, copy_part};
use crate::hold::{hold_all, let_all_go, standing};
use obj_kinds::Lack;
use obj_shape::PART_DEPTH;
use oref_table::{Held, Oref, Table};
use schema_kinds::Schema;
use std::alloc::Global;

/// The objects that a copy of a part takes, and its number.
#[derive(Drop)]
struct PartCopy {
    number: u64,
    made: Made,
}

#[tactic(auto, using(crate::proofs::MakeCopies::kept_good))]
fn copy_of(
    alloc: Global,
    table: &Table,
    schema: &Schema,
    level: u8,
    part: Oref,
) -> Result<PartCopy, Lack>
    requires fits { TableFits schema.now table.now }
    requires live { IsLive table.now part.0 }
    ensures { IfOk result (λ copy. IsCopyOf schema.now table.now level part.0 copy) }
{
    let obj = table.get(part).unwrap();
    let from = CopySource {
        alloc,
        table,
        schema,
        level,
    };
    let mut made = Made {
        last: table.last_number(),
        objects: Vec::new(alloc),
        named: Vec::new(alloc),
    };
    let number = copy_part(
        &from,
        PART_DEPTH,
        &obj.class,
        obj.slots.as_slice(),
        &mut made,
    )?;
    Ok(PartCopy { number, made })
}

// Makes the objects of a copy, all of them or none.
fn make(table: &mut Table, copy: PartCopy) -> Result<Held, Lack>
    requires { (c : Copies ℕ) × AreCopies table.old c × IsWholly c copy }
    ensures ok { (c : Copies ℕ) → AreCopies table.old c → IsWholly c copy → IfOk result (λ h. (table.new ≡ with_copies table.old c) × (h.number ≡ c.copy)) }
    ensures holds { IfOk result (λ h. (k : ℕ) → outside_of table.new k ≡ outside_of table.old k + times k (h.number ∷ [])) }
    ensures err { OnErr result (table.new ≡ table.old) }
{
    standing(table);
    let PartCopy { number, made } = copy;
    hold_all(table, made.named.as_slice())?;
    match table.make_all(made.objects) {
        Ok(()) => Ok(table.unpark(Oref(number))),
        Err(lack) => {
            let_all_go(table, made.named.as_slice());
            Err(lack)
        }
    }
}

/// Copies a live object that is a part, with the parts in it that have objects, and answers a hold of the copy. The copy gets the
/// next number and the level, the parts in it the numbers behind it, in the order of properties and elements, each before those
/// in it; a part without an object is copied as its fields, and what a reference names is named once more. All of it is made or
/// nothing: at a refusal the table is as before. `Count` where no number is left or an object has 2^64 - 1 holders, else
/// `Memory`. It costs a copy of each field, and a logarithm for each object and for each reference.
pub fn copy_object(
    alloc: Global,
    table: &mut Table,
    schema: &Schema,
    level: u8,
    part: Oref,
) -> Result<Held, Lack>
    requires whole { IsWhole schema.now }
    requires fits { TableFits schema.now table.old }
    requires live { IsLive table.old part.0 }
    requires level { level ≤ 4 }
    ensures ok { IfOk result (λ h. IsCopied schema.now table.old level part.0 table.new h.number) }
    ensures holds { IfOk result (λ h. (k : ℕ) → outside_of table.new k ≡ outside_of table.old k + times k (h.number ∷ [])) }
    ensures fits { TableFits schema.now table.new }
    ensures err { OnErr result (table.new ≡ table.old) }
{
    standing(table);
    let copy = copy_of(alloc, table, schema, level, part)?;
    make(table, copy)
}
