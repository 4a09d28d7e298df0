ghost use Rattle.std.specs.Prelude.{◌≡◌, ◌<◌, ◌^◌, ◌++◌, IfOk, OnOk};
ghost use Rattle.std.specs.Fmt.{decimal};
ghost use Rattle.oref_table.specs.Memory.{object_of};
ghost use Rattle.prop_setting.specs.Elements.{class_part, oref_text as text_for};

use itoa::Buffer;
use obj_kinds::{NoMemory, Text};
use oref_table::{Oref, Table};
use std::alloc::Global;

fn push_number(out: &mut Text, number: u64) -> Result<(), NoMemory>
    ensures ok { OnOk result (out.new ≡ out.old ++ decimal number) }
    ensures small { number < 2 ^ 64 }
{
    let mut buffer = Buffer::new();
    out.push_slice(buffer.format(number).as_bytes())
}

#[tactic(auto, using(crate::proofs::KeptLaws::class_kept, crate::proofs::KeptLaws::no_class))]
fn class_name(table: &Table, oref: Oref) -> &[u8]
    ensures { result.now ≡ class_part (object_of oref.0 table.now.objects) }
{
    match table.get(oref) {
        Some(obj) => obj.class.0.as_slice(),
        None => &[],
    }
}

/// The text that an OREF reads as: its number, `@` and the class of its object.
pub fn oref_text(alloc: Global, table: &Table, oref: Oref) -> Result<Text, NoMemory>
    ensures text { IfOk result (λ text. text ≡ text_for table.now oref.0) }
    ensures small { OnOk result (oref.0 < 2 ^ 64) }
{
    let mut out = Text::new(alloc);
    push_number(&mut out, oref.0)?;
    out.push(b'@')?;
    out.push_slice(class_name(table, oref))?;
    Ok(out)
}
