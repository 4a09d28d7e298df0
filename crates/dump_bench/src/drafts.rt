use itoa::Buffer;
use obj_kinds::{NoMemory, Text};
use std::alloc::Global;

/// The class of the accounts, with its unique index.
pub const CLASSES: &[u8] = b"Class Bank.Account Extends %Persistent
{
Property Owner As %String;
Property Number As %Integer;
Property Next As Bank.Account;
Index NumIdx On Number [ Unique ];
}
";

fn push_number(out: &mut Text, number: u32) -> Result<(), NoMemory> {
    let mut buffer = Buffer::new();
    out.push_slice(buffer.format(number).as_bytes())
}

// The row of an account.
fn push_row(out: &mut Text, id: u32) -> Result<(), NoMemory> {
    out.push_slice(b"^Bank.AccountD(")?;
    push_number(out, id)?;
    out.push_slice(b")=$lb(\"\",\"Owner ")?;
    push_number(out, id)?;
    out.push_slice(b"\",")?;
    push_number(out, id)?;
    out.push_slice(b",\"\")\n")
}

// Its entry in the index.
fn push_entry(out: &mut Text, id: u32) -> Result<(), NoMemory> {
    out.push_slice(b"^Bank.AccountI(\"NumIdx\",")?;
    push_number(out, id)?;
    out.push(b',')?;
    push_number(out, id)?;
    out.push_slice(b")=\"\"\n")
}

/// The dump of so many accounts, each with a number of its own.
pub fn draft(alloc: Global, objects: u32) -> Result<Text, NoMemory> {
    let mut out = Text::new(alloc);
    out.push_slice(b"^Bank.AccountD=")?;
    push_number(&mut out, objects)?;
    out.push(b'\n')?;
    for at in 0..objects {
        push_row(&mut out, at.saturating_add(1))?;
    }
    for at in 0..objects {
        push_entry(&mut out, at.saturating_add(1))?;
    }
    Ok(out)
}
