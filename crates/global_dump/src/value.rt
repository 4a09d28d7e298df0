ghost use Rattle.std.specs.Prelude.{◌≡◌, ◌++◌, OnOk};
ghost use Rattle.global_dump.specs.Lines.{text_value, value_text, values_text};

use obj_kinds::{NoMemory, Text, Value, push_quoted, whole_number};

fn push_text(out: &mut Text, text: &[u8]) -> Result<(), NoMemory>
    ensures { OnOk result (out.new ≡ out.old ++ text_value text.now) }
{
    match whole_number(text) {
        Some(_) => out.push_slice(text),
        None => push_quoted(out, text),
    }
}

/// Writes a value as a dump has it: a canonical whole number bare, any other text in quotes, a list
/// as `$lb(..)` with its items. It fails only for want of memory.
#[cycle(value)]
pub fn push_value(out: &mut Text, value: &Value) -> Result<(), NoMemory>
    ensures { OnOk result (out.new ≡ out.old ++ value_text value.now) }
{
    match value {
        Value::Str(text) => push_text(out, text.as_slice()),
        Value::List(values) => {
            out.push_slice(b"$lb(")?;
            push_values(out, values.as_slice())?;
            out.push(b')')
        }
    }
}

#[cycle(value)]
fn push_values(out: &mut Text, values: &[Value]) -> Result<(), NoMemory>
    ensures { OnOk result (out.new ≡ out.old ++ values_text values.now) }
{
    let Some((first, others)) = values.split_first() else {
        return Ok(());
    };
    push_value(out, first)?;
    for value in others {
        out.push(b',')?;
        push_value(out, value)?;
    }
    Ok(())
}
