ghost use Rattle.std.specs.Prelude.{◌≡◌, ◌++◌, ◌∷◌, IfOk};
ghost use Rattle.os_meaning.specs.Values.{plain, object_text};
ghost use Rattle.os_machine.specs.Plains.{seen};

use itoa::Buffer;
use obj_kinds::{ClassName, NoMemory, Text, Value};
use os_kinds::Val;
use std::alloc::Global;

/// A value as operators, functions and globals take it: data as it stands, or the text of an object, made for the purpose.
#[derive(Debug, Drop)]
pub(crate) enum Plain<'a> {
    Kept(&'a Value),
    Made(Value),
}

/// The text of an object: its number, `@`, and its class.
fn object_text(alloc: Global, number: u64, class: &ClassName) -> Result<Text, NoMemory>
    ensures { IfOk result (λ t. t ≡ object_text number class.now) }
{
    let mut buffer = Buffer::new();
    let mut text = Text::from_slice(alloc, buffer.format(number).as_bytes())?;
    text.push(b'@')?;
    text.push_slice(class.0.as_slice())?;
    Ok(text)
}

impl<'a> Plain<'a> {
    pub(crate) fn of(alloc: Global, value: &'a Val) -> Result<Plain<'a>, NoMemory>
        ensures { IfOk result (λ p. seen p ≡ plain value.now) }
    {
        match value {
            Val::Data(value) => Ok(Plain::Kept(value)),
            Val::Ref { number, class } => Ok(Plain::Made(Value::Str(object_text(
                alloc, *number, class,
            )?))),
        }
    }

    pub(crate) fn value(&self) -> &Value
        ensures { result.now ≡ seen self.now }
    {
        match self {
            Plain::Kept(value) => value,
            Plain::Made(value) => value,
        }
    }
}
