ghost use Rattle.std.specs.Prelude.{◌≡◌, IfOk};
ghost use Rattle.obj_kinds.specs.Ids.{id_text};
ghost use Rattle.obj_kinds.specs.Subscript.{sub_of};

use obj_kinds::{Id, NoMemory, Sub, Text, whole_number};
use std::alloc::Global;

/// The subscript that a text is: the number that it writes, or else the text.
pub fn sub_for(alloc: Global, text: &[u8]) -> Result<Sub, NoMemory>
    ensures { IfOk result (λ sub. sub ≡ sub_of text.now) }
{
    match whole_number(text) {
        Some(number) => Ok(Sub::Num(number)),
        None => Ok(Sub::Str(Text::from_slice(alloc, text)?)),
    }
}

/// The subscript that an id is.
pub fn id_sub(alloc: Global, id: &Id) -> Result<Sub, NoMemory>
    ensures { IfOk result (λ sub. sub ≡ sub_of (id_text id.now)) }
{
    let text = id.text(alloc)?;
    sub_for(alloc, text.as_slice())
}
