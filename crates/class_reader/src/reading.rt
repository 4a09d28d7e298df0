//! Reads a whole class file.

ghost use Rattle.std.specs.Prelude.{◌≡◌, ◌+◌, ◌<◌, ◌^◌, false, length};
ghost use Rattle.text_reading.specs.Reading.{Gives, whole};
ghost use Rattle.class_tokens.specs.ClassLex.{file_tokens};
ghost use Rattle.text_reading.specs.Places.{whole_text};
ghost use Rattle.class_tokens.specs.ClassTongue.{tongue};
ghost use Rattle.class_reader.specs.ClassGrammar as spec;
ghost use Rattle.class_reader.specs.ClassGrammar.{read};
ghost use Rattle.class_reader.specs.ClassReading.{IsRead, IsClassFile};

use crate::classes::classes;
use crate::error::ReadError;
use class_tokens::{ClassStop, file_cursor};
use schema_kinds::ClassTrees;
use std::alloc::Global;
use text_reading::{Marks, Place, Stop, place_at};

#[tactic(auto, unfolding(text_reading::specs::Reading::whole))]
fn file_of(alloc: Global, text: &[u8]) -> Result<ClassTrees, ClassStop>
    requires { length text.now + 1 < 2 ^ 32 }
    ensures { Gives result (whole tongue (read spec.classes (whole_text text.now)) (file_tokens text.now)) }
{
    let mut cursor = file_cursor(alloc, text)?;
    let mut marks = Marks::new(text);
    let found = classes(alloc, &mut cursor, &mut marks)?;
    if !cursor.is_empty() {
        return Err(cursor.refuse());
    }
    Ok(found)
}

/// The classes of the text, or its first refusal with its place.
fn placed(alloc: Global, text: &[u8]) -> Result<ClassTrees, ReadError>
    requires { length text.now + 1 < 2 ^ 32 }
    ensures { IsRead text.now result }
{
    match file_of(alloc, text) {
        Ok(found) => Ok(found),
        Err(Stop::Memory) => Err(ReadError::NoMemory),
        Err(Stop::Refused(refusal)) => {
            let place = place_at(Place::start(), text, refusal.left);
            Err(ReadError::BadClass {
                line: place.line,
                column: place.column,
                why: refusal.why,
            })
        }
    }
}

/// The classes that a class file declares, in order.
///
/// A refusal names the first place from which on the text is in no class file, as a line and a column of bytes, both
/// from 1, and the reason. The grammar is that of Caché's class files, less what this profile leaves out.
pub fn read_classes(alloc: Global, text: &[u8]) -> Result<ClassTrees, ReadError>
    requires { length text.now + 1 < 2 ^ 32 }
    ensures exact { IsRead text.now result }
    ensures grammar { IsClassFile text.now result }
{
    placed(alloc, text)
}
