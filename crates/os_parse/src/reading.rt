//! Reads a whole script.

ghost use Rattle.std.specs.Prelude.{◌≡◌, ◌+◌, ◌<◌, ◌^◌, false, length};
ghost use Rattle.text_reading.specs.Reading.{Gives, whole};
ghost use Rattle.script_tokens.specs.ScriptLex.{script_tokens};
ghost use Rattle.script_tokens.specs.ScriptTongue.{tongue};
ghost use Rattle.os_expressions.specs.ScriptGrammar as spec;
ghost use Rattle.os_expressions.specs.ScriptGrammar.{read};
ghost use Rattle.os_parse.specs.ScriptReading.{IsRead, IsScript, placed, top};

use crate::commands::script;
use crate::error::ScriptError;
use os_expressions::Ground;
use os_kinds::Script;
use script_tokens::{ScriptStop, script_cursor};
use std::alloc::Global;
use text_reading::{Marks, Place, Stop, place_at};

#[tactic(auto, unfolding(text_reading::specs::Reading::whole))]
fn script_of(alloc: Global, start: Place, text: &[u8]) -> Result<Script, ScriptStop>
    requires lines { start.line + length text.now < 2 ^ 32 }
    requires columns { start.column + length text.now < 2 ^ 32 }
    ensures { Gives result (whole tongue (read spec.script (top (record { start = start; text = text.now }))) (script_tokens text.now)) }
{
    let mut cursor = script_cursor(alloc, text)?;
    let mut marks = Marks::starting_at(start, text);
    let ground = Ground {
        depth: 0,
        in_loop: false,
    };
    let found = script(alloc, &mut cursor, &mut marks, ground)?;
    if !cursor.is_empty() {
        return Err(cursor.refuse());
    }
    Ok(found)
}

/// The commands of the text, or its first refusal with its place.
fn placed_script(alloc: Global, start: Place, text: &[u8]) -> Result<Script, ScriptError>
    requires lines { start.line + length text.now < 2 ^ 32 }
    requires columns { start.column + length text.now < 2 ^ 32 }
    ensures { IsRead (record { start = start; text = text.now }) result }
{
    match script_of(alloc, start, text) {
        Ok(found) => Ok(found),
        Err(Stop::Memory) => Err(ScriptError::NoMemory),
        Err(Stop::Refused(refusal)) => {
            let place = place_at(start, text, refusal.left);
            Err(ScriptError::BadScript {
                line: place.line,
                column: place.column,
                why: refusal.why,
            })
        }
    }
}

/// The commands of a script, or of a method's body, whose first byte stands at this line and column.
///
/// A refusal names the first place from which on the text is in no script, as a line and a column of bytes, and the reason.
/// The grammar is that of Caché's ObjectScript, less what this profile leaves out.
pub fn read_script(
    alloc: Global,
    text: &[u8],
    line: u32,
    column: u32,
) -> Result<Script, ScriptError>
    requires lines { line + length text.now < 2 ^ 32 }
    requires columns { column + length text.now < 2 ^ 32 }
    ensures exact { IsRead (placed line column text.now) result }
    ensures grammar { IsScript (placed line column text.now) result }
{
    placed_script(alloc, Place { line, column }, text)
}
