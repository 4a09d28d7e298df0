//! Names, and tokens that begin an operand.

ghost use Rattle.std.specs.Prelude.{◌≡◌};
ghost use Rattle.text_reading.specs.Parsing.{Reads};
ghost use Rattle.os_expressions.specs.ScriptGrammar as spec;
ghost use Rattle.os_expressions.specs.ScriptGrammar.{read};

use crate::limits::{
    MAX_CLASS_NAME, MAX_GLOBAL_NAME, MAX_NAME, barred, longer, miscounted, name_limit,
};
use obj_kinds::Text;
use script_tokens::{Cursor, Kind, ScriptStop, is_member};
use std::alloc::Global;

/// The name of a variable.
#[tactic(auto, unfolding(crate::specs::ScriptGrammar::variable, text_reading::specs::Phrases::parser, text_reading::specs::Phrases::limited, text_reading::specs::Parsing::pick, text_reading::specs::Parsing::either, text_reading::specs::Parsing::sees))]
pub fn variable(alloc: Global, cursor: &mut Cursor<'_>, bars: bool) -> Result<Text, ScriptStop>
    ensures { Reads (read spec.variable bars cursor.old) result cursor.new }
{
    let can = cursor.sees(Kind::Name);
    let limit = name_limit(bars, cursor.spelling());
    let name = cursor.pick(alloc, can, limit)?;
    Ok(Text::from_slice(alloc, name)?)
}

/// The name of a member.
#[tactic(auto, unfolding(crate::specs::ScriptGrammar::member_name, text_reading::specs::Phrases::parser, text_reading::specs::Phrases::limited, text_reading::specs::Parsing::pick, text_reading::specs::Parsing::either, text_reading::specs::Parsing::sees))]
pub fn member_name(alloc: Global, cursor: &mut Cursor<'_>) -> Result<Text, ScriptStop>
    ensures { Reads (read spec.member_name tt cursor.old) result cursor.new }
{
    let can = is_member(cursor.peek());
    let limit = longer(MAX_NAME, cursor.spelling());
    let name = cursor.pick(alloc, can, limit)?;
    Ok(Text::from_slice(alloc, name)?)
}

/// The name of a class.
#[tactic(auto, unfolding(crate::specs::ScriptGrammar::class_name, text_reading::specs::Phrases::parser, text_reading::specs::Phrases::limited, text_reading::specs::Parsing::pick, text_reading::specs::Parsing::either, text_reading::specs::Parsing::sees))]
pub fn class_name(alloc: Global, cursor: &mut Cursor<'_>) -> Result<Text, ScriptStop>
    ensures { Reads (read spec.class_name tt cursor.old) result cursor.new }
{
    let can = cursor.sees(Kind::ClassName);
    let limit = longer(MAX_CLASS_NAME, cursor.spelling());
    let name = cursor.pick(alloc, can, limit)?;
    Ok(Text::from_slice(alloc, name)?)
}

/// The name of a global.
#[tactic(auto, unfolding(crate::specs::ScriptGrammar::global_name, text_reading::specs::Phrases::parser, text_reading::specs::Phrases::limited, text_reading::specs::Parsing::pick, text_reading::specs::Parsing::either, text_reading::specs::Parsing::sees))]
pub fn global_name(alloc: Global, cursor: &mut Cursor<'_>) -> Result<Text, ScriptStop>
    ensures { Reads (read spec.global_name tt cursor.old) result cursor.new }
{
    let can = cursor.sees(Kind::GlobalName);
    let limit = longer(MAX_GLOBAL_NAME, cursor.spelling());
    let name = cursor.pick(alloc, can, limit)?;
    Ok(Text::from_slice(alloc, name)?)
}

/// A token of this kind that begins an operand.
#[tactic(auto, unfolding(crate::specs::ScriptGrammar::opens, text_reading::specs::Phrases::parser, text_reading::specs::Phrases::limited, text_reading::specs::Parsing::pick, text_reading::specs::Parsing::either, text_reading::specs::Parsing::sees))]
pub fn opens(
    alloc: Global,
    cursor: &mut Cursor<'_>,
    kind: Kind,
    bars: bool,
) -> Result<(), ScriptStop>
    ensures { Reads (read (spec.opens kind) bars cursor.old) result cursor.new }
{
    let can = cursor.sees(kind);
    cursor.pick(alloc, can, barred(bars))?;
    Ok(())
}

/// A token of this kind where an argument lacks or is one too many.
#[tactic(auto, unfolding(crate::specs::ScriptGrammar::miscount, text_reading::specs::Phrases::parser, text_reading::specs::Phrases::limited, text_reading::specs::Parsing::pick, text_reading::specs::Parsing::either, text_reading::specs::Parsing::sees))]
pub fn miscount(alloc: Global, cursor: &mut Cursor<'_>, kind: Kind) -> Result<(), ScriptStop>
    ensures { Reads (read (spec.miscount kind) tt cursor.old) result cursor.new }
{
    let can = cursor.sees(kind);
    cursor.pick(alloc, can, miscounted(true))?;
    Ok(())
}

/// A closing parenthesis behind the last argument.
#[tactic(auto, unfolding(crate::specs::ScriptGrammar::closing, text_reading::specs::Phrases::parser, text_reading::specs::Phrases::limited, text_reading::specs::Parsing::pick, text_reading::specs::Parsing::either, text_reading::specs::Parsing::sees))]
pub fn closing(alloc: Global, cursor: &mut Cursor<'_>) -> Result<(), ScriptStop>
    ensures { Reads (read spec.closing tt cursor.old) result cursor.new }
{
    if cursor.sees(Kind::Comma) {
        return miscount(alloc, cursor, Kind::Comma);
    }
    cursor.mark(alloc, Kind::Close)
}
