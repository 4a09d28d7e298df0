//! Limits, at a token's first byte.

ghost use Rattle.std.specs.Prelude.{◌≡◌, ℕ, List, length};
ghost use Rattle.os_expressions.specs.Literals.{content};
ghost use Rattle.os_expressions.specs.ScriptGrammar as spec;

use crate::given::{Calling, Spot};
use script_tokens::ScriptWhy;

/// How many blocks and parentheses may be open.
pub const MAX_DEPTH: usize = 64;
/// How many bytes a name may have.
pub const MAX_NAME: usize = 31;
/// How many bytes a class's name may have.
pub const MAX_CLASS_NAME: usize = 60;
/// How many bytes a global's name may have.
pub const MAX_GLOBAL_NAME: usize = 64;
/// How many bytes a string may say.
pub const MAX_TEXT: usize = 32_767;

/// The reason, where the test holds, and else a later one.
fn where_holds(test: bool, reason: ScriptWhy, later: Option<ScriptWhy>) -> Option<ScriptWhy>
    ensures { result ≡ spec.where_holds test reason later }
{
    if test { Some(reason) } else { later }
}

/// The value of a `QUIT` that leaves a loop.
pub fn barred(bars: bool) -> Option<ScriptWhy>
    ensures { result ≡ spec.barred bars }
{
    where_holds(bars, ScriptWhy::QuitValueInLoop, None)
}

/// The 65th block or parenthesis.
pub fn too_deep(depth: usize) -> Option<ScriptWhy>
    ensures { result ≡ spec.too_deep depth }
{
    where_holds(depth >= MAX_DEPTH, ScriptWhy::TooDeep, None)
}

/// The limits of a parenthesis that begins an expression.
pub fn opening(spot: Spot) -> Option<ScriptWhy>
    ensures { result ≡ spec.opening spot }
{
    where_holds(
        spot.depth >= MAX_DEPTH,
        ScriptWhy::TooDeep,
        barred(spot.barred),
    )
}

/// Too long a name, where it has more bytes than this.
pub fn longer(most: usize, name: &[u8]) -> Option<ScriptWhy>
    ensures { result ≡ spec.longer most name.now }
{
    where_holds(name.len() > most, ScriptWhy::NameTooLong, None)
}

pub fn name_limit(bars: bool, name: &[u8]) -> Option<ScriptWhy>
    ensures { result ≡ spec.name_limit bars name.now }
{
    where_holds(name.len() > MAX_NAME, ScriptWhy::NameTooLong, barred(bars))
}

/// The limits of a string that says so many bytes, where `whole` says that it isn't cut short.
pub fn string_limit(bars: bool, whole: bool, count: usize) -> Option<ScriptWhy>
    ensures { (z : List ℕ) → length (content z) ≡ count → result ≡ spec.string_limit bars whole z }
{
    where_holds(
        whole && count > MAX_TEXT,
        ScriptWhy::TextTooLong,
        barred(bars),
    )
}

/// Arguments that are too many or too few.
pub fn miscounted(test: bool) -> Option<ScriptWhy>
    ensures { result ≡ spec.miscounted test }
{
    where_holds(test, ScriptWhy::BadArguments, None)
}

/// Fewer arguments than are needed.
pub fn too_few(calling: Calling, count: usize) -> Option<ScriptWhy>
    ensures { result ≡ spec.too_few calling count }
{
    miscounted(count < calling.fewest)
}

fn is_full(most: Option<usize>, count: usize) -> bool
    ensures { result ≡ spec.is_full most count }
{
    match most {
        Some(most) => most <= count,
        None => false,
    }
}

/// One more argument than there may be.
pub fn too_many(calling: Calling, count: usize) -> Option<ScriptWhy>
    ensures { result ≡ spec.too_many calling count }
{
    miscounted(is_full(calling.most, count))
}
