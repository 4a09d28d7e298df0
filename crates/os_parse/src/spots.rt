//! Parts of expressions that may begin with any token.

ghost use Rattle.text_reading.specs.Parsing.{Reads};
ghost use Rattle.os_expressions.specs.Trees as tree;
ghost use Rattle.os_expressions.specs.ScriptGrammar as spec;
ghost use Rattle.os_expressions.specs.ScriptGrammar.{read};

use os_expressions::{called, global, plain, primary, some_place, uncalled};
use os_kinds::{Expression, GlobalReference, Place};
use script_tokens::{Cursor, ScriptStop};
use std::alloc::Global;

/// A variable or a global.
pub fn any_place(alloc: Global, cursor: &mut Cursor<'_>, depth: usize) -> Result<Place, ScriptStop>
    ensures { Reads (read spec.some_place (tree.plain depth) cursor.old) result cursor.new }
{
    some_place(alloc, cursor, plain(depth))
}

/// A global.
pub fn any_global(
    alloc: Global,
    cursor: &mut Cursor<'_>,
    depth: usize,
) -> Result<GlobalReference, ScriptStop>
    ensures { Reads (read spec.global (tree.plain depth) cursor.old) result cursor.new }
{
    global(alloc, cursor, plain(depth))
}

/// What ends in arguments.
pub fn any_called(
    alloc: Global,
    cursor: &mut Cursor<'_>,
    depth: usize,
) -> Result<Expression, ScriptStop>
    ensures { Reads (read spec.called (tree.plain depth) cursor.old) result cursor.new }
{
    called(alloc, cursor, plain(depth))
}

/// What neither ends in arguments nor begins with `..`.
pub fn any_uncalled(
    alloc: Global,
    cursor: &mut Cursor<'_>,
    depth: usize,
) -> Result<Expression, ScriptStop>
    ensures { Reads (read spec.uncalled (tree.plain depth) cursor.old) result cursor.new }
{
    uncalled(alloc, cursor, plain(depth))
}

/// An operand without its signs and members.
pub fn any_primary(
    alloc: Global,
    cursor: &mut Cursor<'_>,
    depth: usize,
) -> Result<Expression, ScriptStop>
    ensures { Reads (read spec.primary (tree.plain depth) cursor.old) result cursor.new }
{
    primary(alloc, cursor, plain(depth))
}
