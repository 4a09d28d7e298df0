//! Classes.

ghost use Rattle.std.specs.Prelude.{◌≡◌, ◌∷◌, [], nat_le, false, length, IfOk};
ghost use Rattle.text_reading.specs.Parsing.{Reads};
ghost use Rattle.class_reader.specs.ClassGrammar as spec;
ghost use Rattle.class_reader.specs.ClassGrammar.{read};
ghost use Rattle.class_reader.specs.ClassTrees as trees;

use crate::keys::Section;
use crate::keywords::keywords;
use crate::limits::barred;
use crate::members::{index, method, parameter, storage};
use crate::names::{class_name, own_name, package_of, whole_name};
use crate::properties::{opens, property, relation};
use class_tokens::{ClassStop, Cursor, Kind, is_member_word};
use obj_kinds::{ClassName, Text};
use schema_kinds::{ClassNames, ClassTree, ClassTrees, Indexes, Methods, PropTrees};
use sqlite_items::Items;
use std::alloc::Global;
use text_reading::Marks;

/// How many classes a class file may declare.
const MAX_CLASSES: usize = 500;

/// The members of a class that were found.
#[derive(Debug, Drop)]
pub struct Members {
    pub props: PropTrees,
    pub indexes: Indexes,
    pub methods: Methods,
}

#[tactic(auto, unfolding(crate::specs::ClassGrammar::one_super, text_reading::specs::Phrases::parser, text_reading::specs::Phrases::limited, text_reading::specs::Parsing::pick, text_reading::specs::Parsing::either, text_reading::specs::Parsing::sees))]
fn one_super(alloc: Global, cursor: &mut Cursor<'_>, home: &[u8]) -> Result<ClassName, ClassStop>
    ensures { Reads (read spec.one_super home.now cursor.old) result cursor.new }
{
    let name = class_name(alloc, cursor)?;
    Ok(whole_name(alloc, home, name)?)
}

#[tactic(auto, unfolding(crate::specs::ClassGrammar::further_super, text_reading::specs::Phrases::parser, text_reading::specs::Phrases::limited, text_reading::specs::Parsing::pick, text_reading::specs::Parsing::either, text_reading::specs::Parsing::sees))]
fn further_super(
    alloc: Global,
    cursor: &mut Cursor<'_>,
    home: &[u8],
    mut found: ClassNames,
) -> Result<ClassNames, ClassStop>
    ensures { Reads (read spec.further_super (home.now, found) cursor.old) result cursor.new }
{
    cursor.mark(alloc, Kind::Comma)?;
    let name = one_super(alloc, cursor, home)?;
    found.push(name)?;
    Ok(found)
}

fn more_supers(
    alloc: Global,
    cursor: &mut Cursor<'_>,
    home: &[u8],
    mut found: ClassNames,
) -> Result<ClassNames, ClassStop>
    ensures { Reads (read spec.more_supers (home.now, found) cursor.old) result cursor.new }
{
    'turns: while cursor.sees(Kind::Comma) {
        match further_super(alloc, cursor, home, found) {
            Ok(more) => found = more,
            Err(stop) => return Err(stop),
        }
    }
    Ok(found)
}

#[tactic(auto, unfolding(crate::specs::ClassGrammar::first_super, text_reading::specs::Phrases::parser, text_reading::specs::Phrases::limited, text_reading::specs::Parsing::pick, text_reading::specs::Parsing::either, text_reading::specs::Parsing::sees))]
fn first_super(alloc: Global, cursor: &mut Cursor<'_>, home: &[u8]) -> Result<ClassNames, ClassStop>
    ensures { Reads (read spec.first_super home.now cursor.old) result cursor.new }
{
    let mut found = Items::new(alloc);
    found.push(one_super(alloc, cursor, home)?)?;
    Ok(found)
}

#[tactic(auto, unfolding(crate::specs::ClassGrammar::listed_supers, text_reading::specs::Phrases::parser, text_reading::specs::Phrases::limited, text_reading::specs::Parsing::pick, text_reading::specs::Parsing::either, text_reading::specs::Parsing::sees))]
fn listed_supers(
    alloc: Global,
    cursor: &mut Cursor<'_>,
    home: &[u8],
) -> Result<ClassNames, ClassStop>
    ensures { Reads (read spec.listed_supers home.now cursor.old) result cursor.new }
{
    cursor.mark(alloc, Kind::LParen)?;
    let first = first_super(alloc, cursor, home)?;
    let all = more_supers(alloc, cursor, home, first)?;
    cursor.mark(alloc, Kind::RParen)?;
    Ok(all)
}

#[tactic(auto, unfolding(crate::specs::ClassGrammar::supers, text_reading::specs::Phrases::parser, text_reading::specs::Phrases::limited, text_reading::specs::Parsing::pick, text_reading::specs::Parsing::either, text_reading::specs::Parsing::sees))]
fn supers(alloc: Global, cursor: &mut Cursor<'_>, home: &[u8]) -> Result<ClassNames, ClassStop>
    ensures { Reads (read spec.supers home.now cursor.old) result cursor.new }
{
    if cursor.sees(Kind::LParen) {
        return listed_supers(alloc, cursor, home);
    }
    first_super(alloc, cursor, home)
}

/// The superclasses of a class of the package, if it has any.
#[tactic(auto, unfolding(crate::specs::ClassGrammar::supers_given, text_reading::specs::Phrases::parser, text_reading::specs::Phrases::limited, text_reading::specs::Parsing::pick, text_reading::specs::Parsing::either, text_reading::specs::Parsing::sees))]
fn supers_given(
    alloc: Global,
    cursor: &mut Cursor<'_>,
    home: &[u8],
) -> Result<ClassNames, ClassStop>
    ensures { Reads (read spec.supers_given home.now cursor.old) result cursor.new }
{
    if !cursor.sees(Kind::Extends) {
        return Ok(Items::new(alloc));
    }
    cursor.mark(alloc, Kind::Extends)?;
    supers(alloc, cursor, home)
}

/// A member that is left out.
#[tactic(auto, unfolding(crate::specs::ClassGrammar::left_out, text_reading::specs::Phrases::parser, text_reading::specs::Phrases::limited, text_reading::specs::Parsing::pick, text_reading::specs::Parsing::either, text_reading::specs::Parsing::sees))]
fn left_out(alloc: Global, cursor: &mut Cursor<'_>) -> Result<(), ClassStop>
    ensures { Reads (read spec.left_out tt cursor.old) result cursor.new }
{
    let can = cursor.sees(Kind::LeftOut);
    cursor.pick(alloc, can, barred(true))?;
    Ok(())
}

#[tactic(auto, unfolding(crate::specs::ClassGrammar::last_member, text_reading::specs::Phrases::parser, text_reading::specs::Phrases::limited, text_reading::specs::Parsing::pick, text_reading::specs::Parsing::either, text_reading::specs::Parsing::sees))]
fn last_member(alloc: Global, cursor: &mut Cursor<'_>, found: Members) -> Result<Members, ClassStop>
    ensures { Reads (read spec.last_member found cursor.old) result cursor.new }
{
    if cursor.sees(Kind::Storage) {
        storage(alloc, cursor)?;
    } else {
        left_out(alloc, cursor)?;
    }
    Ok(found)
}

#[tactic(auto, unfolding(crate::specs::ClassGrammar::method_member, text_reading::specs::Phrases::parser, text_reading::specs::Phrases::limited, text_reading::specs::Parsing::pick, text_reading::specs::Parsing::either, text_reading::specs::Parsing::sees))]
fn method_member(
    alloc: Global,
    cursor: &mut Cursor<'_>,
    marks: &mut Marks<'_>,
    found: Members,
) -> Result<Members, ClassStop>
    ensures reads { Reads (read spec.method_member (marks.old, found) cursor.old) result cursor.new }
    ensures text { marks.new ≡ marks.old }
{
    if cursor.sees(Kind::Method) {
        let Members {
            props,
            indexes,
            methods,
        } = found;
        let methods = method(alloc, cursor, marks, Kind::Method, false, methods)?;
        return Ok(Members {
            props,
            indexes,
            methods,
        });
    }
    if cursor.sees(Kind::ClassMethod) {
        let Members {
            props,
            indexes,
            methods,
        } = found;
        let methods = method(alloc, cursor, marks, Kind::ClassMethod, true, methods)?;
        return Ok(Members {
            props,
            indexes,
            methods,
        });
    }
    last_member(alloc, cursor, found)
}

#[tactic(auto, unfolding(crate::specs::ClassGrammar::index_member, text_reading::specs::Phrases::parser, text_reading::specs::Phrases::limited, text_reading::specs::Parsing::pick, text_reading::specs::Parsing::either, text_reading::specs::Parsing::sees))]
fn index_member(
    alloc: Global,
    cursor: &mut Cursor<'_>,
    marks: &mut Marks<'_>,
    found: Members,
) -> Result<Members, ClassStop>
    ensures reads { Reads (read spec.index_member (marks.old, found) cursor.old) result cursor.new }
    ensures text { marks.new ≡ marks.old }
{
    if cursor.sees(Kind::Index) {
        let Members {
            props,
            indexes,
            methods,
        } = found;
        let indexes = index(alloc, cursor, indexes)?;
        return Ok(Members {
            props,
            indexes,
            methods,
        });
    }
    if cursor.sees(Kind::Parameter) {
        parameter(alloc, cursor)?;
        return Ok(found);
    }
    method_member(alloc, cursor, marks, found)
}

/// A member of a class of the package, behind those that were found.
#[tactic(auto, unfolding(crate::specs::ClassGrammar::member, text_reading::specs::Phrases::parser, text_reading::specs::Phrases::limited, text_reading::specs::Parsing::pick, text_reading::specs::Parsing::either, text_reading::specs::Parsing::sees))]
fn member(
    alloc: Global,
    cursor: &mut Cursor<'_>,
    marks: &mut Marks<'_>,
    home: &[u8],
    found: Members,
) -> Result<Members, ClassStop>
    ensures reads { Reads (read spec.member (trees.site marks.old home.now, found) cursor.old) result cursor.new }
    ensures text { marks.new ≡ marks.old }
{
    if cursor.sees(Kind::Property) {
        let Members {
            props,
            indexes,
            methods,
        } = found;
        let props = property(alloc, cursor, home, props)?;
        return Ok(Members {
            props,
            indexes,
            methods,
        });
    }
    if cursor.sees(Kind::Relationship) {
        let Members {
            props,
            indexes,
            methods,
        } = found;
        let props = relation(alloc, cursor, home, props)?;
        return Ok(Members {
            props,
            indexes,
            methods,
        });
    }
    index_member(alloc, cursor, marks, found)
}

fn all_members(
    alloc: Global,
    cursor: &mut Cursor<'_>,
    marks: &mut Marks<'_>,
    home: &[u8],
) -> Result<Members, ClassStop>
    ensures reads { Reads (read spec.members (trees.site marks.old home.now) cursor.old) result cursor.new }
    ensures text { marks.new ≡ marks.old }
{
    let mut found = Members {
        props: Items::new(alloc),
        indexes: Items::new(alloc),
        methods: Items::new(alloc),
    };
    'turns: while is_member_word(cursor.peek()) {
        match member(alloc, cursor, marks, home, found) {
            Ok(more) => found = more,
            Err(stop) => return Err(stop),
        }
    }
    Ok(found)
}

/// What stands behind a class's own name.
#[tactic(auto, unfolding(crate::specs::ClassGrammar::class_rest, text_reading::specs::Phrases::parser, text_reading::specs::Phrases::limited, text_reading::specs::Parsing::pick, text_reading::specs::Parsing::either, text_reading::specs::Parsing::sees))]
fn class_rest(
    alloc: Global,
    cursor: &mut Cursor<'_>,
    marks: &mut Marks<'_>,
    name: Text,
) -> Result<ClassTree, ClassStop>
    ensures reads { Reads (read spec.class_rest (marks.old, name) cursor.old) result cursor.new }
    ensures text { marks.new ≡ marks.old }
{
    let home = package_of(name.as_slice());
    let supers = supers_given(alloc, cursor, home)?;
    keywords(alloc, cursor, Section::Class)?;
    cursor.mark(alloc, Kind::LBrace)?;
    let all = all_members(alloc, cursor, marks, home)?;
    cursor.mark(alloc, Kind::RBrace)?;
    Ok(ClassTree {
        name: ClassName(name),
        supers,
        props: all.props,
        indexes: all.indexes,
        methods: all.methods,
    })
}

/// A class, behind those that were found.
#[tactic(auto, unfolding(crate::specs::ClassGrammar::one_class, text_reading::specs::Phrases::parser, text_reading::specs::Phrases::limited, text_reading::specs::Parsing::pick, text_reading::specs::Parsing::either, text_reading::specs::Parsing::sees))]
fn one_class(
    alloc: Global,
    cursor: &mut Cursor<'_>,
    marks: &mut Marks<'_>,
    mut found: ClassTrees,
) -> Result<ClassTrees, ClassStop>
    ensures reads { Reads (read spec.one_class (marks.old, found) cursor.old) result cursor.new }
    ensures text { marks.new ≡ marks.old }
{
    let filled = found.len() >= MAX_CLASSES;
    opens(alloc, cursor, Kind::Class, filled)?;
    let name = own_name(alloc, cursor)?;
    found.push(class_rest(alloc, cursor, marks, name)?)?;
    Ok(found)
}

/// All classes.
pub fn classes(
    alloc: Global,
    cursor: &mut Cursor<'_>,
    marks: &mut Marks<'_>,
) -> Result<ClassTrees, ClassStop>
    ensures reads { Reads (read spec.classes marks.old cursor.old) result cursor.new }
    ensures text { marks.new ≡ marks.old }
{
    let mut found = Items::new(alloc);
    'turns: while cursor.sees(Kind::Class) {
        match one_class(alloc, cursor, marks, found) {
            Ok(more) => found = more,
            Err(stop) => return Err(stop),
        }
    }
    Ok(found)
}
