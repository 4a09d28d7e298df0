ghost use Rattle.std.specs.Prelude.{◌≡◌, List, [], ◌++◌, filter_map, option_to_list, length, get_or, None, IfOk, OnOk};
ghost use Rattle.std.specs.Option.{option_copied};
ghost use Rattle.schema_kinds.specs.Hierarchy.{chain};
ghost use Rattle.class_extents.specs.Extents.{short_at, is_array, array_at, repeats};

use class_facts::{Spot, prop_at_spot};
use obj_kinds::{NoMemory, Text};
use schema_kinds::{ClassTree, Form, NameTable, short_name_of};
use sqlite_items::Items;
use std::alloc::Global;

fn short_of(trees: &[ClassTree], class: usize) -> Option<&[u8]>
    ensures { option_copied result ≡ short_at trees.now class }
{
    match trees.get(class) {
        Some(tree) => Some(short_name_of(&tree.name)),
        None => None,
    }
}

fn push_short(
    alloc: Global,
    trees: &[ClassTree],
    class: usize,
    words: &mut Items<Text>,
) -> Result<(), NoMemory>
    ensures { OnOk result (words.new ≡ words.old ++ option_to_list (short_at trees.now class)) }
{
    match short_of(trees, class) {
        Some(short) => {
            words.push(Text::from_slice(alloc, short)?)?;
            Ok(())
        }
        None => Ok(()),
    }
}

fn first_of(firsts: &[Option<usize>], class: usize) -> Option<usize>
    ensures { result ≡ get_or firsts.now class None }
{
    match firsts.get(class) {
        Some(first) => *first,
        None => None,
    }
}

fn push_shorts(
    alloc: Global,
    trees: &[ClassTree],
    firsts: &[Option<usize>],
    most: usize,
    class: usize,
    words: &mut Items<Text>,
) -> Result<(), NoMemory>
    ensures { OnOk result (words.new ≡ words.old ++ filter_map (short_at trees.now) (chain most firsts.now class)) }
{
    let mut here = class;
    let mut left = most;
    while left > 0 {
        push_short(alloc, trees, here, words)?;
        match first_of(firsts, here) {
            Some(first) => {
                here = first;
                left -= 1;
            }
            None => return Ok(()),
        }
    }
    push_short(alloc, trees, here, words)?;
    Ok(())
}

fn is_array_form(form: &Form) -> bool
    ensures { result ≡ is_array form.now }
{
    match form {
        Form::Single => false,
        Form::List => false,
        Form::Array => true,
        Form::Relation { .. } => false,
    }
}

fn push_array(
    alloc: Global,
    trees: &[ClassTree],
    spot: Spot,
    words: &mut Items<Text>,
) -> Result<(), NoMemory>
    ensures { OnOk result (words.new ≡ words.old ++ option_to_list (array_at trees.now spot)) }
{
    if let Some(prop) = prop_at_spot(trees, spot) {
        if is_array_form(&prop.form) {
            words.push(prop.name.copy(alloc)?)?;
        }
    }
    Ok(())
}

fn push_arrays(
    alloc: Global,
    trees: &[ClassTree],
    spots: &[Spot],
    words: &mut Items<Text>,
) -> Result<(), NoMemory>
    ensures { OnOk result (words.new ≡ words.old ++ filter_map (array_at trees.now) spots.now) }
{
    for spot in spots {
        push_array(alloc, trees, *spot, words)?;
    }
    Ok(())
}

/// The names of the subnodes of a row: the short names of the classes up to the root, and the names of the arrays.
pub fn find_subnodes(
    alloc: Global,
    trees: &[ClassTree],
    firsts: &[Option<usize>],
    class: usize,
    spots: &[Spot],
) -> Result<Items<Text>, NoMemory>
    ensures { IfOk result (λ words. words ≡ filter_map (short_at trees.now) (chain (length trees.now) firsts.now class) ++ filter_map (array_at trees.now) spots.now) }
{
    let mut words = Items::new(alloc);
    push_shorts(alloc, trees, firsts, trees.len(), class, &mut words)?;
    push_arrays(alloc, trees, spots, &mut words)?;
    Ok(words)
}

/// Whether two of the words are equal.
pub fn has_repeated_word(alloc: Global, words: &[Text]) -> Result<bool, NoMemory>
    ensures { IfOk result (λ answer. answer ≡ repeats [] words.now) }
{
    let mut seen = NameTable::new(alloc);
    for word in words {
        if !seen.insert(word.copy(alloc)?)? {
            return Ok(true);
        }
    }
    Ok(false)
}
