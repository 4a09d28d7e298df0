ghost use Rattle.std.specs.Prelude.{◌≡◌, ◌<◌};
ghost use Rattle.std.specs.Option.{option_copied};
ghost use Rattle.schema_kinds.specs.Hierarchy.{same_text};
ghost use Rattle.class_facts.specs.Trees.{prop_at, index_at};

use crate::spots::Spot;
use obj_kinds::ClassName;
use schema_kinds::{ClassTree, Index, PropTree};

/// The property that is declared at a spot.
pub fn prop_at_spot(trees: &[ClassTree], spot: Spot) -> Option<&PropTree>
    ensures { option_copied result ≡ prop_at trees.now spot }
{
    match trees.get(spot.class) {
        Some(tree) => tree.props.get(spot.place),
        None => None,
    }
}

/// The index that is declared at a spot.
pub fn index_at_spot(trees: &[ClassTree], spot: Spot) -> Option<&Index>
    ensures { option_copied result ≡ index_at trees.now spot }
{
    match trees.get(spot.class) {
        Some(tree) => tree.indexes.get(spot.place),
        None => None,
    }
}

/// Whether a class has that name.
pub fn is_named(name: &ClassName, word: &[u8]) -> bool
    ensures { result ≡ same_text name.now.0 word.now }
{
    name.0.as_slice() == word
}
