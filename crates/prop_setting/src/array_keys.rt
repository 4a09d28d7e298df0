ghost use Rattle.std.specs.Prelude.{ℕ, ◌≡◌, List, IsTrue, length, slice_get};
ghost use Rattle.std.specs.FinMap.{is_sorted};
ghost use Rattle.std.specs.Option.{option_copied};
ghost use Rattle.obj_kinds.specs.declared.sub.Sub.{Sub};
ghost use Rattle.obj_kinds.specs.SubOrder.{sub_cmp};
ghost use Rattle.oref_table.specs.Memory.{first_that};
ghost use Rattle.oref_table.specs.declared.slot.Slot.{Slot};
ghost use Rattle.schema_kinds.specs.declared.kind.Item.{Item};
ghost use Rattle.obj_shape.specs.Fitting.{TableFits};
ghost use Rattle.obj_shape.specs.Wholeness.{IsWhole};
ghost use Rattle.prop_setting.specs.Arrays.{HasArray, IsArray, is_behind, key_part, next_key};

use crate::arrays::{array_pairs, find_array};
use crate::list_calls::CollectionAt;
use obj_kinds::Sub;
use oref_table::{Slot, Table};

// The place of the first key behind one.
fn next_place(pairs: &[(Sub, Slot)], after: &Sub) -> usize
    requires { IsTrue (is_sorted sub_cmp pairs.now) }
    ensures { slice_get pairs.now result ≡ first_that (is_behind after.now) pairs.now }
{
    match pairs.binary_search_by(|pair| pair.0.compare(after)) {
        Ok(at) => at + 1,
        Err(at) => at,
    }
}

fn key_at<'a>(pairs: &'a [(Sub, Slot)], at: usize) -> Option<&'a Sub>
    ensures { option_copied result ≡ key_part (slice_get pairs.now at) }
{
    match pairs.get(at) {
        Some(pair) => Some(&pair.0),
        None => None,
    }
}

/// The first key of the array behind a key, whether an element has that or not; for none the first of all. `None` where there is none.
/// It takes no memory, and costs a search among the keys.
pub fn array_next<'a>(
    array: &CollectionAt<'_>,
    table: &'a Table,
    after: Option<&Sub>,
) -> Option<&'a Sub>
    requires whole { IsWhole array.now.schema.now }
    requires fits { TableFits array.now.schema.now table.now }
    requires array { HasArray array.now.schema.now table.now array.now.oref.0 array.now.prop.now }
    ensures { (at level : ℕ) (i : Item) (pairs : List (Sub × Slot)) → IsArray array.now.schema.now table.now array.now.oref.0 array.now.prop.now at level i pairs → option_copied result ≡ next_key (option_copied after.entry) pairs }
{
    let spot = find_array(table, array);
    let pairs = array_pairs(table, array.oref, spot.at);
    match after {
        Some(key) => key_at(pairs, next_place(pairs, key)),
        None => key_at(pairs, 0),
    }
}
