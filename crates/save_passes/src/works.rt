ghost use Rattle.std.specs.Prelude.{◌≡◌};
ghost use Rattle.std.specs.Option.{option_copied};
ghost use Rattle.save_passes.specs.Works.{old_in};

use item_rows::Rows;
use save_looks::SaveItem;
use save_works::Keys;
use schema_kinds::{Record, Schema};
use sqlite_items::at;

/// The records that were stored under the keys of the objects of a save, in their order; none under that of a new one.
pub type Olds = Rows<Option<Record>>;

/// The objects of a save, with what is stored under their keys.
#[derive(Clone, Copy)]
pub struct Works<'s, 'a> {
    pub schema: &'s Schema,
    /// The objects, in order.
    pub items: &'a [SaveItem],
    /// What was stored under their keys.
    pub olds: &'a [Option<Record>],
    /// The keys of all of them.
    pub put: &'a Keys,
    /// How often a lock is asked for at most, 1 or more.
    pub tries: u32,
}

/// The record that was stored under the key of the object at the place.
pub fn old_at<'a>(olds: &'a [Option<Record>], place: usize) -> Option<&'a Record>
    ensures { option_copied result ≡ old_in place olds.now }
{
    match at(olds, place) {
        Some(old) => old.as_ref(),
        None => None,
    }
}
