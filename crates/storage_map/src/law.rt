ghost use Rattle.storage_map.specs.Laws.{ChangesTurnOldIntoNew, ChangesTurnRows, KeysAreApart, NoOwnerNoValue, RowsBelong};

/// The kills and then the sets of a change turn the old nodes into the new ones, where no new node stands below a
/// stale one.
pub fn changes_turn_old_into_new()
    ensures { ChangesTurnOldIntoNew }
{}

/// The kills and then the sets of a change turn the rows of a record into those of another one of its class.
pub fn changes_turn_rows()
    ensures { ChangesTurnRows }
{}

/// A node that belongs to no key has no value in any world.
#[tactic(auto, unfolding(crate::specs::Worlds::image))]
pub fn nodes_without_owner_are_empty()
    ensures { NoOwnerNoValue }
{}

/// Each node at or below a key's row belongs to the key, where the key has an extent of the schema and an id of it.
pub fn rows_belong_to_their_key()
    ensures { RowsBelong }
{}

/// No node stands at or below the rows of two keys.
pub fn keys_are_apart()
    ensures { KeysAreApart }
{}
