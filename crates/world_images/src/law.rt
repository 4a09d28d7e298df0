ghost use Rattle.world_images.specs.Images.{NodesBelong, NodesAreApart, ImageIsUnion, ImagesChangeAtKeys, ChangesTurnEntries, ChangesTurnNodes};

/// Each node of a record, its entries among them, belongs to the record's key.
pub fn nodes_belong_to_their_key()
    ensures { NodesBelong }
{}

/// No node is one of the records of two keys.
pub fn nodes_are_apart()
    ensures { NodesAreApart }
{}

/// The image of a world has the values that its records have at their nodes, and no others.
#[tactic(auto, unfolding(storage_map::specs::Worlds::image))]
pub fn images_are_unions()
    ensures { ImageIsUnion }
{}

/// In a world with one key more, changed or less, only the nodes of this key have other values.
#[tactic(auto, unfolding(storage_map::specs::Worlds::image))]
pub fn images_change_at_keys()
    ensures { ImagesChangeAtKeys }
{}

/// The kills and then the sets of a change turn the entries of a record into those of another one of its class,
/// where entries of one name have as many values.
pub fn changes_turn_entries()
    ensures { ChangesTurnEntries }
{}

/// The changes between two records of a class turn the nodes of the one into those of the other, where entries of one
/// name in the extent have as many values; the nodes of all other keys stay.
pub fn changes_turn_nodes()
    ensures { ChangesTurnNodes }
{}
