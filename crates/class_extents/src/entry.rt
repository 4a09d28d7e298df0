use class_facts::Spot;

/// What has entries in the index global of an extent: an index, or a one side under its name.
#[derive(Clone, Copy, Debug, PartialEq, Eq)]
pub struct Entry {
    pub is_side: bool,
    /// Where the index, or the one side, is declared.
    pub spot: Spot,
    /// The property that an index is on, where it is on one alone and isn't unique.
    pub on: Option<Spot>,
}
