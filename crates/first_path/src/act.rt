use obj_kinds::Text;

/// What one line of a script does. Objects are counted from 0 in the order in which they are made,
/// properties from 0 in declared order.
#[derive(Debug, Drop)]
pub enum Act {
    /// A new object is made.
    Make,
    /// A property of an object is set to a text.
    Fill(usize, usize, Text),
    /// An object is saved.
    Save(usize),
}
