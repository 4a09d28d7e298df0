/// What is changed in the rows of a record, which stand in node order, before they are read.
#[derive(Clone, Copy)]
pub enum Spoil {
    Nothing,
    /// The nodes at these places are missing.
    Without(usize, usize),
    /// The node at the place has this text.
    Text(usize, &'static [u8]),
    /// The node at the place has a list of these texts.
    Listed(usize, &'static [&'static [u8]]),
    /// A further node stands there, by these subscripts below the row.
    Further(&'static [&'static [u8]]),
}

/// No place.
pub const NOWHERE: usize = 99;

/// Places in the table of records, with what is changed.
pub const READS: [(usize, Spoil); 53] = [
    (0, Spoil::Nothing),
    (1, Spoil::Nothing),
    (2, Spoil::Nothing),
    (3, Spoil::Nothing),
    (4, Spoil::Nothing),
    (5, Spoil::Nothing),
    (6, Spoil::Nothing),
    (7, Spoil::Nothing),
    (8, Spoil::Nothing),
    (9, Spoil::Nothing),
    // an entry at the limit of a subscript, and one past it
    (14, Spoil::Nothing),
    (15, Spoil::Nothing),
    // the row is missing, or has no list, no marker, or the marker of no class of the extent
    (0, Spoil::Without(0, NOWHERE)),
    (0, Spoil::Text(0, b"x")),
    (0, Spoil::Listed(0, &[])),
    (0, Spoil::Listed(0, &[b"~Bank.Account~", b"Ann", b"7", b""])),
    (0, Spoil::Listed(0, &[b"~Bank.Clerk~", b"Cy", b"1"])),
    // items that lack, are too many, or are no id
    (0, Spoil::Listed(0, &[b"", b"Ann", b"7"])),
    (0, Spoil::Listed(0, &[b"", b"Ann", b"7", b"", b"x"])),
    (0, Spoil::Listed(0, &[b"", b"Ann", b"7", b"x"])),
    (0, Spoil::Listed(0, &[b"", b"Ann", b"7", b"01"])),
    (0, Spoil::Listed(0, &[b"", b"Ann", b"7", b"1||2"])),
    // other items of the right form
    (0, Spoil::Listed(0, &[b"", b"Ann", b"07", b""])),
    (0, Spoil::Listed(0, &[b"", b"", b"x", b"2"])),
    // the list of a class below the root
    (2, Spoil::Without(2, NOWHERE)),
    (2, Spoil::Text(2, b"5")),
    (2, Spoil::Listed(2, &[])),
    (2, Spoil::Listed(2, &[b"5", b"6"])),
    (0, Spoil::Further(&[b"Saver"])),
    // elements of an array
    (2, Spoil::Listed(1, &[b"v"])),
    (2, Spoil::Without(1, NOWHERE)),
    (2, Spoil::Further(&[b"Notes", b"a"])),
    (2, Spoil::Further(&[b"Notes", b"a", b"x"])),
    // nodes too many
    (2, Spoil::Further(&[b"Saver", b"x"])),
    (2, Spoil::Further(&[b"Notes"])),
    (2, Spoil::Further(&[b"Notes", b"k", b"x"])),
    (2, Spoil::Further(&[b"Other"])),
    (2, Spoil::Further(&[b"1"])),
    // classes, parts and lists within one another
    (7, Spoil::Without(1, NOWHERE)),
    (7, Spoil::Without(2, NOWHERE)),
    (7, Spoil::Without(1, 2)),
    (7, Spoil::Without(2, 3)),
    (7, Spoil::Text(5, b"x")),
    (7, Spoil::Listed(5, &[b"7"])),
    (7, Spoil::Text(5, b"")),
    (7, Spoil::Listed(2, &[b"x"])),
    (7, Spoil::Listed(2, &[b""])),
    (
        7,
        Spoil::Listed(0, &[b"~Lab.Low~", b"Big one", b"3", b"1", b"x"]),
    ),
    (
        7,
        Spoil::Listed(0, &[b"~Lab.Low~", b"Big one", b"3", b"1", b""]),
    ),
    (
        7,
        Spoil::Listed(0, &[b"~Lab.Mid~", b"Big one", b"3", b"1", b""]),
    ),
    // the third case comes before the fourth, the second before the third
    (15, Spoil::Further(&[b"Other"])),
    (15, Spoil::Text(0, b"")),
    (15, Spoil::Listed(0, &[b"", b"", b"", b"", b""])),
];
