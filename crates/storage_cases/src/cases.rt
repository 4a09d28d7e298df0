/// What a field holds, as the table tells it.
#[derive(Clone, Copy)]
pub enum Told {
    Text(&'static [u8]),
    /// So many letters `a`.
    Letters(usize),
    /// The id of a target.
    Target(u64),
    NoTarget,
    NoPart,
    /// A part of a text and of a part of texts.
    PartInPart(&'static [u8], &'static [&'static [u8]]),
    List(&'static [&'static [u8]]),
    Map(&'static [(&'static [u8], &'static [u8])]),
    /// Parts of texts by key.
    MapOfParts(&'static [(&'static [u8], &'static [&'static [u8]])]),
}

/// A record with its key.
#[derive(Clone, Copy)]
pub struct Case {
    pub extent: &'static [u8],
    pub id: u64,
    pub class: &'static [u8],
    pub fields: &'static [Told],
}

pub const RECORDS: [Case; 16] = [
    Case {
        extent: b"Bank.Account",
        id: 1,
        class: b"Bank.Account",
        fields: &[Told::Text(b"Ann"), Told::Text(b"7"), Told::NoTarget],
    },
    Case {
        extent: b"Bank.Account",
        id: 2,
        class: b"Bank.Account",
        fields: &[Told::Text(b"Bob"), Told::Text(b""), Told::Target(1)],
    },
    Case {
        extent: b"Bank.Account",
        id: 1,
        class: b"Bank.Saver",
        fields: &[
            Told::Text(b"Ann"),
            Told::Text(b""),
            Told::NoTarget,
            Told::Text(b"5"),
            Told::Map(&[(b"k", b"v")]),
        ],
    },
    Case {
        extent: b"Bank.Account",
        id: 3,
        class: b"Bank.Saver",
        fields: &[
            Told::Text(b""),
            Told::Text(b""),
            Told::NoTarget,
            Told::Text(b""),
            Told::Map(&[(b"9", b"z"), (b"10", b"y"), (b"b", b"x")]),
        ],
    },
    Case {
        extent: b"Bank.Branch",
        id: 1,
        class: b"Bank.Branch",
        fields: &[Told::Text(b"North")],
    },
    Case {
        extent: b"Bank.Clerk",
        id: 1,
        class: b"Bank.Clerk",
        fields: &[Told::Text(b"Cy"), Told::Target(1)],
    },
    Case {
        extent: b"Bank.Clerk",
        id: 2,
        class: b"Bank.Clerk",
        fields: &[Told::Text(b"Di"), Told::NoTarget],
    },
    Case {
        extent: b"Lab.Base",
        id: 12,
        class: b"Lab.Low",
        fields: &[
            Told::Text(b"Big one"),
            Told::Text(b"3"),
            Told::Text(b"1"),
            Told::List(&[b"a", b"2"]),
            Told::PartInPart(b"hall", &[b"4", b"m"]),
            Told::Map(&[(b"1", b"10"), (b"x", b"")]),
            Told::Text(b"n"),
            Told::MapOfParts(&[(b"2", &[b"7", b""])]),
        ],
    },
    Case {
        extent: b"Lab.Base",
        id: 5,
        class: b"Lab.Base",
        fields: &[
            Told::Text(b""),
            Told::Text(b""),
            Told::Text(b""),
            Told::List(&[]),
        ],
    },
    Case {
        extent: b"Lab.Base",
        id: 6,
        class: b"Lab.Mid",
        fields: &[
            Told::Text(b"zAz[`{@"),
            Told::Text(b""),
            Told::Text(b""),
            Told::List(&[]),
            Told::NoPart,
            Told::Map(&[]),
        ],
    },
    Case {
        extent: b"Bank.Account",
        id: 1,
        class: b"Bank.Account",
        fields: &[Told::Text(b"Ann"), Told::Text(b"8"), Told::Target(2)],
    },
    Case {
        extent: b"Bank.Account",
        id: 1,
        class: b"Bank.Saver",
        fields: &[
            Told::Text(b"Ann"),
            Told::Text(b""),
            Told::NoTarget,
            Told::Text(b"5"),
            Told::Map(&[(b"a", b"w"), (b"k", b"v")]),
        ],
    },
    Case {
        extent: b"Bank.Account",
        id: 1,
        class: b"Bank.Saver",
        fields: &[
            Told::Text(b"Ann"),
            Told::Text(b""),
            Told::NoTarget,
            Told::Text(b"5"),
            Told::Map(&[(b"a", b"w"), (b"b", b"x")]),
        ],
    },
    Case {
        extent: b"Bank.Clerk",
        id: 1,
        class: b"Bank.Clerk",
        fields: &[Told::Text(b"Cy"), Told::Target(2)],
    },
    Case {
        extent: b"Lab.Base",
        id: 7,
        class: b"Lab.Base",
        fields: &[
            Told::Letters(254),
            Told::Text(b""),
            Told::Text(b""),
            Told::List(&[]),
        ],
    },
    Case {
        extent: b"Lab.Base",
        id: 7,
        class: b"Lab.Base",
        fields: &[
            Told::Letters(255),
            Told::Text(b""),
            Told::Text(b""),
            Told::List(&[]),
        ],
    },
];

/// Places of an old and a new record in the table; 99 is none.
pub const CHANGES: [(usize, usize); 6] = [(0, 10), (11, 12), (99, 5), (5, 99), (0, 0), (5, 13)];

/// Extents, and the first item of a row.
pub const MARKERS: [(&'static [u8], &'static [u8]); 8] = [
    (b"Bank.Account", b""),
    (b"Bank.Account", b"~Bank.Saver~"),
    (b"Bank.Account", b"~Bank.Account~"),
    (b"Bank.Account", b"~Bank.Clerk~"),
    (b"Bank.Account", b"Bank.Saver"),
    (b"Bank.Account", b"~Bank.Saver"),
    (b"Lab.Base", b"~Lab.Low~"),
    (b"Lab.Base", b"~Lab.Spot~"),
];
