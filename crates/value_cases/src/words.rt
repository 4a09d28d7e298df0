/// What a row tries.
#[derive(Clone, Copy)]
pub enum Word {
    Add,
    Subtract,
    Multiply,
    Quotient,
    Modulo,
    Join,
    Equal,
    Less,
    Greater,
    AtMost,
    AtLeast,
    Contains,
    Follows,
    And,
    Or,
    Plus,
    Minus,
    Not,
    Truth,
    Length,
    Extract,
    Ascii,
    Char,
    Find,
    Piece,
    ListBuild,
    List,
    ListLength,
    Other,
}

/// The words of rows.
const WORDS: [(&str, Word); 28] = [
    ("add", Word::Add),
    ("subtract", Word::Subtract),
    ("multiply", Word::Multiply),
    ("quotient", Word::Quotient),
    ("modulo", Word::Modulo),
    ("join", Word::Join),
    ("equal", Word::Equal),
    ("less", Word::Less),
    ("greater", Word::Greater),
    ("at_most", Word::AtMost),
    ("at_least", Word::AtLeast),
    ("contains", Word::Contains),
    ("follows", Word::Follows),
    ("and", Word::And),
    ("or", Word::Or),
    ("plus", Word::Plus),
    ("minus", Word::Minus),
    ("not", Word::Not),
    ("truth", Word::Truth),
    ("length", Word::Length),
    ("extract", Word::Extract),
    ("ascii", Word::Ascii),
    ("char", Word::Char),
    ("find", Word::Find),
    ("piece", Word::Piece),
    ("list_build", Word::ListBuild),
    ("list", Word::List),
    ("list_length", Word::ListLength),
];

/// The word that the text is.
pub fn word_of(word: &[u8]) -> Word {
    for (text, named) in &WORDS {
        if word == text.as_bytes() {
            return *named;
        }
    }
    Word::Other
}
