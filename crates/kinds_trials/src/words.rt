use obj_kinds::{NoMemory, Text};
use std::alloc::Global;

/// What a row tries.
#[derive(Clone, Copy)]
pub enum Word {
    Sub,
    Str,
    Num,
    Byte,
    Name,
    Node,
    Rise,
    Id,
    Numbers,
    Order,
    Text,
    List,
    Deep,
    Same,
    Op,
    Reply,
    Error,
    Cause,
    Leading,
    Print,
    Quote,
    Copy,
    Other,
}

/// The words of rows.
const WORDS: [(&str, Word); 22] = [
    ("sub", Word::Sub),
    ("str", Word::Str),
    ("num", Word::Num),
    ("byte", Word::Byte),
    ("name", Word::Name),
    ("node", Word::Node),
    ("rise", Word::Rise),
    ("id", Word::Id),
    ("numbers", Word::Numbers),
    ("order", Word::Order),
    ("text", Word::Text),
    ("list", Word::List),
    ("deep", Word::Deep),
    ("same", Word::Same),
    ("op", Word::Op),
    ("reply", Word::Reply),
    ("error", Word::Error),
    ("cause", Word::Cause),
    ("leading", Word::Leading),
    ("print", Word::Print),
    ("quote", Word::Quote),
    ("copy", Word::Copy),
];

/// What stands before the first blank, and what stands behind it.
pub fn split_blank(row: &[u8]) -> (&[u8], &[u8]) {
    for (at, byte) in row.iter().enumerate() {
        if *byte == b' ' {
            return (&row[..at], &row[at + 1..]);
        }
    }
    (row, b"")
}

/// The word of a row, and what follows it.
pub fn word_of(row: &[u8]) -> (Word, &[u8]) {
    let (first, rest) = split_blank(row);
    for (text, word) in &WORDS {
        if first == text.as_bytes() {
            return (*word, rest);
        }
    }
    (Word::Other, rest)
}

/// The whole number that a word writes, or 0.
pub fn number_in(word: &[u8]) -> u64 {
    let Ok(text) = str::from_utf8(word) else {
        return 0;
    };
    text.parse::<u64>().unwrap_or(0)
}

/// The number that a word writes with its sign, or 0.
pub fn signed_in(word: &[u8]) -> i64 {
    let Ok(text) = str::from_utf8(word) else {
        return 0;
    };
    text.parse::<i64>().unwrap_or(0)
}

/// So many times one byte.
pub fn filled(alloc: Global, byte: u8, count: u64) -> Result<Text, NoMemory> {
    let mut text = Text::new(alloc);
    for _ in 0..count {
        text.push(byte)?;
    }
    Ok(text)
}

/// The text that a word means: `@n` is n times the letter a, any other word is itself.
pub fn text_in(alloc: Global, word: &[u8]) -> Result<Text, NoMemory> {
    match word.split_first() {
        Some((first, count)) if *first == b'@' => filled(alloc, b'a', number_in(count)),
        _ => Text::from_slice(alloc, word),
    }
}

/// Whether a thing is within its limits, in words.
pub fn legal_text(alloc: Global, is_legal: bool) -> Result<Text, NoMemory> {
    let text: &[u8] = if is_legal { b"legal" } else { b"not legal" };
    Text::from_slice(alloc, text)
}
