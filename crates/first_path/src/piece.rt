ghost use Rattle.std.specs.Prelude.{◌≡◌, ◌≤◌, length};
ghost use Rattle.std.specs.Option.{option_copied, option_map};
ghost use Rattle.first_class.specs.Names.{is_alphanumeric};
ghost use Rattle.first_path.specs.Pieces.{after as after_literal, span, is_text_byte as text_byte_test, is_short, name_in, text_in};

use first_class::{is_alphanumeric_byte, is_name};

/// The most bytes of a text that a script sets.
const MAX_TEXT_LEN: usize = 50;

// A piece of a line that was found, and what follows it.
#[derive(Clone, Copy)]
pub(crate) struct Found<'a> {
    pub piece: &'a [u8],
    pub rest: &'a [u8],
}

// What follows the literal.
pub(crate) fn after<'a>(text: &'a [u8], literal: &[u8]) -> Option<&'a [u8]>
    ensures { option_copied result ≡ after_literal literal.now text.now }
{
    match (literal.split_first(), text.split_first()) {
        (None, _) => Some(text),
        (Some(_), None) => None,
        (Some((byte, literal)), Some((first, text))) => {
            if *byte == *first {
                after(text, literal)
            } else {
                None
            }
        }
    }
}

fn is_text_byte(byte: u8) -> bool
    ensures { result ≡ text_byte_test byte }
{
    matches!(byte, 32..=126) && byte != b'"'
}

fn name_len(text: &[u8]) -> usize
    ensures len { result ≡ span is_alphanumeric text.now }
    ensures within { result ≤ length text.now }
{
    for (at, byte) in text.iter().enumerate() {
        if !is_alphanumeric_byte(*byte) {
            return at;
        }
    }
    text.len()
}

fn text_len(text: &[u8]) -> usize
    ensures len { result ≡ span text_byte_test text.now }
    ensures within { result ≤ length text.now }
{
    for (at, byte) in text.iter().enumerate() {
        if !is_text_byte(*byte) {
            return at;
        }
    }
    text.len()
}

// The name at the front, and what follows it.
pub(crate) fn name_at(text: &[u8]) -> Option<Found<'_>>
    ensures { option_map (λ f. (f.piece.now, f.rest.now)) result ≡ name_in text.now }
{
    let (piece, rest) = text.split_at(name_len(text));
    if is_name(piece) {
        Some(Found { piece, rest })
    } else {
        None
    }
}

// The text of a property at the front, up to a quote, and what follows it.
pub(crate) fn text_at(text: &[u8]) -> Option<Found<'_>>
    ensures { option_map (λ f. (f.piece.now, f.rest.now)) result ≡ text_in text.now }
{
    let (piece, rest) = text.split_at(text_len(text));
    if piece.len() <= MAX_TEXT_LEN {
        Some(Found { piece, rest })
    } else {
        None
    }
}
