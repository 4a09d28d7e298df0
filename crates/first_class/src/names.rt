ghost use Rattle.std.specs.Prelude.{◌≡◌};
ghost use Rattle.std.specs.List.{list_all};
ghost use Rattle.first_class.specs.Names.{is_letter, is_alphanumeric, is_name as name_test};

/// Whether the byte is an ASCII letter.
pub fn is_letter_byte(byte: u8) -> bool
    ensures { result ≡ is_letter byte }
{
    matches!(byte, b'A'..=b'Z' | b'a'..=b'z')
}

/// Whether the byte is an ASCII letter or a digit.
pub fn is_alphanumeric_byte(byte: u8) -> bool
    ensures { result ≡ is_alphanumeric byte }
{
    matches!(byte, b'A'..=b'Z' | b'a'..=b'z' | b'0'..=b'9')
}

fn are_alphanumeric(bytes: &[u8]) -> bool
    ensures { result ≡ list_all is_alphanumeric bytes.now }
{
    bytes.iter().all(|byte| is_alphanumeric_byte(*byte))
}

/// Whether the text is a name: a letter and then letters and digits, at most 31 bytes.
pub fn is_name(text: &[u8]) -> bool
    ensures { result ≡ name_test text.now }
{
    match text.split_first() {
        None => false,
        Some((first, others)) => {
            is_letter_byte(*first) && are_alphanumeric(others) && others.len() <= 30
        }
    }
}
