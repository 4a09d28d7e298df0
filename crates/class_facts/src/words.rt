ghost use Rattle.std.specs.Prelude.{◌≡◌};
ghost use Rattle.class_facts.specs.Words.{is_word};

use obj_kinds::Text;

/// Whether the word is given.
pub fn says(given: &Option<Text>, word: &[u8]) -> bool
    ensures { result ≡ is_word given.now word.now }
{
    match given {
        Some(text) => text.as_slice() == word,
        None => false,
    }
}
