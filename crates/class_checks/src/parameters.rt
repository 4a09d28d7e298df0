ghost use Rattle.std.specs.Prelude.{◌≡◌, ◌||◌};
ghost use Rattle.class_checks.specs.Reasons.{is_no_number, is_below_one, bad_parameter};
ghost use Rattle.class_facts.specs.Facts.{option_any};

use class_facts::number_in_text;
use obj_kinds::Text;
use schema_kinds::PropTree;

fn is_other_text(text: &[u8]) -> bool
    ensures { result ≡ is_no_number text.now }
{
    !text.is_empty() && number_in_text(text).is_none()
}

fn is_too_low(text: &[u8]) -> bool
    ensures { result ≡ is_below_one text.now }
{
    match number_in_text(text) {
        Some(number) => number < 1,
        None => false,
    }
}

fn is_bad_bound(given: &Option<Text>) -> bool
    ensures { result ≡ option_any is_no_number given.now }
{
    match given {
        Some(text) => is_other_text(text.as_slice()),
        None => false,
    }
}

fn is_bad_len(given: &Option<Text>) -> bool
    ensures { result ≡ option_any (λ t. is_no_number t || is_below_one t) given.now }
{
    match given {
        Some(text) => is_other_text(text.as_slice()) || is_too_low(text.as_slice()),
        None => false,
    }
}

/// Whether a parameter isn't a whole number or empty, or `MAXLEN` is below 1.
pub fn has_bad_parameter(prop: &PropTree) -> bool
    ensures { result ≡ bad_parameter prop.now }
{
    is_bad_len(&prop.max_len) || is_bad_bound(&prop.min_val) || is_bad_bound(&prop.max_val)
}
