ghost use Rattle.std.specs.Prelude.{◌≡◌, ◌&&◌, nat_lt};
ghost use Rattle.std.specs.List.{list_any};
ghost use Rattle.obj_kinds.specs.Texts.{same_text};
ghost use Rattle.obj_validity.specs.Faults.{is_indexed as has_index};
ghost use Rattle.obj_validity.specs.Values.{broken_if as fault_if, is_less as is_under, is_longer as is_over, is_more as is_above, is_truth as is_truth_text, number_fault as fault_of_number, text_fault as fault_of_text, truth_fault as fault_of_truth, whole_fault as fault_of_whole};

use obj_kinds::{Text, Why, whole_number};
use schema_kinds::{Index, Prop};

/// The most bytes of a text in a key: with the blank before it, it is a subscript.
const MAX_KEY_LEN: usize = 254;

fn broken_if(broken: bool, why: Why) -> Option<Why>
    ensures { result ≡ fault_if broken why }
{
    if broken { Some(why) } else { None }
}

fn is_longer(most: Option<u32>, len: usize) -> bool
    ensures { result ≡ is_over most len }
{
    match most {
        None => false,
        Some(most) => (most as usize) < len,
    }
}

fn is_less(least: Option<i64>, number: i64) -> bool
    ensures { result ≡ is_under least number }
{
    match least {
        None => false,
        Some(least) => number < least,
    }
}

fn is_more(most: Option<i64>, number: i64) -> bool
    ensures { result ≡ is_above most number }
{
    match most {
        None => false,
        Some(most) => most < number,
    }
}

fn has_name(names: &[Text], name: &Text) -> bool
    ensures { result ≡ list_any (same_text name.now) names.now }
{
    names.iter().any(|other| name == other)
}

fn is_indexed(indexes: &[Index], prop: &Prop) -> bool
    ensures { result ≡ has_index indexes.now prop.now }
{
    indexes
        .iter()
        .any(|index| has_name(index.props.as_slice(), &prop.name))
}

// Only a long text is looked for in indexes.
fn is_long_key(indexes: &[Index], prop: &Prop, len: usize) -> bool
    ensures { result ≡ (nat_lt 254 len && has_index indexes.now prop.now) }
{
    MAX_KEY_LEN < len && is_indexed(indexes, prop)
}

/// The first rule that a text breaks.
pub fn text_fault(prop: &Prop, indexes: &[Index], text: &[u8]) -> Option<Why>
    ensures { result ≡ fault_of_text prop.now (has_index indexes.now prop.now) text.now }
{
    if is_longer(prop.max_len, text.len()) {
        return Some(Why::TooLong);
    }
    broken_if(is_long_key(indexes, prop, text.len()), Why::KeyTooLong)
}

fn number_fault(prop: &Prop, number: Option<i64>) -> Option<Why>
    ensures { result ≡ fault_of_number prop.now number }
{
    let Some(number) = number else {
        return Some(Why::NotWhole);
    };
    if is_less(prop.min_val, number) {
        return Some(Why::TooSmall);
    }
    broken_if(is_more(prop.max_val, number), Why::TooLarge)
}

/// The first rule that a whole value breaks.
pub fn whole_fault(prop: &Prop, text: &[u8]) -> Option<Why>
    ensures { result ≡ fault_of_whole prop.now text.now }
{
    if text.is_empty() {
        return None;
    }
    number_fault(prop, whole_number(text))
}

fn is_truth(text: &[u8]) -> bool
    ensures { result ≡ is_truth_text text.now }
{
    text == b"0".as_slice() || text == b"1".as_slice()
}

/// The rule that a truth value breaks.
pub fn truth_fault(text: &[u8]) -> Option<Why>
    ensures { result ≡ fault_of_truth text.now }
{
    if text.is_empty() || is_truth(text) {
        None
    } else {
        Some(Why::NotTruth)
    }
}
