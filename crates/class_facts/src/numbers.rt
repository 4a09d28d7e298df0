ghost use Rattle.std.specs.Prelude.{◌≡◌};
ghost use Rattle.class_facts.specs.Numbers.{skip_zeros, unsigned, number_of};
ghost use Rattle.obj_kinds.specs.Subscript.{whole_of};

use obj_kinds::whole_number;

fn without_zeros(digits: &[u8]) -> &[u8]
    ensures { result.now ≡ skip_zeros digits.now }
{
    let mut left = digits;
    while let Some((digit, rest)) = left.split_first() {
        if *digit != b'0' || rest.is_empty() {
            return left;
        }
        left = rest;
    }
    left
}

fn unsigned_number(digits: &[u8]) -> Option<i64>
    ensures { result ≡ unsigned (whole_of digits.now) }
{
    match whole_number(digits) {
        Some(number) => if number < 0 { None } else { Some(number) },
        None => None,
    }
}

/// The number that digits write after their leading zeros, with a minus sign or without.
pub fn number_in_text(text: &[u8]) -> Option<i64>
    ensures { result ≡ number_of text.now }
{
    match text.split_first() {
        None => None,
        Some((sign, digits)) => {
            if *sign == b'-' {
                match unsigned_number(without_zeros(digits)) {
                    Some(number) => Some(-number),
                    None => None,
                }
            } else {
                unsigned_number(without_zeros(text))
            }
        }
    }
}
