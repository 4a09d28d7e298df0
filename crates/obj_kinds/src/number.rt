ghost use Rattle.std.specs.Prelude.{◌≡◌, ◌<◌, ◌≤◌, ◌^◌, IfOk, OnErr};
ghost use Rattle.obj_kinds.specs.Subscript.{IsWhole};
ghost use Rattle.obj_kinds.specs.LeadingNumber.{digits_from, with_sign, leading_number};

use crate::whole::TOO_LARGE;

/// A number has more than 18 digits.
#[derive(Clone, Copy, Debug, PartialEq, Eq)]
pub struct NumberLimit;

// The number that the digits at the front write.
fn digits_at(text: &[u8]) -> Result<u64, NumberLimit>
    ensures ok { IfOk result (λ n. (n ≡ digits_from 0 text.now) × (n < 10 ^ 18)) }
    ensures err { OnErr result (10 ^ 18 ≤ digits_from 0 text.now) }
{
    let mut value: u64 = 0;
    for byte in text {
        match *byte {
            b'0'..=b'9' => value = value * 10 + u64::from(*byte - b'0'),
            _ => return Ok(value),
        }
        if value >= TOO_LARGE {
            return Err(NumberLimit);
        }
    }
    Ok(value)
}

fn signed(negative: bool, number: u64) -> i64
    requires { number < 10 ^ 18 }
    ensures { result ≡ with_sign negative number }
{
    let number = number as i64;
    if negative { -number } else { number }
}

/// The leading number of a text: any signs `+` and `-`, each `-` turning the sign, and then digits;
/// 0 where no digit follows. It is refused exactly where its value passes 18 digits.
pub fn number_of(text: &[u8]) -> Result<i64, NumberLimit>
    ensures ok { IfOk result (λ z. (z ≡ leading_number text.now) × IsWhole z) }
    ensures limit { OnErr result (¬ IsWhole (leading_number text.now)) }
{
    let mut negative = false;
    for (at, byte) in text.iter().enumerate() {
        match *byte {
            b'-' => negative = !negative,
            b'+' => {}
            _ => return Ok(signed(negative, digits_at(&text[at..])?)),
        }
    }
    Ok(0)
}
