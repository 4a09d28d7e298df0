//! Bytes of a class file.

ghost use Rattle.std.specs.Prelude.{◌≡◌, ◌≢◌, ◌<◌, ◌≤◌, length, slice_index};
ghost use Rattle.class_tokens.specs.ClassBytes as spec;

/// A set of bytes.
#[derive(Clone, Copy, Debug)]
pub enum Set {
    Zeros,
    Digits,
    /// Letters and digits.
    Word,
    /// All that may stand in a line.
    Line,
}

/// Whether a class file may have the byte.
pub fn is_ascii(b: u8) -> bool
    ensures { result ≡ spec.is_ascii b }
{
    b == 9 || b == 10 || b == 13 || (32 <= b && b <= 126)
}

fn is_in(set: Set, b: u8) -> bool
    ensures { result ≡ spec.is_in set b }
{
    match set {
        Set::Zeros => b == b'0',
        Set::Digits => b.is_ascii_digit(),
        Set::Word => b.is_ascii_alphanumeric(),
        Set::Line => b != 10 && is_ascii(b),
    }
}

/// The byte there, or 0 behind the end.
pub fn byte(z: &[u8], at: usize) -> u8
    ensures value { result ≡ slice_index z.now at }
    ensures within { result ≢ 0 → at < length z.now }
{
    if at < z.len() { z[at] } else { 0 }
}

/// The first place from `at` on whose byte is not of the set.
pub fn past(set: Set, z: &[u8], at: usize) -> usize
    requires { at ≤ length z.now }
    ensures value { result ≡ spec.past set z.now at }
    ensures within { (at ≤ result) × (result ≤ length z.now) }
{
    let mut end = at;
    while end < z.len() && is_in(set, z[end]) {
        end += 1;
    }
    end
}
