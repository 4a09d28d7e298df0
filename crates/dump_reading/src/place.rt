//! How the spelling of a text or a number goes on, byte by byte.

ghost use Rattle.std.specs.Prelude.{◌≡◌};
ghost use Rattle.dump_reading.specs.Places as spec;
ghost use Rattle.obj_kinds.specs.LeadingNumber.{is_digit};
ghost use Rattle.obj_kinds.specs.Quoted.{is_plain};

/// Where the reading of a text or of a bare number stands.
#[derive(Clone, Copy, Debug, PartialEq, Eq)]
pub enum Place {
    /// Nothing is read.
    Start,
    /// Behind the quote that opens a text.
    Opened,
    /// Behind two quotes: the empty text, unless a third one follows.
    Emptied,
    /// Within quotes, behind a byte.
    Inside,
    /// Behind a quote that closes a run, unless another one follows.
    Quote,
    /// Behind the `_` that joins codes to a run in quotes.
    Joined,
    /// Behind `$` at the start.
    Dollar,
    /// Behind `$` of codes that were joined to a run in quotes.
    JoinedDollar,
    /// Behind `$c`.
    Letter,
    /// Where a code must begin: behind `$c(`, or behind a comma.
    Number,
    /// Behind the digits of a code.
    Code(u8),
    /// Behind `)`.
    Closed,
    /// Behind the `_` that joins a run in quotes to codes.
    Rejoined,
    /// Behind the quote that opens a run that was joined to codes.
    Reopened,
    /// Behind another quote, which is one of two.
    Requoted,
    /// Behind the `-` of a bare number.
    Minus,
    /// Behind the bare number 0.
    Zero,
    /// Behind digits of a bare number that doesn't begin with 0.
    Digits,
}

/// What the next byte does.
#[derive(Clone, Copy, Debug, PartialEq, Eq)]
pub enum Turn {
    /// The spelling goes on.
    Moves(Place),
    /// The spelling goes on, and one more byte of the text is known.
    Puts(Place, u8),
    /// The spelling is over before this byte.
    Ends,
    /// No spelling goes on like this.
    Wrong,
}

// Whether a byte stands for itself between quotes: printable, and no quote is taken for another.
fn is_plain(byte: u8) -> bool
    ensures { result ≡ is_plain byte }
{
    matches!(byte, 32..=126)
}

fn is_digit(byte: u8) -> bool
    ensures { result ≡ is_digit byte }
{
    matches!(byte, b'0'..=b'9')
}

// Between quotes.
fn inside_or(at_quote: Place, byte: u8) -> Turn
    ensures { result ≡ spec.inside_or at_quote byte }
{
    if byte == b'"' {
        Turn::Moves(at_quote)
    } else if is_plain(byte) {
        Turn::Puts(Place::Inside, byte)
    } else {
        Turn::Wrong
    }
}

// Behind a quote that may be the first of two.
fn doubled_or(otherwise: Turn, byte: u8) -> Turn
    ensures { result ≡ spec.doubled_or otherwise byte }
{
    if byte == b'"' {
        Turn::Puts(Place::Inside, b'"')
    } else {
        otherwise
    }
}

// Where one byte alone goes on.
fn only(wanted: u8, then: Place, otherwise: Turn, byte: u8) -> Turn
    ensures { result ≡ spec.only wanted then otherwise byte }
{
    if byte == wanted {
        Turn::Moves(then)
    } else {
        otherwise
    }
}

// A code's first digit.
fn first_digit(byte: u8) -> Turn
    ensures { result ≡ spec.first_digit byte }
{
    if is_digit(byte) {
        Turn::Moves(Place::Code(byte - b'0'))
    } else {
        Turn::Wrong
    }
}

// One more digit of a code: none follows 0, and a byte is at most 255.
fn more_digits(code: u8, byte: u8) -> Turn
    ensures { result ≡ spec.more_digits code byte }
{
    let more = u32::from(code) * 10 + u32::from(byte.saturating_sub(b'0'));
    if is_digit(byte) && code > 0 && more <= 255 {
        Turn::Moves(Place::Code(more as u8))
    } else {
        Turn::Wrong
    }
}

// Behind a code: it is over at a comma or at `)`, and is none of a byte that stands for itself.
fn behind_code(code: u8, byte: u8) -> Turn
    ensures { result ≡ spec.behind_code code byte }
{
    if is_plain(code) {
        return more_digits(code, byte);
    }
    match byte {
        b',' => Turn::Puts(Place::Number, code),
        b')' => Turn::Puts(Place::Closed, code),
        _ => more_digits(code, byte),
    }
}

// A bare number's digit behind others, or behind `-`.
fn digit_or(otherwise: Turn, byte: u8) -> Turn
    ensures { result ≡ spec.digit_or otherwise byte }
{
    if is_digit(byte) {
        Turn::Puts(Place::Digits, byte)
    } else {
        otherwise
    }
}

// Where a text or a bare number begins.
fn at_start(byte: u8) -> Turn
    ensures { result ≡ spec.at_start byte }
{
    match byte {
        b'"' => Turn::Moves(Place::Opened),
        b'$' => Turn::Moves(Place::Dollar),
        b'-' => Turn::Puts(Place::Minus, b'-'),
        b'0' => Turn::Puts(Place::Zero, b'0'),
        _ => digit_or(Turn::Wrong, byte),
    }
}

// Behind the `-` of a bare number: no 0 begins it.
fn behind_minus(byte: u8) -> Turn
    ensures { result ≡ spec.behind_minus byte }
{
    if byte == b'0' {
        Turn::Wrong
    } else {
        digit_or(Turn::Wrong, byte)
    }
}

impl Place {
    // Within a run in quotes, or behind one.
    fn turn_in_quotes(self, byte: u8) -> Turn
        ensures { result ≡ spec.turn_in_quotes self byte }
    {
        match self {
            Place::Opened => inside_or(Place::Emptied, byte),
            Place::Emptied => doubled_or(Turn::Ends, byte),
            Place::Inside => inside_or(Place::Quote, byte),
            Place::Quote => doubled_or(only(b'_', Place::Joined, Turn::Ends, byte), byte),
            Place::Reopened => inside_or(Place::Requoted, byte),
            Place::Requoted => doubled_or(Turn::Wrong, byte),
            _ => Turn::Wrong,
        }
    }

    // Within codes, or behind them.
    fn turn_in_codes(self, byte: u8) -> Turn
        ensures { result ≡ spec.turn_in_codes self byte }
    {
        match self {
            Place::Joined => only(b'$', Place::JoinedDollar, Turn::Wrong, byte),
            Place::Dollar | Place::JoinedDollar => only(b'c', Place::Letter, Turn::Wrong, byte),
            Place::Letter => only(b'(', Place::Number, Turn::Wrong, byte),
            Place::Number => first_digit(byte),
            Place::Code(code) => behind_code(code, byte),
            Place::Closed => only(b'_', Place::Rejoined, Turn::Ends, byte),
            Place::Rejoined => only(b'"', Place::Reopened, Turn::Wrong, byte),
            _ => Turn::Wrong,
        }
    }

    /// What the next byte does: texts are spelt as runs of printable bytes in quotes, a quote twice, and runs of codes of
    /// the other bytes, the runs joined by `_`; numbers are spelt bare, in their canonical form, of any length.
    #[tactic(auto, unfolding(crate::specs::Places::turn))]
    pub fn turn(self, byte: u8) -> Turn
        ensures { result ≡ spec.turn self byte }
    {
        match self {
            Place::Start => at_start(byte),
            Place::Minus => behind_minus(byte),
            Place::Zero => Turn::Ends,
            Place::Digits => digit_or(Turn::Ends, byte),
            Place::Opened
            | Place::Emptied
            | Place::Inside
            | Place::Quote
            | Place::Reopened
            | Place::Requoted => self.turn_in_quotes(byte),
            _ => self.turn_in_codes(byte),
        }
    }

    /// Whether a text or a number is whole here.
    #[tactic(auto, unfolding(crate::specs::Places::is_whole))]
    pub fn is_whole(self) -> bool
        ensures { result ≡ spec.is_whole self }
    {
        matches!(
            self,
            Place::Emptied | Place::Quote | Place::Closed | Place::Zero | Place::Digits
        )
    }

    /// Whether what is read is a bare number.
    #[tactic(auto, unfolding(crate::specs::Places::is_bare))]
    pub fn is_bare(self) -> bool
        ensures { result ≡ spec.is_bare self }
    {
        matches!(self, Place::Zero | Place::Digits)
    }
}
