ghost use Rattle.std.specs.Prelude.{◌≡◌};
ghost use Rattle.std.specs.Option.{option_copied, option_map};
ghost use Rattle.first_path.specs.LineReading.{new_end, set_in, new_in, value_in, fill_in, save_in};

use crate::piece::{Found, after, name_at, text_at};

// A property and the text that it is set to, and what follows the line.
#[derive(Clone, Copy)]
struct Assigned<'a> {
    prop: &'a [u8],
    text: &'a [u8],
    rest: &'a [u8],
}

// The variable of a setting, the property, its text, and what follows the line.
#[derive(Clone, Copy)]
pub(crate) struct Setting<'a> {
    pub var: &'a [u8],
    pub prop: &'a [u8],
    pub text: &'a [u8],
    pub rest: &'a [u8],
}

fn new_line_end<'a>(text: &'a [u8], class: &[u8]) -> Option<&'a [u8]>
    ensures { option_copied result ≡ new_end class.now text.now }
{
    let rest = after(text, b"=##class(")?;
    let rest = after(rest, class)?;
    let rest = after(rest, b").%New()\n")?;
    Some(rest)
}

fn set_at(text: &[u8]) -> Option<Found<'_>>
    ensures { option_map (λ f. (f.piece.now, f.rest.now)) result ≡ set_in text.now }
{
    let rest = after(text, b"Set ")?;
    let found = name_at(rest)?;
    Some(found)
}

// The variable of a line that makes an object, and what follows the line.
#[tactic(auto, unfolding(crate::specs::LineReading::new_in))]
pub(crate) fn new_line_at<'a>(text: &'a [u8], class: &[u8]) -> Option<Found<'a>>
    ensures { option_map (λ f. (f.piece.now, f.rest.now)) result ≡ new_in class.now text.now }
{
    let Found { piece, rest } = set_at(text)?;
    let rest = new_line_end(rest, class)?;
    Some(Found { piece, rest })
}

// The property and its text, and what follows the line.
#[tactic(auto, unfolding(crate::specs::LineReading::value_in))]
fn value_at(text: &[u8]) -> Option<Assigned<'_>>
    ensures { option_map (λ s. (s.prop.now, s.text.now, s.rest.now)) result ≡ value_in text.now }
{
    let rest = after(text, b".")?;
    let Found { piece: prop, rest } = name_at(rest)?;
    let rest = after(rest, b"=\"")?;
    let Found { piece: text, rest } = text_at(rest)?;
    let rest = after(rest, b"\"\n")?;
    Some(Assigned { prop, text, rest })
}

// A setting, and what follows its line.
#[tactic(auto, unfolding(crate::specs::LineReading::fill_in))]
pub(crate) fn fill_line_at(text: &[u8]) -> Option<Setting<'_>>
    ensures { option_map (λ s. (s.var.now, s.prop.now, s.text.now, s.rest.now)) result ≡ fill_in text.now }
{
    let found = set_at(text)?;
    let value = value_at(found.rest)?;
    Some(Setting {
        var: found.piece,
        prop: value.prop,
        text: value.text,
        rest: value.rest,
    })
}

// The variable of a line that saves, and what follows the line.
#[tactic(auto, unfolding(crate::specs::LineReading::save_in))]
pub(crate) fn save_line_at(text: &[u8]) -> Option<Found<'_>>
    ensures { option_map (λ f. (f.piece.now, f.rest.now)) result ≡ save_in text.now }
{
    let rest = after(text, b"Write ")?;
    let Found { piece, rest } = name_at(rest)?;
    let rest = after(rest, b".%Save(),!\n")?;
    Some(Found { piece, rest })
}
