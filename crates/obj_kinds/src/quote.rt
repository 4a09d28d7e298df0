ghost use Rattle.std.specs.Prelude.{◌≡◌, ◌++◌, OnOk};
ghost use Rattle.obj_kinds.specs.Quoted.{is_plain, plain_byte, before_plain, before_code, at_end, quoted};

use crate::memory::NoMemory;
use crate::text::Text;
use itoa::Buffer;

/// Where the writing of a quoted text stands: before its first byte, in a run between quotes, or in
/// a run of codes.
#[derive(Clone, Copy, Debug)]
pub enum Run {
    Start,
    Quotes,
    Codes,
}

impl Run {
    fn before_plain(self) -> &'static [u8]
        ensures { result.now ≡ before_plain self }
    {
        match self {
            Run::Start => b"\"",
            Run::Quotes => b"",
            Run::Codes => b")_\"",
        }
    }

    fn before_code(self) -> &'static [u8]
        ensures { result.now ≡ before_code self }
    {
        match self {
            Run::Start => b"$c(",
            Run::Quotes => b"\"_$c(",
            Run::Codes => b",",
        }
    }

    fn at_end(self) -> &'static [u8]
        ensures { result.now ≡ at_end self }
    {
        match self {
            Run::Start => b"\"\"",
            Run::Quotes => b"\"",
            Run::Codes => b")",
        }
    }
}

fn push_plain(out: &mut Text, byte: u8) -> Result<(), NoMemory>
    ensures { OnOk result (out.new ≡ out.old ++ plain_byte byte) }
{
    if byte == b'"' {
        out.push(b'"')?;
    }
    out.push(byte)
}

fn is_plain_byte(byte: u8) -> bool
    ensures { result ≡ is_plain byte }
{
    matches!(byte, 32..=126)
}

/// Writes the text as a dump has it: printable bytes in runs between quotes, a quote twice, other
/// bytes in runs of codes, the runs joined by `_`. It fails only for want of memory.
#[tactic(auto, unfolding(crate::specs::Quoted::quoted))]
pub fn push_quoted(out: &mut Text, text: &[u8]) -> Result<(), NoMemory>
    ensures { OnOk result (out.new ≡ out.old ++ quoted text.now) }
{
    let mut run = Run::Start;
    for byte in text {
        if is_plain_byte(*byte) {
            out.push_slice(run.before_plain())?;
            push_plain(out, *byte)?;
            run = Run::Quotes;
        } else {
            out.push_slice(run.before_code())?;
            let mut buffer = Buffer::new();
            out.push_slice(buffer.format(*byte).as_bytes())?;
            run = Run::Codes;
        }
    }
    out.push_slice(run.at_end())
}
