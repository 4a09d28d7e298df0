//! How rows spell bytes that a line of the input can't have, or not so many of.

use obj_kinds::{NoMemory, Text};
use std::alloc::Global;

/// What a byte of a row means.
#[derive(Clone, Copy)]
enum Mode {
    /// Itself.
    Plain,
    /// Behind a backslash: which byte is meant.
    Mark,
    /// A digit of how many of these bytes are meant, or the end of the number.
    Count(u8),
}

/// The bytes that a row has spelt so far.
#[derive(Drop)]
struct Spelling {
    text: Text,
    mode: Mode,
    count: u64,
}

impl Spelling {
    // So many of a byte, where `(` stands for the opening of a list.
    fn push_many(&mut self, byte: u8) -> Result<(), NoMemory> {
        for _ in 0..self.count {
            match byte {
                b'(' => self.text.push_slice(b"$lb(")?,
                _ => self.text.push(byte)?,
            }
        }
        Ok(())
    }

    fn mark(&mut self, byte: u8) -> Result<(), NoMemory> {
        self.mode = Mode::Plain;
        match byte {
            b'n' => self.text.push(b'\n'),
            b'r' => self.text.push(b'\r'),
            b't' => self.text.push(9),
            b'h' => self.text.push(200),
            b'\\' => self.text.push(byte),
            _ => {
                self.mode = Mode::Count(byte);
                self.count = 0;
                Ok(())
            }
        }
    }

    fn take(&mut self, byte: u8) -> Result<(), NoMemory> {
        match self.mode {
            Mode::Plain if byte == b'\\' => {
                self.mode = Mode::Mark;
                Ok(())
            }
            Mode::Plain => self.text.push(byte),
            Mode::Mark => self.mark(byte),
            Mode::Count(many) if byte == b'.' => {
                self.mode = Mode::Plain;
                self.push_many(many)
            }
            Mode::Count(_) => {
                let digit = u64::from(byte.saturating_sub(b'0'));
                self.count = self.count.saturating_mul(10).saturating_add(digit);
                Ok(())
            }
        }
    }
}

/// The bytes that a row spells: behind a backslash `n` is a line feed, `r` byte 13, `t` byte 9, `h` byte 200 and a
/// backslash itself; any other byte, a number and a dot are so many of that byte, or of `$lb(` where the byte is `(`.
pub fn spelt(alloc: Global, row: &[u8]) -> Result<Text, NoMemory> {
    let mut spelling = Spelling {
        text: Text::new(alloc),
        mode: Mode::Plain,
        count: 0,
    };
    for byte in row {
        spelling.take(*byte)?;
    }
    Ok(spelling.text)
}
