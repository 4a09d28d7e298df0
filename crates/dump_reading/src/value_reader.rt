//! Reads a value, byte by byte.

ghost use Rattle.std.specs.Prelude.{◌≡◌, ◌<◌, ◌+◌, ◌^◌, OnOk, IfOk};
ghost use Rattle.dump_reading.specs.Taking.{Takes};
ghost use Rattle.dump_reading.specs.ValueReading as spec;

use crate::lists::Lists;
use crate::place::{Place, Turn};
use crate::stop::DumpWhy;
use obj_kinds::{NoMemory, Text, Value, whole_number};
use std::alloc::Global;
use std::mem::replace;
use text_lines::LineStop;

/// Where the reading of a value stands.
#[derive(Clone, Copy, Debug, PartialEq, Eq)]
pub enum ValuePlace {
    /// Within a text or a number, or where a value must begin.
    Item(Place),
    /// Behind `$l`.
    Letter,
    /// Behind `$lb`.
    Name,
    /// Behind `$lb(`.
    Opened,
    /// Behind a list.
    Behind,
}

/// A value that is read byte by byte.
#[derive(Debug, Drop)]
pub struct ValueReader {
    pub place: ValuePlace,
    /// The text so far of the text or the number.
    pub text: Text,
    /// How many lists are open.
    pub depth: usize,
    /// What is read of each open list.
    pub lists: Lists,
    /// Whether a number passed its limit, or lists stand too deep in one another; then no more values are kept.
    pub is_over: bool,
}

impl ValueReader {
    /// Nothing is read.
    pub fn new(alloc: Global) -> ValueReader
        ensures { result ≡ spec.value_start }
    {
        ValueReader {
            place: ValuePlace::Item(Place::Start),
            text: Text::new(alloc),
            depth: 0,
            lists: Lists::new(alloc),
            is_over: false,
        }
    }

    // The text or the number is over.
    fn end_item(&mut self, alloc: Global, is_bare: bool) -> Result<(), NoMemory>
        ensures { OnOk result (self.new ≡ spec.with_item is_bare self.old) }
    {
        let text = replace(&mut self.text, Text::new(alloc));
        if is_bare && whole_number(text.as_slice()).is_none() {
            self.is_over = true;
        }
        if !self.is_over {
            self.lists.put(Value::Str(text))?;
        }
        Ok(())
    }

    // A list begins.
    fn open(&mut self, alloc: Global) -> Result<(), NoMemory>
        requires { self.old.depth + 1 < 2 ^ 64 }
        ensures { OnOk result (self.new ≡ spec.opened self.old) }
    {
        self.place = ValuePlace::Opened;
        self.depth += 1;
        if self.lists.is_full() {
            self.is_over = true;
        }
        if !self.is_over {
            self.lists.open(alloc)?;
        }
        Ok(())
    }

    // The innermost list ends; where none is open, nothing may.
    fn close(&mut self) -> Result<(), LineStop<DumpWhy>>
        ensures { Takes (spec.ended self.old) self.new result }
    {
        if self.depth == 0 {
            return Err(LineStop::Bad(DumpWhy::BadValue));
        }
        self.depth -= 1;
        self.place = ValuePlace::Behind;
        if !self.is_over {
            self.lists.close()?;
        }
        Ok(())
    }

    // Behind a value comes another one, or the end of the list.
    fn behind(&mut self, byte: u8) -> Result<(), LineStop<DumpWhy>>
        ensures { Takes (spec.behind self.old byte) self.new result }
    {
        match byte {
            b')' => self.close(),
            b',' if self.depth > 0 => {
                self.place = ValuePlace::Item(Place::Start);
                Ok(())
            }
            _ => Err(LineStop::Bad(DumpWhy::BadValue)),
        }
    }

    fn behind_item(
        &mut self,
        alloc: Global,
        is_bare: bool,
        byte: u8,
    ) -> Result<(), LineStop<DumpWhy>>
        ensures { Takes (spec.behind_item is_bare self.old byte) self.new result }
    {
        self.end_item(alloc, is_bare)?;
        self.behind(byte)
    }

    // Where no text goes on, a list may begin.
    fn letter(&mut self, place: Place, byte: u8) -> Result<(), LineStop<DumpWhy>>
        ensures { Takes (spec.letter place self.old byte) self.new result }
    {
        match place {
            Place::Dollar if byte == b'l' => {
                self.place = ValuePlace::Letter;
                Ok(())
            }
            _ => Err(LineStop::Bad(DumpWhy::BadValue)),
        }
    }

    fn item(&mut self, alloc: Global, place: Place, byte: u8) -> Result<(), LineStop<DumpWhy>>
        ensures { Takes (spec.item place self.old byte) self.new result }
    {
        match place.turn(byte) {
            Turn::Moves(next) => {
                self.place = ValuePlace::Item(next);
                Ok(())
            }
            Turn::Puts(next, byte) => {
                self.place = ValuePlace::Item(next);
                self.text.push(byte)?;
                Ok(())
            }
            Turn::Ends => self.behind_item(alloc, place.is_bare(), byte),
            Turn::Wrong => self.letter(place, byte),
        }
    }

    fn name(&mut self, byte: u8) -> Result<(), LineStop<DumpWhy>>
        ensures { Takes (spec.name self.old byte) self.new result }
    {
        if byte != b'b' {
            return Err(LineStop::Bad(DumpWhy::BadValue));
        }
        self.place = ValuePlace::Name;
        Ok(())
    }

    fn parenthesis(&mut self, alloc: Global, byte: u8) -> Result<(), LineStop<DumpWhy>>
        requires { self.old.depth + 1 < 2 ^ 64 }
        ensures { Takes (spec.parenthesis self.old byte) self.new result }
    {
        if byte != b'(' {
            return Err(LineStop::Bad(DumpWhy::BadValue));
        }
        self.open(alloc)?;
        Ok(())
    }

    fn opened(&mut self, alloc: Global, byte: u8) -> Result<(), LineStop<DumpWhy>>
        ensures { Takes (spec.behind_opening self.old byte) self.new result }
    {
        if byte == b')' {
            return self.close();
        }
        self.item(alloc, Place::Start, byte)
    }

    /// Reads one more byte. It is refused where no value goes on like this.
    #[tactic(auto, unfolding(crate::specs::ValueReading::value_step))]
    pub fn take(&mut self, alloc: Global, byte: u8) -> Result<(), LineStop<DumpWhy>>
        requires { self.old.depth + 1 < 2 ^ 64 }
        ensures { Takes (spec.value_step self.old byte) self.new result }
    {
        match self.place {
            ValuePlace::Item(place) => self.item(alloc, place, byte),
            ValuePlace::Letter => self.name(byte),
            ValuePlace::Name => self.parenthesis(alloc, byte),
            ValuePlace::Opened => self.opened(alloc, byte),
            ValuePlace::Behind => self.behind(byte),
        }
    }

    /// The bytes end: so does the last text or number. Answers whether a value is whole here.
    pub fn finish(&mut self, alloc: Global) -> Result<bool, NoMemory>
        ensures ok { OnOk result (self.new ≡ spec.finished self.old) }
        ensures whole { IfOk result (λ whole. whole ≡ spec.is_whole_value self.old) }
    {
        if self.depth > 0 {
            return Ok(false);
        }
        match self.place {
            ValuePlace::Item(place) if place.is_whole() => {
                self.end_item(alloc, place.is_bare())?;
                Ok(true)
            }
            ValuePlace::Behind => Ok(true),
            _ => Ok(false),
        }
    }

    /// The value, where it is within the limits of a value.
    pub fn into_value(self) -> Option<Value>
        ensures { result ≡ spec.value_in self }
    {
        let ValueReader { lists, is_over, .. } = self;
        if is_over {
            return None;
        }
        let value = lists.into_value()?;
        if !value.is_legal() {
            return None;
        }
        Some(value)
    }
}
