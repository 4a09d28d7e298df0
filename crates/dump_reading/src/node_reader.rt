//! Reads a node, byte by byte.

ghost use Rattle.std.specs.Prelude.{◌≡◌, IfOk, OnOk};
ghost use Rattle.obj_kinds.specs.Limits.{is_global_first, is_global_byte};
ghost use Rattle.dump_reading.specs.Taking.{Takes};
ghost use Rattle.dump_reading.specs.NodeReading as spec;

use crate::place::{Place, Turn};
use crate::stop::DumpWhy;
use obj_kinds::{NoMemory, Node, Sub, SubError, Subs, Text, whole_number};
use sqlite_items::Items;
use std::alloc::Global;
use std::mem::replace;
use text_lines::LineStop;

/// Where the reading of a node stands.
#[derive(Clone, Copy, Debug, PartialEq, Eq)]
pub enum NodePlace {
    /// Nothing is read.
    Caret,
    /// Behind `^`.
    First,
    /// Within the name of the global.
    Name,
    /// Behind a dot in the name.
    Dot,
    /// Within a subscript.
    Sub(Place),
    /// Behind the `)` of the subscripts.
    Behind,
}

/// A node that is read byte by byte.
#[derive(Debug, Drop)]
pub struct NodeReader {
    pub place: NodePlace,
    /// The name of the global so far.
    pub global: Text,
    /// The text of the subscript so far.
    pub text: Text,
    /// The subscripts before it.
    pub subs: Subs,
    /// Whether a subscript passed a limit.
    pub is_over: bool,
}

fn is_global_first(byte: u8) -> bool
    ensures { result ≡ is_global_first byte }
{
    byte.is_ascii_alphabetic() || byte == b'%'
}

fn is_global_byte(byte: u8) -> bool
    ensures { result ≡ is_global_byte byte }
{
    byte.is_ascii_alphanumeric() || byte == b'%' || byte == b'.'
}

// The bare number as a subscript; `None` where it has more than 18 digits.
#[tactic(auto, unfolding(crate::specs::NodeReading::number_sub))]
fn number_sub(text: &[u8]) -> Option<Sub>
    ensures { result ≡ spec.number_sub text.now }
{
    match whole_number(text) {
        Some(number) => Some(Sub::Num(number)),
        None => None,
    }
}

// The subscript of a text in quotes; `None` where it has no byte, or too many.
#[tactic(auto, unfolding(crate::specs::NodeReading::quoted_sub))]
fn quoted_sub(alloc: Global, text: &[u8]) -> Result<Option<Sub>, NoMemory>
    ensures { IfOk result (λ sub. sub ≡ spec.quoted_sub text.now) }
{
    match Sub::from_text(alloc, text) {
        Ok(sub) => Ok(Some(sub)),
        Err(SubError::NoMemory) => Err(NoMemory),
        Err(_) => Ok(None),
    }
}

// The subscript of this text; `None` where it passes a limit.
fn spelt_sub(alloc: Global, is_bare: bool, text: &[u8]) -> Result<Option<Sub>, NoMemory>
    ensures { IfOk result (λ sub. sub ≡ spec.spelt_sub is_bare text.now) }
{
    if is_bare {
        return Ok(number_sub(text));
    }
    quoted_sub(alloc, text)
}

impl NodeReader {
    /// Nothing is read.
    pub fn new(alloc: Global) -> NodeReader
        ensures { result ≡ spec.node_start }
    {
        NodeReader {
            place: NodePlace::Caret,
            global: Text::new(alloc),
            text: Text::new(alloc),
            subs: Items::new(alloc),
            is_over: false,
        }
    }

    /// Whether a node may end here.
    pub fn is_whole(&self) -> bool
        ensures { result ≡ spec.is_whole_node self.now }
    {
        matches!(self.place, NodePlace::Name | NodePlace::Behind)
    }

    fn caret(&mut self, byte: u8) -> Result<(), LineStop<DumpWhy>>
        ensures { Takes (spec.caret self.old byte) self.new result }
    {
        if byte != b'^' {
            return Err(LineStop::Bad(DumpWhy::BadNode));
        }
        self.place = NodePlace::First;
        Ok(())
    }

    fn first(&mut self, byte: u8) -> Result<(), LineStop<DumpWhy>>
        ensures { Takes (spec.first self.old byte) self.new result }
    {
        if !is_global_first(byte) {
            return Err(LineStop::Bad(DumpWhy::BadNode));
        }
        self.place = NodePlace::Name;
        self.global.push(byte)?;
        Ok(())
    }

    fn name_goes_on(&mut self, byte: u8) -> Result<(), LineStop<DumpWhy>>
        ensures { Takes (spec.name_goes_on self.old byte) self.new result }
    {
        if !is_global_byte(byte) {
            return Err(LineStop::Bad(DumpWhy::BadNode));
        }
        self.place = if byte == b'.' {
            NodePlace::Dot
        } else {
            NodePlace::Name
        };
        self.global.push(byte)?;
        Ok(())
    }

    fn name(&mut self, byte: u8) -> Result<(), LineStop<DumpWhy>>
        ensures { Takes (spec.name self.old byte) self.new result }
    {
        if byte == b'(' {
            self.place = NodePlace::Sub(Place::Start);
            return Ok(());
        }
        self.name_goes_on(byte)
    }

    // The subscript is over.
    fn end_sub(&mut self, alloc: Global, is_bare: bool) -> Result<(), NoMemory>
        ensures { OnOk result (self.new ≡ spec.with_sub is_bare self.old) }
    {
        let text = replace(&mut self.text, Text::new(alloc));
        match spelt_sub(alloc, is_bare, text.as_slice())? {
            Some(sub) => self.subs.push(sub)?,
            None => self.is_over = true,
        }
        Ok(())
    }

    fn behind_sub(
        &mut self,
        alloc: Global,
        is_bare: bool,
        byte: u8,
    ) -> Result<(), LineStop<DumpWhy>>
        ensures { Takes (spec.behind_sub is_bare self.old byte) self.new result }
    {
        let then = match byte {
            b',' => NodePlace::Sub(Place::Start),
            b')' => NodePlace::Behind,
            _ => return Err(LineStop::Bad(DumpWhy::BadNode)),
        };
        self.end_sub(alloc, is_bare)?;
        self.place = then;
        Ok(())
    }

    fn sub(&mut self, alloc: Global, place: Place, byte: u8) -> Result<(), LineStop<DumpWhy>>
        ensures { Takes (spec.sub place self.old byte) self.new result }
    {
        match place.turn(byte) {
            Turn::Moves(next) => {
                self.place = NodePlace::Sub(next);
                Ok(())
            }
            Turn::Puts(next, byte) => {
                self.place = NodePlace::Sub(next);
                self.text.push(byte)?;
                Ok(())
            }
            Turn::Ends => self.behind_sub(alloc, place.is_bare(), byte),
            Turn::Wrong => Err(LineStop::Bad(DumpWhy::BadNode)),
        }
    }

    /// Reads one more byte. It is refused where no node goes on like this.
    #[tactic(auto, unfolding(crate::specs::NodeReading::node_step))]
    pub fn take(&mut self, alloc: Global, byte: u8) -> Result<(), LineStop<DumpWhy>>
        ensures { Takes (spec.node_step self.old byte) self.new result }
    {
        match self.place {
            NodePlace::Caret => self.caret(byte),
            NodePlace::First => self.first(byte),
            NodePlace::Name => self.name(byte),
            NodePlace::Dot => self.name_goes_on(byte),
            NodePlace::Sub(place) => self.sub(alloc, place, byte),
            NodePlace::Behind => Err(LineStop::Bad(DumpWhy::BadNode)),
        }
    }

    /// The node, where it is within the limits of a node and none of its subscripts passed one.
    pub fn into_node(self) -> Option<Node>
        ensures { result ≡ spec.node_in self }
    {
        let NodeReader {
            global,
            subs,
            is_over,
            ..
        } = self;
        let node = Node { global, subs };
        if is_over || !node.is_legal() {
            return None;
        }
        Some(node)
    }
}
