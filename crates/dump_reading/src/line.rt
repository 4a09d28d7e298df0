//! Reads one line of a dump, and one node.

ghost use Rattle.std.specs.Prelude.{◌≡◌, ◌<◌, ◌≤◌, ◌+◌, ◌^◌, length, false, OnOk, IfOk, IsTrue};
ghost use Rattle.text_lines.specs.Reading.{SaysLine};
ghost use Rattle.dump_reading.specs.Taking.{Takes, taken};
ghost use Rattle.dump_reading.specs.NodeReading.{node_start, node_step};
ghost use Rattle.obj_kinds.specs.Limits.{is_legal_node};
ghost use Rattle.dump_reading.specs.Laws.{is_within};
ghost use Rattle.dump_reading.specs.LineReading as spec;

use crate::node_reader::NodeReader;
use crate::stop::{DumpWhy, LineError};
use crate::value_reader::ValueReader;
use obj_kinds::{Node, Value};
use std::alloc::Global;
use text_lines::LineStop;

/// A line that is read byte by byte.
#[derive(Debug, Drop)]
pub struct Line {
    pub node: NodeReader,
    pub value: ValueReader,
    /// Whether the `=` behind the node is read.
    pub is_behind: bool,
}

impl Line {
    /// Nothing is read.
    pub fn new(alloc: Global) -> Line
        ensures { result ≡ spec.line_start }
    {
        Line {
            node: NodeReader::new(alloc),
            value: ValueReader::new(alloc),
            is_behind: false,
        }
    }

    // One more byte in front of the value.
    fn take_front(&mut self, alloc: Global, byte: u8) -> Result<(), LineStop<DumpWhy>>
        ensures { Takes (spec.front_step self.old byte) self.new result }
    {
        if byte == b'=' && self.node.is_whole() {
            self.is_behind = true;
            return Ok(());
        }
        self.node.take(alloc, byte)
    }

    /// Reads one more byte. It is refused where no line goes on like this.
    #[tactic(auto, unfolding(crate::specs::LineReading::line_step))]
    pub fn take(&mut self, alloc: Global, byte: u8) -> Result<(), LineStop<DumpWhy>>
        requires { self.old.value.depth + 1 < 2 ^ 64 }
        ensures { Takes (spec.line_step self.old byte) self.new result }
    {
        if self.is_behind {
            self.value.take(alloc, byte)
        } else {
            self.take_front(alloc, byte)
        }
    }

    /// What the line says, where it ends here.
    #[tactic(auto, unfolding(crate::specs::LineReading::said))]
    pub fn finish(self, alloc: Global) -> Result<(Node, Value), LineStop<DumpWhy>>
        ensures { SaysLine (spec.said self) result }
    {
        let Line {
            node,
            value,
            is_behind,
        } = self;
        if !is_behind {
            return Err(LineStop::Bad(DumpWhy::BadNode));
        }
        let mut value = value;
        if !value.finish(alloc)? {
            return Err(LineStop::Bad(DumpWhy::BadValue));
        }
        match (node.into_node(), value.into_value()) {
            (Some(node), Some(value)) => Ok((node, value)),
            _ => Err(LineStop::Bad(DumpWhy::TooLong)),
        }
    }
}

#[tactic(auto, using(crate::proofs::DepthLaws::depth_grows, crate::proofs::TakenLaws::turn_on, crate::proofs::TakenLaws::all_on, crate::proofs::TakenLaws::refused))]
fn take_line(line: &mut Line, alloc: Global, bytes: &[u8]) -> Result<(), LineStop<DumpWhy>>
    requires { line.old.value.depth + length bytes.now < 2 ^ 64 }
    ensures { Takes (taken spec.line_step line.old bytes.now) line.new result }
{
    for byte in bytes {
        match line.take(alloc, *byte) {
            Ok(()) => {}
            Err(stop) => return Err(stop),
        }
    }
    Ok(())
}

#[tactic(auto, using(crate::proofs::TakenLaws::turn_on, crate::proofs::TakenLaws::all_on, crate::proofs::TakenLaws::refused))]
fn take_node(node: &mut NodeReader, alloc: Global, bytes: &[u8]) -> Result<(), LineStop<DumpWhy>>
    ensures { Takes (taken node_step node.old bytes.now) node.new result }
{
    for byte in bytes {
        match node.take(alloc, *byte) {
            Ok(()) => {}
            Err(stop) => return Err(stop),
        }
    }
    Ok(())
}

/// What one line says, which has no line feed.
#[tactic(auto, unfolding(crate::specs::LineReading::line_read))]
pub fn line_of(alloc: Global, bytes: &[u8]) -> Result<(Node, Value), LineStop<DumpWhy>>
    requires { length bytes.now < 2 ^ 64 }
    ensures { SaysLine (spec.line_read bytes.now) result }
{
    let mut line = Line::new(alloc);
    take_line(&mut line, alloc, bytes)?;
    line.finish(alloc)
}

/// The node that the bytes spell.
#[tactic(auto, unfolding(crate::specs::LineReading::node_read))]
fn node_spelt(alloc: Global, bytes: &[u8]) -> Result<Node, LineStop<DumpWhy>>
    ensures { SaysLine (spec.node_read bytes.now) result }
{
    let mut node = NodeReader::new(alloc);
    take_node(&mut node, alloc, bytes)?;
    if !node.is_whole() {
        return Err(LineStop::Bad(DumpWhy::BadNode));
    }
    match node.into_node() {
        Some(node) => Ok(node),
        None => Err(LineStop::Bad(DumpWhy::TooLong)),
    }
}

/// Reads one line of a dump, without its line feed: a node, `=` and a value, as `dump` writes them, where a text that is a
/// whole number may also stand in quotes.
///
/// A line that begins with no node and `=` is `BadNode`; else one whose rest is no value is `BadValue`; else one whose
/// node or value passes a limit is `TooLong`. What is answered is within the limits of a node and a value.
#[tactic(auto, using(crate::proofs::LimitLaws::line_within))]
pub fn read_line(alloc: Global, bytes: &[u8]) -> Result<(Node, Value), LineError>
    requires { length bytes.now < 2 ^ 64 }
    ensures answer { spec.AnswersLine (spec.line_read bytes.now) result }
    ensures within { IfOk result (λ said. IsTrue (is_within said)) }
{
    match line_of(alloc, bytes) {
        Ok(said) => Ok(said),
        Err(LineStop::Memory) => Err(LineError::NoMemory),
        Err(LineStop::Bad(why)) => Err(LineError::Bad(why)),
    }
}

/// Reads one node, as `dump` writes it; a subscript that is a whole number may also stand in quotes.
///
/// What is no node is `BadNode`; else a node that passes a limit is `TooLong`. What is answered is within the limits of a
/// node.
#[tactic(auto, using(crate::proofs::LimitLaws::node_within))]
pub fn read_node(alloc: Global, bytes: &[u8]) -> Result<Node, LineError>
    ensures answer { spec.AnswersLine (spec.node_read bytes.now) result }
    ensures within { IfOk result (λ node. IsTrue (is_legal_node node)) }
{
    match node_spelt(alloc, bytes) {
        Ok(node) => Ok(node),
        Err(LineStop::Memory) => Err(LineError::NoMemory),
        Err(LineStop::Bad(why)) => Err(LineError::Bad(why)),
    }
}
