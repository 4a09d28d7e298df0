//! Reads a whole dump.

ghost use Rattle.std.specs.Prelude.{◌≡◌, ◌<◌, ◌+◌, ◌++◌, ◌^◌, IfOk, length, IsTrue};
ghost use Rattle.std.specs.FinMap.{is_sorted};
ghost use Rattle.std.specs.List.{list_all};
ghost use Rattle.obj_kinds.specs.Order.{node_cmp};
ghost use Rattle.text_lines.specs.Reading.{SaysLine};
ghost use Rattle.dump_reading.specs.Laws.{is_within};
ghost use Rattle.dump_reading.specs.DumpReading as spec;

use crate::line::line_of;
use crate::stop::{DumpError, DumpWhy};
use obj_kinds::{NoMemory, Node, Nodes, Pairs, Value};
use sqlite_items::Items;
use std::alloc::Global;
use std::collections::BTreeMap;
use std::marker::Model;
use text_lines::{BadLine, LineReader, LineStop, TextStop, read_text, without_return};

/// What the lines so far say: how many bytes of the text are left behind them, and their nodes in order.
#[derive(Debug, Drop)]
pub struct Said {
    left: usize,
    nodes: BTreeMap<Node, Value>,
}

impl Model for Said {
    ghost use Rattle.std.specs.Prelude.{List, ℕ};
    ghost use Rattle.std.specs.Coded.{coded_list, coded×, coded_ℕ};
    ghost use Rattle.obj_kinds.specs.declared.node.Node.{Node};
    ghost use Rattle.obj_kinds.specs.declared.value.Value.{Value as Stored};
    ghost use Rattle.obj_kinds.specs.contracts.node.Node as node;
    ghost use Rattle.obj_kinds.specs.contracts.value.Value as value;

    ghost Value = { ℕ × List (Node × Stored) };

    ghost coded = { coded× coded_ℕ (coded_list (coded× (node.the_row).coded (value.the_row).coded)) };

    ghost view = { λ s. (s.left, s.nodes.entries) };
}

/// Reads the lines of a dump.
#[derive(Debug, Drop)]
pub struct DumpLines;

// The line without the byte 13 at its end, where a line feed follows.
#[tactic(auto, unfolding(crate::specs::DumpReading::own_line))]
fn own_line(left: usize, line: &[u8]) -> &[u8]
    ensures { result.now ≡ spec.own_line left line.now }
{
    if line.len() < left {
        without_return(line)
    } else {
        line
    }
}

// Puts what a line says to the nodes; a node that is there already is refused.
#[tactic(auto, unfolding(crate::specs::DumpReading::put_node))]
fn put(
    nodes: BTreeMap<Node, Value>,
    node: Node,
    value: Value,
) -> Result<BTreeMap<Node, Value>, LineStop<DumpWhy>>
    ensures { spec.SaysNodes (spec.put_node nodes.entries (node, value)) result }
{
    let mut nodes = nodes;
    if nodes.insert(node, value)?.is_some() {
        return Err(LineStop::Bad(DumpWhy::Repeated));
    }
    Ok(nodes)
}

// Puts what a line says to the nodes, unless it is empty.
#[tactic(auto, unfolding(crate::specs::DumpReading::nodes_with))]
fn put_line(
    alloc: Global,
    nodes: BTreeMap<Node, Value>,
    line: &[u8],
) -> Result<BTreeMap<Node, Value>, LineStop<DumpWhy>>
    requires { length line.now < 2 ^ 64 }
    ensures { spec.SaysNodes (spec.nodes_with nodes.entries line.now) result }
{
    if line.is_empty() {
        return Ok(nodes);
    }
    let (node, value) = line_of(alloc, line)?;
    put(nodes, node, value)
}

impl LineReader<Said, DumpWhy> for DumpLines {
    ghost use Rattle.dump_reading.specs.DumpReading.{dump_step};

    ghost step = { λ r said line. dump_step said line };

    #[tactic(auto, unfolding(crate::specs::DumpReading::dump_step))]
    fn line(&self, alloc: Global, said: Said, line: &[u8]) -> Result<Said, LineStop<DumpWhy>> {
        let Said { left, nodes } = said;
        let nodes = put_line(alloc, nodes, own_line(left, line))?;
        Ok(Said {
            left: left.saturating_sub(line.len()).saturating_sub(1),
            nodes,
        })
    }
}

// The nodes in order.
fn listed(alloc: Global, map: BTreeMap<Node, Value>) -> Result<Nodes, NoMemory>
    ensures { IfOk result (λ nodes. nodes ≡ map.entries) }
{
    let mut nodes = Items::new(alloc);
    for (node, value) in map {
        nodes.push((node, value))?;
    }
    Ok(nodes)
}

fn into_pairs(alloc: Global, said: Said) -> Result<Pairs, NoMemory>
    requires rising { IsTrue (is_sorted node_cmp said.1) }
    requires within { IsTrue (list_all is_within said.1) }
    ensures pairs { IfOk result (λ pairs. pairs ≡ said.1) }
    ensures within { IfOk result (λ pairs. IsTrue (list_all is_within pairs)) }
{
    let Said { nodes, .. } = said;
    let nodes = listed(alloc, nodes)?;
    Ok(Pairs::from_rising(nodes))
}

/// Reads a whole dump: lines in any order, each a node, `=` and a value as `dump` writes them, where a text that is a whole
/// number may also stand in quotes; a byte 13 may stand before a line feed, the last line may lack one, and empty lines say
/// nothing. Answers the nodes of all lines in rising order, each with its value within the limits.
///
/// The first bad line is refused, counted from 1, for the first of these reasons: it doesn't begin with a node and `=`; its
/// rest is no value; the node or the value passes a limit; an earlier line has its node.
#[tactic(auto, unfolding(crate::specs::DumpReading::dump_read))]
pub fn read_dump(alloc: Global, text: &[u8]) -> Result<Pairs, DumpError>
    requires { length text.now + 1 < 2 ^ 32 }
    ensures answer { spec.AnswersDump (spec.dump_read text.now) result }
    ensures within { IfOk result (λ pairs. IsTrue (list_all is_within pairs)) }
{
    let first = Said {
        left: text.len(),
        nodes: BTreeMap::new(alloc),
    };
    match read_text(alloc, &DumpLines, first, text) {
        Ok(said) => match into_pairs(alloc, said) {
            Ok(pairs) => Ok(pairs),
            Err(NoMemory) => Err(DumpError::NoMemory),
        },
        Err(TextStop::Memory) => Err(DumpError::NoMemory),
        Err(TextStop::Bad(BadLine { line, why })) => Err(DumpError::BadDump { line, why }),
    }
}
