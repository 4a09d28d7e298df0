use dump_reading::read_dump;
use obj_kinds::{Mode, NoMemory, Node, Op, Pairs, Pid, Reply, Sub};
use record_reading::keys_below;
use std::alloc::Global;
use std::cmp::Ordering;

/// The longest dump that is read.
const MOST: usize = 1_000_000;

/// What stands in the globals.
#[derive(Drop)]
pub struct Store {
    nodes: Pairs,
}

// The first key of those that comes behind the one given.
fn first_behind(alloc: Global, keys: Vec<Sub>, behind: &Option<Sub>) -> Result<Reply, NoMemory> {
    for key in keys.as_slice() {
        let is_behind = match behind {
            None => true,
            Some(last) => matches!(last.compare(key), Ordering::Less),
        };
        if is_behind {
            return Ok(Reply::Next(key.copy(alloc)?));
        }
    }
    Ok(Reply::NoNext)
}

impl Store {
    /// Globals without a node.
    pub fn new(alloc: Global) -> Store {
        Store {
            nodes: Pairs::new(alloc),
        }
    }

    /// The globals of a dump; where it is no dump, none.
    pub fn read(alloc: Global, text: &[u8]) -> Store {
        if text.len() >= MOST {
            return Store::new(alloc);
        }
        match read_dump(alloc, text) {
            Ok(nodes) => Store { nodes },
            Err(_) => Store::new(alloc),
        }
    }

    fn found(&self, alloc: Global, node: &Node) -> Result<Reply, NoMemory> {
        match self.nodes.get(node) {
            Some(value) => Ok(Reply::Found(value.copy(alloc)?)),
            None => Ok(Reply::Absent),
        }
    }

    /// What an operation is replied. Where locks are refused, process 2 holds the node.
    pub fn reply(&self, alloc: Global, op: &Op, is_refused: bool) -> Result<Reply, NoMemory> {
        match op {
            Op::Get(node) => self.found(alloc, node),
            Op::Order(node, behind) => {
                first_behind(alloc, keys_below(alloc, &self.nodes, node)?, behind)
            }
            Op::Lock(node, _, _, _) if is_refused => Ok(Reply::Held {
                pid: Pid(2),
                node: node.copy(alloc)?,
                mode: Mode::Exclusive,
            }),
            Op::Lock(_, _, _, _) => Ok(Reply::Granted),
            _ => Ok(Reply::Done),
        }
    }
}
