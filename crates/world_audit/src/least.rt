//! The least of the nodes at fault.

ghost use Rattle.std.specs.Prelude.{◌≡◌, None, option_to_list};
ghost use Rattle.world_audit.specs.Least as spec;

use obj_kinds::Node;
use std::cmp::Ordering;
use std::marker::Model;

/// The least node that was noted, if any was.
#[derive(Debug, Drop)]
pub(crate) struct Least {
    node: Option<Node>,
}

impl Model for Least {
    ghost use Rattle.std.specs.Prelude.{Option};
    ghost use Rattle.std.specs.Coded.{coded_option};
    ghost use Rattle.obj_kinds.specs.declared.node.Node.{Node};
    ghost use Rattle.obj_kinds.specs.contracts.node.Node as of_node;

    ghost Value = { Option Node };

    ghost coded = { coded_option (of_node.the_row).coded };

    ghost view = { λ l. l.node };
}

impl Least {
    /// No node is noted.
    pub(crate) fn new() -> Least
        ensures { result ≡ None }
    {
        Least { node: None }
    }

    /// Notes a node.
    pub(crate) fn note(&mut self, node: Node)
        ensures { self.new ≡ spec.lesser self.old node }
    {
        let is_less = match &self.node {
            None => true,
            Some(least) => matches!(node.compare(least), Ordering::Less),
        };
        if is_less {
            self.node = Some(node);
        }
    }

    /// Notes a node, if there is one.
    pub(crate) fn note_some(&mut self, node: Option<Node>)
        ensures { self.new ≡ spec.noted self.old (option_to_list node) }
    {
        match node {
            Some(node) => self.note(node),
            None => {}
        }
    }

    /// The least node that was noted.
    pub(crate) fn into_node(self) -> Option<Node>
        ensures { result ≡ self }
    {
        let Least { node } = self;
        node
    }
}
