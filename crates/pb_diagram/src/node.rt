//! Nodes with their children.
ghost use Rattle.std.specs.Prelude.{◌≡◌};

use std::marker::Model;

/// A node by its interval's end and the places of its children in the next level, of which there is none at an end of the diagram.
#[derive(Clone, Copy)]
pub struct Node {
    pub top: u128,
    pub off: Option<u64>,
    pub on: Option<u64>,
}

impl Node {
    ghost use Rattle.std.specs.Prelude.{◌≡◌};
    ghost use Rattle.pb_diagram.specs.Guards.{window};

    /// How far its true child is before its false one.
    pub fn window(&self) -> u64
        ensures { result ≡ window self.now }
    {
        match self.off {
            Some(off) => match self.on {
                Some(on) => off.saturating_sub(on),
                None => 0,
            },
            None => 0,
        }
    }
}

/// The nodes of a level, in order.
#[derive(Drop)]
pub struct Nodes {
    nodes: Vec<Node>,
}

impl Model for Nodes {
    ghost use Rattle.std.specs.Prelude.{List};
    ghost use Rattle.pb_diagram.specs.declared.node.Node.{Node};

    ghost Value = { List Node };

    ghost view = { λ l. l.nodes.items };
}

impl Nodes {
    /// A level of these nodes.
    pub fn from_vec(nodes: Vec<Node>) -> Self
        ensures { result ≡ nodes.items }
    {
        Nodes { nodes }
    }

    /// Its nodes, in order.
    pub fn as_slice(&self) -> &[Node]
        ensures { result.now ≡ self.now }
    {
        self.nodes.as_slice()
    }
}
