//! Read-once formulas laid out as nodes: building them, their sums over worlds in every scale, their chance and their text.
#![tactic(auto)]

ghost use Rattle.std.specs.Prelude.{◌≡◌};
ghost use Rattle.tree.specs.Nodes.{size_of, inner, inner_of};

mod bracket;
mod build;
mod form;
mod layout;
mod pass;
mod worlds;

pub use bracket::{Bracket, chance};
pub use build::Builder;
pub use form::write_form;
pub use layout::Layout;
pub use worlds::evaluate;

/// The places that node memory has: 256 rows make at most 511 nodes.
pub const PLACES: usize = 511;

/// What stands over two formulas or more.
#[derive(Clone, Copy, PartialEq, Eq, Debug)]
pub enum Kind {
    And,
    Or,
}

/// A place for a node: vacant, a row, or an and or an or with the number of nodes from itself down.
#[derive(Clone, Copy, PartialEq, Eq, Debug)]
pub enum Node {
    Vacant,
    Row(u8),
    And(u16),
    Or(u16),
}

impl Kind {
    // The and or the or with so many nodes from itself down.
    fn over(self, size: u16) -> Node
        ensures { result ≡ inner self size }
    {
        match self {
            Kind::And => Node::And(size),
            Kind::Or => Node::Or(size),
        }
    }
}

impl Node {
    /// The number of nodes from this one down: 1 for a row, 0 when vacant.
    pub fn size(self) -> usize
        ensures { result ≡ size_of self }
    {
        match self {
            Node::Vacant => 0,
            Node::Row(_) => 1,
            Node::And(size) | Node::Or(size) => size as usize,
        }
    }

    // The kind and the size of an and or an or.
    fn inner(self) -> Option<(Kind, usize)>
        ensures { result ≡ inner_of self }
    {
        match self {
            Node::And(size) => Some((Kind::And, size as usize)),
            Node::Or(size) => Some((Kind::Or, size as usize)),
            Node::Row(_) | Node::Vacant => None,
        }
    }
}
