//! Building: the nodes of a formula are written into lent memory, children before the node over them.
use super::{Kind, Node, PLACES};

// No `text::Writer`: a place that was kept is written after those behind it.
/// Lays out formulas in lent node memory, one after the other.
#[derive(Drop)]
pub struct Builder<'a> {
    nodes: &'a mut [Node],
    at: usize,
}

impl<'a> Builder<'a> {
    ghost use Rattle.std.specs.Prelude.{◌≡◌, ◌+◌, ◌-◌, ◌<◌, ◌≤◌, List, length, replicate, slice_set};
    ghost use Rattle.tree.specs.Formulas.{Formula};
    ghost use Rattle.tree.specs.Nodes.{inner, written};
    ghost use Rattle.tree.specs.Layout.{nodes_of};
    ghost use Rattle.tree.specs.Trees.{Children, IsOver, LaidBetween, over};
    ghost use Rattle.tree.specs.Builders.{LaidOut, places_of};
    ghost use Rattle.tree.specs.declared.Node.{Node};
    ghost use Rattle.tree.specs.declared.Node.TheVariants.{Vacant};

    /// A builder that begins at a place.
    pub fn new(nodes: &'a mut [Node], at: usize) -> Builder<'a>
        ensures memory { result.nodes.ghost_name ≡ nodes.entry.ghost_name }
        ensures nodes { result.nodes.now ≡ nodes.old }
        ensures place { result.at ≡ at }
    {
        Builder { nodes, at }
    }

    /// The number of places up to the builder's.
    pub fn place(&self) -> usize
        ensures { result ≡ self.now.at }
    {
        self.at
    }

    /// Lays out a row. Callers stay within node memory.
    pub fn put_row(&mut self, row: u8)
        requires { self.old.at < places_of self.old }
        ensures { LaidOut self.old self.new (Formula.row row) }
    {
        self.nodes[self.at] = Node::Row(row);
        self.at += 1;
    }

    /// Leaves a place for an and or an or, whose children come next, and answers it. Callers stay within node memory.
    pub fn open(&mut self) -> usize
        requires { self.old.at < places_of self.old }
        ensures place { result ≡ self.old.at }
        ensures next { self.new.at ≡ self.old.at + 1 }
        ensures memory { self.new.nodes.ghost_name ≡ self.old.nodes.ghost_name }
        ensures nodes { self.new.nodes.now ≡ self.old.nodes.now }
    {
        let place = self.at;
        self.at = place + 1;
        place
    }

    /// Writes an and or an or at the place before its children, which are laid out one after the other from the next place up to the builder's.
    /// Whatever the memory was before them, it then has the formula over them, and nothing else is written. The children are at least two,
    /// none of the kind, by their lowest row. Callers stay within the places of node memory, since n rows make at most 2 n − 1 nodes.
    pub fn close(&mut self, kind: Kind, place: usize)
        requires inside { place < places_of self.old }
        requires some { place < self.old.at }
        requires few { self.old.at ≤ 511 }
        ensures memory { self.new.nodes.ghost_name ≡ self.old.nodes.ghost_name }
        ensures next { self.new.at ≡ self.old.at }
        ensures node { self.new.nodes.now ≡ slice_set self.old.nodes.now place (inner kind (self.old.at - place)) }
        ensures laid { (before : List Node) (cs : List Formula) → Children kind cs → place < length before → LaidBetween before self.old.nodes.now (place + 1) self.old.at cs → (self.new.nodes.now ≡ written before place (nodes_of (over kind cs))) × IsOver kind cs }
    {
        self.nodes[place] = kind.over((self.at - place) as u16);
    }

    /// Makes the places of node memory vacant, from the builder's on. Callers have tested that the memory has these places.
    pub fn vacate(&mut self)
        requires room { 511 ≤ places_of self.old }
        requires inside { self.old.at ≤ 511 }
        ensures memory { self.new.nodes.ghost_name ≡ self.old.nodes.ghost_name }
        ensures next { self.new.at ≡ self.old.at }
        ensures nodes { self.new.nodes.now ≡ written self.old.nodes.now self.old.at (replicate (511 - self.old.at) Vacant) }
    {
        self.nodes[self.at..PLACES].fill(Node::Vacant);
    }
}
