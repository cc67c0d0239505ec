//! What a graph is, and two graphs above any graph: its complement and a selection.
ghost use Rattle.std.specs.Prelude.{◌≡◌, ℕ, Bool};
ghost use Rattle.graph.specs.Graphs.{IsGraph, complement, selection};
ghost use Rattle.graph.specs.Members.{member};
ghost use Rattle.graph.specs.Laws.{complement_graph, selection_graph};

use crate::sets::MemberSet;

/// Up to 256 members numbered from 0, any two of which are joined or not.
pub trait Graph {
    // how many members there are
    ghost members: { Self → ℕ };

    // whether two numbers are joined
    ghost joins: { Self → ℕ → ℕ → Bool };

    /// How many members there are.
    fn size(&self) -> usize
        ensures { result ≡ members self.now };

    /// Whether two numbers are joined; a number that is no member is joined to nothing.
    fn joined(&self, a: usize, b: usize) -> bool
        ensures { result ≡ joins self.now a b }
    {
        let Ok(near) = u8::try_from(a) else {
            return false;
        };
        let Ok(far) = u8::try_from(b) else {
            return false;
        };
        self.neighbours(near).contains(far)
    }

    /// The members that are joined to `a`.
    fn neighbours(&self, a: u8) -> MemberSet
        ensures { (k : ℕ) → member result k ≡ joins self.now a k };

    // joined goes both ways, joins nothing to itself, and joins only members
    ghost laws: { (g : Self) → IsGraph (members g) (joins g) };
}

/// The complement of a graph: it joins two different members that the graph leaves unjoined.
#[derive_where(Clone, Copy)]
pub struct Complement<'a, G> {
    pub of: &'a G,
}

impl<G: Graph> Graph for Complement<'_, G> {
    ghost members = { λ s. G.Graph.members s.of.now };

    ghost joins = { λ s. complement (G.Graph.members s.of.now) (G.Graph.joins s.of.now) };

    ghost laws = { λ s. complement_graph (G.Graph.laws s.of.now) };

    fn size(&self) -> usize {
        self.of.size()
    }

    fn neighbours(&self, a: u8) -> MemberSet {
        let size = self.size();
        if a as usize >= size {
            return MemberSet::empty();
        }
        let mut others = MemberSet::below(size);
        others.remove(a);
        others.difference(self.of.neighbours(a))
    }
}

/// A selection of a graph: it keeps all members, but joins only selected ones.
#[derive_where(Clone, Copy)]
pub struct Selection<'a, G> {
    pub graph: &'a G,
    pub selected: MemberSet,
}

impl<G: Graph> Graph for Selection<'_, G> {
    ghost members = { λ s. G.Graph.members s.graph.now };

    ghost joins = { λ s. selection (member s.selected) (G.Graph.joins s.graph.now) };

    ghost laws = { λ s. selection_graph (member s.selected) (G.Graph.laws s.graph.now) };

    fn size(&self) -> usize {
        self.graph.size()
    }

    fn neighbours(&self, a: u8) -> MemberSet {
        if !self.selected.contains(a) {
            return MemberSet::empty();
        }
        self.graph.neighbours(a).intersection(self.selected)
    }
}
