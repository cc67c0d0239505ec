//! Nodes that lay out a form, and the places of a node's children.
ghost use Rattle.std.specs.Prelude.{length, ◌≤◌, ◌-◌};
ghost use Rattle.tree.specs.Layout.{Lays};

use super::Node;

/// Nodes that lay out a form, as building leaves them.
// Which form is no part of the value, so the fact says only that there is one.
#[derive(Clone, Copy, PartialEq, Eq, Debug)]
pub struct Layout<'a> {
    pub nodes: &'a [Node],
    ghost lays: { ∥ Lays nodes.now ∥₁ },
}

impl<'a> Layout<'a> {
    ghost use Rattle.std.specs.Prelude.{◌≡◌, ◌<◌, ◌+◌, slice_index_or};
    ghost use Rattle.tree.specs.Nodes.{size_of, inner};
    ghost use Rattle.tree.specs.declared.Kind.{Kind};
    ghost use Rattle.tree.specs.declared.Node.TheVariants.{Vacant};

    /// The places of the children of the and or the or at a place, but for the first child, which is next to it.
    pub(crate) fn later_children(self, at: usize, size: usize) -> Children<'a>
        requires inside { at < length self.nodes.now }
        requires there { (kind : Kind) × (slice_index_or self.nodes.now at Vacant ≡ inner kind size) }
        ensures nodes { result.layout.nodes.now ≡ self.entry.nodes.now }
        ensures begin { result.at ≡ at + 1 + size_of (slice_index_or self.entry.nodes.now (at + 1) Vacant) }
        ensures end { result.end ≡ at + size }
    {
        let first = at + 1;
        Children {
            layout: self,
            at: first + self.nodes[first].size(),
            end: at + size,
        }
    }
}

/// The places of children of a node, one after the other.
// The nodes lie in memory that the caller lends, so a child is a place and no box.
#[derive(Drop)]
pub(crate) struct Children<'a> {
    layout: Layout<'a>,
    at: usize,
    end: usize,
    ghost inside: { end ≤ length layout.nodes.now },
}

impl Iterator for Children<'_> {
    ghost use Rattle.std.specs.Iterator.{at_most};
    ghost use Rattle.tree.specs.Walks.{Goes};

    type Item = usize;

    ghost next_gives = { Goes };

    ghost remaining = { λ s. at_most (s.end - s.at) };

    fn next(&mut self) -> Option<usize> {
        if self.at >= self.end {
            return None;
        }
        let child = self.at;
        self.at += self.layout.nodes[child].size();
        Some(child)
    }
}
