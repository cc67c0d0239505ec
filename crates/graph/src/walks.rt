//! Connected parts of a selected set: the part of one number, and all parts in order.
ghost use Rattle.std.specs.Prelude.{length};
ghost use Rattle.lists.specs.Items.{items_of};
ghost use Rattle.graph.specs.Members.{member};
ghost use Rattle.graph.specs.Listed.{part_in};
ghost use Rattle.graph.specs.Splitting.{PartOf, ListsParts};

use crate::answers::Parts;
use crate::graphs::Graph;
use crate::sets::MemberSet;
use lists::FixedList;

// A graph and a selected set are two parameters, since one graph is asked about many sets and no fact ties the two.

/// The connected part of `start` within the selected set: empty where `start` is not selected.
pub fn part<G: Graph>(graph: &G, selected: MemberSet, start: u8) -> MemberSet
    ensures { PartOf (G.Graph.joins graph.now) (member selected) start (member result) }
{
    let mut frontier = MemberSet::from([start]).intersection(selected);
    let mut rest = selected.difference(frontier);
    while let Some(x) = frontier.pop_first() {
        let fresh = graph.neighbours(x).intersection(rest);
        rest = rest.difference(fresh);
        frontier = frontier.union(fresh);
    }
    selected.difference(rest)
}

/// All connected parts of the selected set, each once, in the order of their lowest numbers.
#[inline(always)]
pub fn parts<G: Graph>(graph: &G, selected: MemberSet) -> Parts
    ensures { ListsParts (G.Graph.joins graph.now) (member selected) (length (items_of result)) (part_in (items_of result)) }
{
    let mut sets = FixedList::over(&[MemberSet::EMPTY; 256]);
    let mut left = selected;
    // A whole part leaves the set at each turn, so no iterator goes over its members.
    while let Some(x) = left.lowest() {
        let found = part(graph, left, x);
        left = left.difference(found);
        sets.push(found);
    }
    sets
}
