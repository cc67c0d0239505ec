//! One split of a selected set, by connected parts of the graph or of the complement.
ghost use Rattle.std.specs.Prelude.{◌≡◌, ℕ, ◌<◌, true};
ghost use Rattle.graph.specs.Graphs.{members_in};
ghost use Rattle.graph.specs.Members.{member};
ghost use Rattle.graph.specs.Answers.{FallsApartOrNot, Splits};
ghost use Rattle.graph.specs.Splitting.{SplitsIffNoChain};

use crate::answers::{Parts, Split};
use crate::chains::chain;
use crate::graphs::{Complement, Graph};
use crate::sets::MemberSet;
use crate::walks::parts;

// A graph and a selected set are two parameters, since one graph is asked about many sets and no fact ties the two.

/// Splits the selected members; selected numbers that are no members are left out.
/// A set of members splits down to single ones, part by part, exactly when no four of it form a chain.
pub fn split<G: Graph>(graph: &G, selected: MemberSet) -> Split
    ensures answer { Splits (G.Graph.members graph.now) (G.Graph.joins graph.now) (members_in (G.Graph.members graph.now) (member selected)) result }
    ensures theorem { SplitsIffNoChain (G.Graph.members graph.now) (G.Graph.joins graph.now) }
{
    split_members(graph, selected.intersection(MemberSet::below(graph.size())))
}

// Splits a set of members.
fn split_members<G: Graph>(graph: &G, set: MemberSet) -> Split
    requires { (x : ℕ) → member set x ≡ true → x < G.Graph.members graph.now }
    ensures { Splits (G.Graph.members graph.now) (G.Graph.joins graph.now) (member set) result }
{
    let mut others = set;
    let Some(first) = others.pop_first() else {
        return Split::Empty;
    };
    if others.is_empty() {
        return Split::Single(first);
    }
    if let Some(parts) = two_or_more(graph, set) {
        return Split::InGraph(parts);
    }
    if let Some(parts) = two_or_more(&Complement { of: graph }, set) {
        return Split::InComplement(parts);
    }
    Split::Stuck(chain(graph, set).unwrap())
}

// The connected parts of a set of members, or none where it is connected.
#[inline(always)]
fn two_or_more<G: Graph>(graph: &G, set: MemberSet) -> Option<Parts>
    requires { (x : ℕ) → member set x ≡ true → x < G.Graph.members graph.now }
    ensures { FallsApartOrNot (G.Graph.joins graph.now) (member set) result }
{
    let parts = parts(graph, set);
    if parts.as_slice().len() < 2 {
        return None;
    }
    Some(parts)
}
