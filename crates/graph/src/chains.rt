//! Finding a chain of four within a selected set.
ghost use Rattle.graph.specs.Finding.{FindsChain};
ghost use Rattle.graph.specs.Members.{member};

use crate::graphs::Graph;
use crate::sets::MemberSet;

// A graph and a selected set are two parameters, since one graph is asked about many sets and no fact ties the two.

/// Four selected numbers that form a chain, in its order; or none, where no four do.
/// A chain read backwards is a chain, so a member that was tried as the second need not be tried as the third.
pub fn chain<G: Graph>(graph: &G, selected: MemberSet) -> Option<[u8; 4]>
    ensures { FindsChain (G.Graph.joins graph.now) (member selected) result }
{
    let mut left = selected;
    while let Some(b) = left.pop_first() {
        let near_b = graph.neighbours(b);
        for c in near_b.intersection(left) {
            let near_c = graph.neighbours(c);
            // The last is joined to `c` alone, and the first to `b` alone.
            let last = near_c.difference(near_b).intersection(selected);
            for a in near_b.difference(near_c).intersection(selected) {
                if let Some(d) = last.difference(graph.neighbours(a)).lowest() {
                    return Some([a, b, c, d]);
                }
            }
        }
    }
    None
}
