//! A graph that stores the neighbours of each member.
ghost use Rattle.std.specs.Prelude.{◌≡◌, ℕ, length};
ghost use Rattle.graph.specs.Graphs.{IsGraph};
ghost use Rattle.graph.specs.Stored.{stored};

use crate::graphs::Graph;
use crate::sets::MemberSet;

/// A graph by the stored neighbours of each member.
#[derive(Clone, Copy, PartialEq, Eq, Debug)]
pub struct StoredGraph {
    count: usize,
    // No list: each of 256 numbers has its row, and a number that is no member has an empty one.
    rows: [MemberSet; 256],
    ghost lawful: { IsGraph count (stored rows) },
}

impl StoredGraph {
    ghost use Rattle.std.specs.Prelude.{min, false, ◌||◌, ◌==◌};
    ghost use Rattle.graph.specs.Graphs.{members_in};
    ghost use Rattle.graph.specs.Members.{member};
    ghost use Rattle.graph.specs.Stored.{with_all};

    /// A graph of so many members, or of 256 where more are asked for, no two of which are joined.
    pub fn new(size: usize) -> StoredGraph
        ensures count { result.count ≡ min size 256 }
        ensures pairs { (a b : ℕ) → stored result.rows a b ≡ false }
    {
        StoredGraph {
            count: size.min(256),
            rows: [MemberSet::empty(); 256],
        }
    }

    /// Joins any two different members of a set; numbers that are no members are passed over.
    pub fn join_all(&mut self, set: MemberSet)
        ensures count { self.new.count ≡ self.old.count }
        ensures pairs { (a b : ℕ) → stored self.new.rows a b ≡ with_all (members_in self.old.count (member set)) (stored self.old.rows) a b }
    {
        let all = set.intersection(MemberSet::below(self.size()));
        // The rows are lent to the loop, since between its turns the relation is not symmetric.
        let rows = &mut self.rows;
        for a in all {
            let mut others = all;
            others.remove(a);
            rows[a as usize] = rows[a as usize].union(others);
        }
    }

    /// Joins two different members; where one is no member, or both are the same, nothing changes.
    pub fn join(&mut self, a: u8, b: u8)
        ensures count { self.new.count ≡ self.old.count }
        ensures pairs { (x y : ℕ) → stored self.new.rows x y ≡ with_all (members_in self.old.count (λ k. (k == a) || k == b)) (stored self.old.rows) x y }
    {
        self.join_all(MemberSet::from([a, b]));
    }
}

impl Graph for StoredGraph {
    ghost members = { λ s. s.count };

    ghost joins = { λ s. stored s.rows };

    fn size(&self) -> usize {
        self.count
    }

    fn neighbours(&self, a: u8) -> MemberSet {
        self.rows[a as usize]
    }

    ghost laws = { λ s. s.lawful };
}
