//! The crate on small graphs.
use crate::answers::Split;
use crate::chains::chain;
use crate::graphs::{Complement, Graph, Selection};
use crate::sets::MemberSet;
use crate::splits::split;
use crate::stored::StoredGraph;

// What a test compares of a split: how many parts there are, and not which.
#[derive(Clone, Copy, PartialEq, Eq, Debug)]
enum Kind {
    Empty,
    Single(u8),
    InGraph(usize),
    InComplement(usize),
    Stuck,
}

fn kind_of<G: Graph>(graph: &G, selected: MemberSet) -> Kind {
    match split(graph, selected) {
        Split::Empty => Kind::Empty,
        Split::Single(x) => Kind::Single(x),
        Split::InGraph(parts) => Kind::InGraph(parts.as_slice().len()),
        Split::InComplement(parts) => Kind::InComplement(parts.as_slice().len()),
        Split::Stuck(_) => Kind::Stuck,
    }
}

// A graph of so many members with each next two of the list joined.
fn path(size: usize, members: &[u8]) -> StoredGraph {
    let mut graph = StoredGraph::new(size);
    for pair in members.windows(2) {
        if let [a, b] = pair {
            graph.join(*a, *b);
        }
    }
    graph
}

#[test]
fn splits(rt: HostRuntime) {
    let chain = path(4, &[0, 1, 2, 3]);
    let ring = path(4, &[0, 1, 2, 3, 0]);
    let parts = path(6, &[0, 4, 2]);
    let cases = [
        (chain, MemberSet::from([]), Kind::Empty, Kind::Empty),
        (
            chain,
            MemberSet::from([2, 255]),
            Kind::Single(2),
            Kind::Single(2),
        ),
        (
            chain,
            MemberSet::from([0, 1, 2]),
            Kind::InComplement(2),
            Kind::InGraph(2),
        ),
        (
            chain,
            MemberSet::from([0, 1, 2, 3]),
            Kind::Stuck,
            Kind::Stuck,
        ),
        (
            ring,
            MemberSet::from([0, 1, 2, 3]),
            Kind::InComplement(2),
            Kind::InGraph(2),
        ),
        (
            parts,
            MemberSet::from([0, 1, 2, 4]),
            Kind::InGraph(2),
            Kind::InComplement(2),
        ),
    ];
    for (graph, selected, kind, cokind) in cases {
        assert_eq!(rt; kind_of(&graph, selected), kind);
        assert_eq!(rt; kind_of(&Complement { of: &graph }, selected), cokind);
    }
}

#[test]
fn complete(rt: HostRuntime) {
    let mut graph = StoredGraph::new(1000);
    graph.join_all(MemberSet::below(256));
    assert_eq!(rt;
        kind_of(&graph, MemberSet::below(256)),
        Kind::InComplement(256)
    );
    assert_eq!(rt; kind_of(&graph, MemberSet::from([255])), Kind::Single(255));
}

#[test]
fn chains(rt: HostRuntime) {
    let ring = path(5, &[0, 1, 2, 3, 0]);
    assert_eq!(rt; chain(&ring, MemberSet::below(5)), None);
    let opened = path(5, &[0, 1, 2, 3]);
    assert_eq!(rt; chain(&opened, MemberSet::below(5)), Some([0, 1, 2, 3]));
    let some = Selection {
        graph: &opened,
        selected: MemberSet::from([0, 1, 2]),
    };
    assert!(rt; some.joined(0, 1) && !some.joined(2, 3) && !some.joined(0, 300));
}

#[test]
fn members(rt: HostRuntime) {
    let set = MemberSet::from([64, 255]);
    assert!(rt; set.count() == 2 && set.contains(255) && !set.contains(63));
    assert_eq!(rt; set.lowest(), Some(64));
    assert_eq!(rt; MemberSet::below(256).difference(set).lowest(), Some(0));
    assert!(rt; MemberSet::empty().is_empty());
}

#[test]
fn in_order(rt: HostRuntime) {
    let mut set = MemberSet::from([255, 64, 3, 64]);
    assert_eq!(rt; set.pop_first(), Some(3));
    let mut numbers = set.into_iter();
    assert_eq!(rt; numbers.next(), Some(64));
    assert_eq!(rt; numbers.next(), Some(255));
    assert_eq!(rt; numbers.next(), None);
    assert_eq!(rt; set, MemberSet::from([64, 255]));
}
