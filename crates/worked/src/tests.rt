//! Other worked trees: many rows under an or, two rows that are hardly sure, and never.
ghost use Rattle.std.specs.Prelude.{◌<◌, ◌≤◌, length};
ghost use Rattle.std.specs.List.{AllByRecursion};
ghost use Rattle.tree.specs.Trees.{Ascending};

use super::lay::lay_rows;
use scale::Count;
use tree::{Builder, Kind, Layout, Node, chance, evaluate, write_form};

// The number of worlds where one of the rows is in, counted with ones.
fn count_under_or(rows: &[u8]) -> u64
    requires two { 2 ≤ length rows.now }
    requires order { Ascending rows.now }
    requires small { AllByRecursion (λ r. r < 32) rows.now }
    requires few { length rows.now ≤ 31 }
{
    let mut nodes = [Node::Vacant; 32];
    let mut builder = Builder::new(&mut nodes, 0);
    lay_rows(Kind::Or, rows, &mut builder);
    let end = builder.place();
    let ones = [Count::new(1); 32];
    let mut pairs = [(Count::new(0), Count::new(0)); 32];
    let layout = Layout {
        nodes: &nodes[..end],
    };
    let (holds, _) = evaluate(layout, &ones, &ones, &mut pairs);
    holds.value()
}

// The chance of two rows of sureness 1.
fn two_rows(kind: Kind) -> (u64, u64) {
    let mut nodes = [Node::Vacant; 3];
    let mut builder = Builder::new(&mut nodes, 0);
    lay_rows(kind, &[0, 1], &mut builder);
    let end = builder.place();
    let layout = Layout {
        nodes: &nodes[..end],
    };
    chance(layout, &[1, 1]).ends()
}

#[test]
fn counts_stop_at_the_most(rt: HostRuntime) {
    let rows = [
        0, 1, 2, 3, 4, 5, 6, 7, 8, 9, 10, 11, 12, 13, 14, 15, 16, 17, 18, 19, 20, 21, 22, 23, 24,
        25, 26, 27, 28, 29,
    ];
    assert_eq!(rt; count_under_or(&rows[..29]), 536_870_911);
    assert_eq!(rt; count_under_or(&rows), 1_000_000_000);
}

#[test]
fn brackets_widen_by_one(rt: HostRuntime) {
    assert_eq!(rt; two_rows(Kind::Or), (1, 2));
    assert_eq!(rt; two_rows(Kind::And), (0, 1));
}

#[test]
fn never_fails(rt: HostRuntime) {
    let none: [Count; 0] = [];
    let layout = Layout { nodes: &[] };
    let (holds, fails) = evaluate(layout, &none, &none, &mut []);
    assert_eq!(rt; (holds.value(), fails.value()), (0, 1));
    assert_eq!(rt; chance(layout, &[]).ends(), (0, 0));
    let mut text = [b'-'; 8];
    assert_eq!(rt; write_form(layout, &mut text), 5);
    assert!(rt; text == *b"never---");
}
