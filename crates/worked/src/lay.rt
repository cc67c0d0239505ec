//! Trees laid out by hand.
ghost use Rattle.std.specs.Prelude.{◌≡◌, ◌+◌, ◌≤◌, map, length};
ghost use Rattle.tree.specs.Formulas.{row};
ghost use Rattle.tree.specs.Nodes.{written};
ghost use Rattle.tree.specs.Layout.{nodes_of};
ghost use Rattle.tree.specs.Trees.{Ascending, over};
ghost use Rattle.tree.specs.Builders.{LaidOut, places_of};
ghost use Rattle.worked.specs.Examples.{worked};

use tree::{Builder, Kind, Node};

/// Lays out rows under one node.
pub(crate) fn lay_rows(kind: Kind, rows: &[u8], builder: &mut Builder)
    requires two { 2 ≤ length rows.now }
    requires order { Ascending rows.now }
    requires few { builder.old.at + 1 + length rows.now ≤ 511 }
    requires room { builder.old.at + 1 + length rows.now ≤ places_of builder.old }
    ensures ends { builder.new.at ≡ builder.old.at + 1 + length rows.now }
    ensures laid { LaidOut builder.old builder.new (over kind (map row rows.now)) }
{
    let place = builder.open();
    for row in rows {
        builder.put_row(*row);
    }
    builder.close(kind, place);
}

/// Lays out the worked tree, and answers its number of nodes.
pub(crate) fn lay_worked(nodes: &mut [Node]) -> usize
    requires { 9 ≤ length nodes.old }
    ensures ends { result ≡ 9 }
    ensures laid { nodes.new ≡ written nodes.old 0 (nodes_of worked) }
{
    let mut builder = Builder::new(nodes, 0);
    let top = builder.open();
    let any = builder.open();
    lay_rows(Kind::And, &[0, 2], &mut builder);
    lay_rows(Kind::And, &[1, 3], &mut builder);
    builder.close(Kind::Or, any);
    builder.put_row(4);
    builder.close(Kind::And, top);
    builder.place()
}
