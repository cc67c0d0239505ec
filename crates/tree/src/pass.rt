//! One pass over laid out nodes, for values that an and and an or combine.
ghost use Rattle.std.specs.Prelude.{◌≡◌, ℕ, ◌+◌, ◌<◌, ◌≤◌, length, drop, slice_index_or};
ghost use Rattle.tree.specs.Formulas.{Form, row};
ghost use Rattle.tree.specs.Nodes.{inner};
ghost use Rattle.tree.specs.Layout.{laid, parts};
ghost use Rattle.tree.specs.Passes.{Worked, Reads, folded, form_folded};
ghost use Rattle.tree.specs.declared.Kind.{Kind};
ghost use Rattle.tree.specs.declared.Node.TheVariants.{Vacant, Row};

use super::layout::Layout;
use super::{Kind, Node};

/// Values of formulas, combined as the node over them says.
pub trait Combine: Copy {
    ghost Meaning: { Type 0 };

    ghost mean: { Self → Meaning };

    ghost op: { Kind → Meaning → Meaning → Meaning };

    fn combine(self, kind: Kind, other: Self) -> Self
        ensures { mean result ≡ op kind (mean self) (mean other) };
}

// Values are lent apart from the nodes, and a place is a number: so each call asks that they fit together.

// The value of the and or the or at a place, whose children are worked out: theirs combined, first to last.
fn gathered<V: Combine>(layout: Layout, values: &[V], kind: Kind, at: usize, size: usize) -> V
    requires inside { at < length layout.nodes.now }
    requires there { slice_index_or layout.nodes.now at Vacant ≡ inner kind size }
    requires room { length layout.nodes.now ≤ length values.now }
    ensures { (F : Form) (leaf : ℕ → V.Combine.Meaning) → layout.entry.nodes.now ≡ laid F → Worked V.Combine.mean (folded leaf V.Combine.op) (parts F) (at + 1) values.now → V.Combine.mean result ≡ folded leaf V.Combine.op (slice_index_or (parts F) at (row 0)) }
{
    let mut value = values[at + 1];
    for child in layout.later_children(at, size) {
        value = value.combine(kind, values[child]);
    }
    value
}

/// Puts at each node's place the value of its formula, and answers the form's: a row's is its leaf, and never has the one that is given.
/// The last node comes first, so that the children of an and or an or are ready.
// A node's value stands at the node's own place, in memory that the caller lends, so the loop goes by places.
pub(crate) fn fold<V: Combine, L: Fn(u8) -> V>(
    layout: Layout,
    values: &mut [V],
    leaf: L,
    never: V,
) -> V
    requires callable { (k r : ℕ) → k < length layout.nodes.now → slice_index_or layout.nodes.now k Vacant ≡ Row r → L.pre leaf r }
    requires room { length layout.nodes.now ≤ length values.old }
    ensures worked { (F : Form) (means : ℕ → V.Combine.Meaning) → layout.entry.nodes.now ≡ laid F → Reads V.Combine.mean means (L.post leaf) layout.entry.nodes.now → Worked V.Combine.mean (folded means V.Combine.op) (parts F) 0 values.new }
    ensures answer { (F : Form) (means : ℕ → V.Combine.Meaning) → layout.entry.nodes.now ≡ laid F → Reads V.Combine.mean means (L.post leaf) layout.entry.nodes.now → V.Combine.mean result ≡ form_folded (V.Combine.mean never) means V.Combine.op F }
    ensures beyond { drop (length layout.entry.nodes.now) values.new ≡ drop (length layout.entry.nodes.now) values.old }
{
    for at in (0..layout.nodes.len()).rev() {
        let node = layout.nodes[at];
        if let Node::Row(row) = node {
            values[at] = leaf(row);
        } else if let Some((kind, size)) = node.inner() {
            values[at] = gathered(layout, values, kind, at, size);
        }
    }
    if layout.nodes.is_empty() {
        never
    } else {
        values[0]
    }
}
