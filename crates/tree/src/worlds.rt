//! The sums of world weights of every node, in any scale.
ghost use Rattle.std.specs.Prelude.{◌≡◌, ◌≤◌, length, drop};
ghost use Rattle.tree.specs.Formulas.{Form, form_rows, form_holds, ReadOnce};
ghost use Rattle.tree.specs.Worlds.{WorldSums};
ghost use Rattle.tree.specs.Layout.{laid, parts};
ghost use Rattle.tree.specs.Passes.{Placed, weighing, means, EachSums, pair_under};
ghost use Rattle.tree.specs.declared.Kind.TheVariants.{And};

use super::Kind;
use super::layout::Layout;
use super::pass::{Combine, fold};
use scale::Scale;

/// What a formula holds with, and what it fails with.
impl<S: Scale> Combine for (S, S) {
    ghost Meaning = { S.Scale.Meaning × S.Scale.Meaning };

    ghost mean = { λ p. (S.Scale.mean p.0, S.Scale.mean p.1) };

    ghost op = { pair_under S.Scale.ring };

    fn combine(self, kind: Kind, other: (S, S)) -> (S, S) {
        match kind {
            Kind::And => both(self, other),
            Kind::Or => swapped(both(swapped(self), swapped(other))),
        }
    }
}

// What two independent parts hold with together, and fail with.
fn both<S: Scale>(part: (S, S), other: (S, S)) -> (S, S)
    ensures { means S.Scale.mean result ≡ pair_under S.Scale.ring And (means S.Scale.mean part) (means S.Scale.mean other) }
{
    let (holds, fails) = part;
    let (also_holds, also_fails) = other;
    (
        holds.product(also_holds),
        fails
            .product(also_holds)
            .sum(holds.product(also_fails).sum(fails.product(also_fails))),
    )
}

// The pair of what fails where the part holds.
fn swapped<S: Scale>(part: (S, S)) -> (S, S)
    ensures { result ≡ (part.1, part.0) }
{
    let (holds, fails) = part;
    (fails, holds)
}

// Two lists and no list of pairs: they may have different lengths, which a list of pairs would forbid callers.
/// Puts the pair of every node at its place: the summed weights of the worlds of its own rows where its formula holds, and of those
/// where it fails. Answers the form's pair; never has no node, and gives nought and unit.
pub fn evaluate<S: Scale>(layout: Layout, ins: &[S], outs: &[S], pairs: &mut [(S, S)]) -> (S, S)
    requires placed { Placed layout.nodes.now (length ins.now) × Placed layout.nodes.now (length outs.now) }
    requires room { length layout.nodes.now ≤ length pairs.old }
    ensures each { (F : Form) → layout.entry.nodes.now ≡ laid F → ReadOnce F → EachSums S.Scale.ring (weighing S.Scale.ring S.Scale.mean ins.now outs.now) S.Scale.mean (parts F) pairs.new }
    ensures answer { (F : Form) → layout.entry.nodes.now ≡ laid F → ReadOnce F → WorldSums S.Scale.ring (weighing S.Scale.ring S.Scale.mean ins.now outs.now) (form_rows F) (form_holds F) (means S.Scale.mean result) }
    ensures beyond { drop (length layout.entry.nodes.now) pairs.new ≡ drop (length layout.entry.nodes.now) pairs.old }
{
    fold(
        layout,
        pairs,
        |row| (ins[row as usize], outs[row as usize]),
        (S::nought(), S::unit()),
    )
}
