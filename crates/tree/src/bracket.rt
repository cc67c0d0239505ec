//! Brackets round a chance, in billionths, and the chance of a form.
ghost use Rattle.std.specs.Prelude.{◌≡◌, ℕ, ◌≤◌, min, length};
ghost use Rattle.tree.specs.Formulas.{Form, ReadOnce};
ghost use Rattle.tree.specs.Layout.{laid};
ghost use Rattle.tree.specs.Chances.{down, up, left, sureness, bracket_under, form_bracket, Near};
ghost use Rattle.tree.specs.Passes.{Placed};

use super::layout::Layout;
use super::pass::{Combine, fold};
use super::{Kind, PLACES};

const WHOLE: u64 = 1_000_000_000;

/// Two ends that a chance lies between, both included.
#[derive(Clone, Copy, PartialEq, Eq, Debug)]
pub struct Bracket {
    low: u64,
    high: u64,
    ghost ordered: { (low ≤ high) × (high ≤ 1000000000) },
}

impl Bracket {
    /// A chance that is known; a larger number is read as certainty.
    pub fn known(chance: u64) -> Bracket
        ensures low { result.low ≡ min chance 1000000000 }
        ensures high { result.high ≡ min chance 1000000000 }
    {
        let chance = chance.min(WHOLE);
        Bracket {
            low: chance,
            high: chance,
        }
    }

    /// The low end and the high end.
    pub fn ends(self) -> (u64, u64)
        ensures { result ≡ (self.low, self.high) }
    {
        (self.low, self.high)
    }

    /// Both of two independent parts: low rounded down, high rounded up.
    pub fn and(self, other: Bracket) -> Bracket
        ensures low { result.low ≡ down self.low other.low }
        ensures high { result.high ≡ up self.high other.high }
    {
        Bracket {
            low: self.low * other.low / WHOLE,
            high: (self.high * other.high).div_ceil(WHOLE),
        }
    }

    // The bracket of the part that fails where this one holds.
    fn complement(self) -> Bracket
        ensures low { result.low ≡ left self.high }
        ensures high { result.high ≡ left self.low }
    {
        Bracket {
            low: WHOLE - self.high,
            high: WHOLE - self.low,
        }
    }

    /// At least one of two independent parts: the whole less both failing, rounded outwards.
    pub fn or(self, other: Bracket) -> Bracket
        ensures low { result.low ≡ left (up (left self.low) (left other.low)) }
        ensures high { result.high ≡ left (down (left self.high) (left other.high)) }
    {
        self.complement().and(other.complement()).complement()
    }
}

impl Combine for Bracket {
    ghost Meaning = { ℕ × ℕ };

    ghost mean = { λ b. (b.low, b.high) };

    ghost op = { bracket_under };

    fn combine(self, kind: Kind, other: Bracket) -> Bracket {
        match kind {
            Kind::And => self.and(other),
            Kind::Or => self.or(other),
        }
    }
}

/// The bracket round the chance of the form, from how sure each row is.
pub fn chance(layout: Layout, sure: &[u64]) -> Bracket
    requires few { length layout.nodes.now ≤ 511 }
    requires placed { Placed layout.nodes.now (length sure.now) }
    ensures bracket { (F : Form) → layout.entry.nodes.now ≡ laid F → (result.low, result.high) ≡ form_bracket (sureness sure.now) F }
    ensures near { (F : Form) → layout.entry.nodes.now ≡ laid F → ReadOnce F → Near (sureness sure.now) F (result.low, result.high) }
{
    let mut brackets = [Bracket::known(0); PLACES];
    fold(
        layout,
        &mut brackets,
        |row| Bracket::known(sure[row as usize]),
        Bracket::known(0),
    )
}
