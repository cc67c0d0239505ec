//! Scales: values that are summed and multiplied, and what they mean.
#![tactic(auto)]

ghost use Rattle.std.specs.Prelude.{◌≡◌};
ghost use Rattle.scale.specs.Semirings.{Semiring};

mod count;
mod price;

pub use count::Count;
pub use price::Price;

/// Each value means an element of a commutative semiring, and the operations are the semiring's. Its laws are about what values mean,
/// since two values may mean the same. No value is refused.
pub trait Scale: Copy {
    ghost Meaning: { Type 0 };

    ghost mean: { Self → Meaning };

    ghost ring: { Semiring Meaning };

    /// Changes nothing in a sum.
    fn nought() -> Self
        ensures { mean result ≡ ring.nought };

    /// Changes nothing in a product.
    fn unit() -> Self
        ensures { mean result ≡ ring.unit };

    fn sum(self, other: Self) -> Self
        ensures { mean result ≡ ring.plus (mean self) (mean other) };

    fn product(self, other: Self) -> Self
        ensures { mean result ≡ ring.times (mean self) (mean other) };
}
