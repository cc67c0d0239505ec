//! Prices: the cheapest of several, and several together.
ghost use Rattle.scale.specs.Cuts.{UpTo, cut};
ghost use Rattle.scale.specs.Prices.{prices};

use super::Scale;

/// A price: the sum is the smaller; the product adds, and stops at the largest number.
#[derive(Clone, Copy, PartialEq, Eq, Debug)]
pub struct Price(pub u64);

impl Scale for Price {
    ghost Meaning = { UpTo 18446744073709551615 };

    ghost mean = { λ x. cut 18446744073709551615 x.0 };

    ghost ring = { prices 18446744073709551615 };

    fn nought() -> Price {
        Price(u64::MAX)
    }

    fn unit() -> Price {
        Price(0)
    }

    fn sum(self, other: Price) -> Price {
        Price(self.0.min(other.0))
    }

    fn product(self, other: Price) -> Price {
        Price(self.0.saturating_add(other.0))
    }
}
