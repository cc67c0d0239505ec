//! Counts: whole numbers added and multiplied, cut at 1,000,000,000.
ghost use Rattle.std.specs.Prelude.{◌≡◌, min, ◌≤◌};
ghost use Rattle.std.proofs.Common.{lit≤};
ghost use Rattle.scale.specs.Counts.{counts};
ghost use Rattle.scale.specs.Cuts.{UpTo};

use super::Scale;

const MOST: u64 = 1_000_000_000;

/// A whole number up to 1,000,000,000.
#[derive(Clone, Copy, PartialEq, Eq, Debug)]
pub struct Count {
    number: u64,
    ghost small: { number ≤ 1000000000 },
}

impl Count {
    /// The number; a larger one is read as 1,000,000,000.
    pub fn new(number: u64) -> Count
        ensures { result.number ≡ min number 1000000000 }
    {
        Count {
            number: number.min(MOST),
        }
    }

    /// The number that it is.
    pub fn value(self) -> u64
        ensures { result ≡ self.number }
    {
        self.number
    }
}

impl Scale for Count {
    ghost Meaning = { UpTo 1000000000 };

    ghost mean = { λ x. (x.number, x.small) };

    ghost ring = { counts 1000000000 (lit≤ tt) };

    fn nought() -> Count {
        Count { number: 0 }
    }

    fn unit() -> Count {
        Count { number: 1 }
    }

    fn sum(self, other: Count) -> Count {
        Count::new(self.value() + other.value())
    }

    fn product(self, other: Count) -> Count {
        Count::new(self.value() * other.value())
    }
}
