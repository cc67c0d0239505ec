//! Sets of the numbers 0 to 255, over four words.
ghost use Rattle.std.specs.Prelude.{◌≡◌, ℕ, ◌<◌, ◌≤◌, false, not, ◌&&◌, ◌||◌, Decides, ◌==◌, count_ones, nat_lt, slice_index};
ghost use Rattle.std.specs.Int.{bit_at};
ghost use Rattle.std.specs.Iterator.{at_most};
ghost use Rattle.std.specs.List.{list_any};
ghost use Rattle.graph.specs.Members.{member, tally, Lowest, TakesLowest};

use std::array;

/// A set of the numbers 0 to 255: number k is bit k % 64 of word k / 64.
#[derive(Clone, Copy, PartialEq, Eq, Debug)]
pub struct MemberSet {
    words: [u64; 4],
}

impl MemberSet {
    // The set of no number, as a constant.
    pub(crate) const EMPTY: MemberSet = MemberSet { words: [0; 4] };

    /// The set of no number.
    pub fn empty() -> MemberSet
        ensures { (k : ℕ) → member result k ≡ false }
    {
        MemberSet::EMPTY
    }

    /// The numbers below `end`, as far as they go up to 255.
    pub fn below(end: usize) -> MemberSet
        ensures { (k : ℕ) → member result k ≡ (nat_lt k 256 && nat_lt k end) }
    {
        MemberSet {
            words: [0, 64, 128, 192].map(|start| low_bits(end.saturating_sub(start))),
        }
    }

    /// Whether the set has `k`.
    pub fn contains(self, k: u8) -> bool
        ensures { result ≡ member self k }
    {
        self.words[k as usize / 64] >> (k % 64) & 1 == 1
    }

    /// Puts `k` in.
    pub fn insert(&mut self, k: u8)
        ensures { (j : ℕ) → member self.new j ≡ (member self.old j || j == k) }
    {
        self.words[k as usize / 64] |= 1 << (k % 64);
    }

    /// Takes `k` out.
    pub fn remove(&mut self, k: u8)
        ensures { (j : ℕ) → member self.new j ≡ (member self.old j && not (j == k)) }
    {
        self.words[k as usize / 64] &= !(1 << (k % 64));
    }

    // The set whose words are made of the words of two sets, place by place.
    fn by_words<F: Fn(u64, u64) -> u64>(self, other: MemberSet, f: F) -> MemberSet
        requires { F.IsAlwaysCallable f }
        ensures { (i : ℕ) → i < 4 → F.post f (slice_index self.words i) (slice_index other.words i) (slice_index result.words i) }
    {
        MemberSet {
            words: array::from_fn(|i| f(self.words[i], other.words[i])),
        }
    }

    /// What is in either set.
    pub fn union(self, other: MemberSet) -> MemberSet
        ensures { (k : ℕ) → member result k ≡ (member self k || member other k) }
    {
        self.by_words(other, |a, b| a | b)
    }

    /// What is in both sets.
    pub fn intersection(self, other: MemberSet) -> MemberSet
        ensures { (k : ℕ) → member result k ≡ (member self k && member other k) }
    {
        self.by_words(other, |a, b| a & b)
    }

    /// What is in this set and not in the other.
    pub fn difference(self, other: MemberSet) -> MemberSet
        ensures { (k : ℕ) → member result k ≡ (member self k && not (member other k)) }
    {
        self.by_words(other, |a, b| a & !b)
    }

    /// The lowest number of the set, or none where it is empty.
    pub fn lowest(self) -> Option<u8>
        ensures { Lowest (member self) result }
    {
        for (i, word) in self.words.iter().enumerate() {
            if *word != 0 {
                return Some((64 * i + word.trailing_zeros() as usize) as u8);
            }
        }
        None
    }

    /// Takes the lowest number out, or none where the set is empty.
    pub fn pop_first(&mut self) -> Option<u8>
        ensures { TakesLowest (member self.old) result (member self.new) }
    {
        let first = self.lowest()?;
        self.remove(first);
        Some(first)
    }

    /// Whether the set has no number.
    pub fn is_empty(self) -> bool
        ensures { Decides result ((k : ℕ) → member self k ≡ false) }
    {
        self.lowest().is_none()
    }

    /// How many numbers the set has.
    pub fn count(self) -> usize
        ensures { result ≡ tally (member self) 256 }
    {
        self.words.iter().map(|word| word.count_ones()).sum::<u32>() as usize
    }
}

impl<const N: usize> From<[u8; N]> for MemberSet {
    ghost from_gives = { λ numbers set. (k : ℕ) → member set k ≡ list_any (λ x. k == x) numbers };

    fn from(numbers: [u8; N]) -> MemberSet {
        let mut set = MemberSet::empty();
        for x in &numbers {
            set.insert(*x);
        }
        set
    }
}

/// The numbers of a set, from the lowest on.
#[derive(Clone, Copy, PartialEq, Eq, Debug)]
pub struct Members {
    left: MemberSet,
}

impl Iterator for Members {
    type Item = u8;

    ghost next_gives = { λ s r t. TakesLowest (member s.left) r (member t.left) };

    ghost remaining = { λ s. at_most (tally (member s.left) 256) };

    fn next(&mut self) -> Option<u8> {
        self.left.pop_first()
    }
}

impl IntoIterator for MemberSet {
    type Item = u8;

    type IntoIter = Members;

    ghost into_iter_gives = { λ set members. members.left ≡ set };

    fn into_iter(self) -> Members {
        Members { left: self }
    }
}

// A word with its lowest `n` bits set; with all of them, where `n` is 64 or more.
fn low_bits(n: usize) -> u64
    ensures { (j : ℕ) → j < 64 → (bit_at result j == 1) ≡ nat_lt j n }
{
    if n < 64 { (1 << n) - 1 } else { u64::MAX }
}
