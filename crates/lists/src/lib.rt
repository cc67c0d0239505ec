//! Lists in fixed memory.
#![tactic(auto)]

ghost use Rattle.std.specs.Prelude.{◌≡◌, ◌≤◌, length, ⊤};

use std::alloc::AllocError;
use std::fmt;

#[cfg(test)]
mod tests;

// The library's `ArrayVec` is not `Copy`, and does not say what the places behind its items hold.
/// Up to `N` items, one after the other.
#[derive(Drop)]
pub struct FixedList<T, const N: usize> {
    // The items are the first `len` places.
    places: [T; N],
    len: usize,
    ghost sized: { length places ≡ N },
    ghost within: { len ≤ N },
}

// `Clone` is not derived for a struct that has a ghost field and a type parameter.
impl<T: Copy, const N: usize> Copy for FixedList<T, N> {}

impl<T: Copy, const N: usize> Clone for FixedList<T, N> {
    ghost is_clone = { λ list copy. copy ≡ list };

    ghost is_infallible = { λ _. ⊤ };

    fn clone(&self) -> Result<FixedList<T, N>, AllocError> {
        Ok(*self)
    }
}

/// Two lists are equal when their items are, whatever stands behind them.
impl<T: Copy + PartialEq, const N: usize> PartialEq for FixedList<T, N> {
    ghost use Rattle.std.specs.Cmp.{on_per};
    ghost use Rattle.std.specs.Cmp.Lexicographic.{pointwise, lists_per};
    ghost use Rattle.lists.specs.Items.{items_of};

    ghost eq = { λ v w. pointwise T.eq (items_of v) (items_of w) };

    ghost laws = { on_per (λ v. items_of v) (lists_per T.PartialEq.laws) };

    fn eq(&self, other: &Self) -> bool {
        self.as_slice() == other.as_slice()
    }
}

impl<T: Copy + Eq, const N: usize> Eq for FixedList<T, N> {
    ghost use Rattle.std.specs.Cmp.{on_equiv};
    ghost use Rattle.std.specs.Cmp.Lexicographic.{lists_equiv};
    ghost use Rattle.lists.specs.Items.{items_of};

    ghost laws = { on_equiv (λ v. items_of v) (lists_equiv T.Eq.laws) };
}

/// The items are printed, and not what stands behind them.
impl<T: Copy + fmt::Debug, const N: usize> fmt::Debug for FixedList<T, N> {
    fn fmt<W: fmt::Write>(&self, f: &mut fmt::Formatter<W>) -> fmt::Result {
        f.debug_list().entries(self.as_slice()).finish()
    }
}

impl<T: Copy, const N: usize> FixedList<T, N> {
    ghost use Rattle.std.specs.Prelude.{◌<◌, [], ◌∷◌, ◌++◌, drop, replicate, slice_set};
    ghost use Rattle.lists.specs.Items.{items_of, rest_of};

    /// No item: each place holds the filler.
    #[inline(always)]
    pub fn new(filler: T) -> FixedList<T, N>
        ensures items { items_of result ≡ [] }
        ensures rest { rest_of result ≡ replicate N filler }
    {
        FixedList {
            places: [filler; N],
            len: 0,
        }
    }

    // A constant that is lent is copied at once, where `new` fills place by place and moves what it filled.
    /// No item: each place holds what the lent one does.
    #[inline(always)]
    pub fn over(places: &[T; N]) -> FixedList<T, N>
        ensures items { items_of result ≡ [] }
        ensures rest { rest_of result ≡ places.now }
    {
        let places = *places;
        FixedList { places, len: 0 }
    }

    /// The items, in order.
    #[inline(always)]
    pub fn as_slice(&self) -> &[T]
        ensures items { result.now ≡ items_of self.now }
        ensures few { length result.now ≤ N }
    {
        &self.places[..self.len]
    }

    /// Puts one more item behind the others. The caller has shown that there is room.
    #[inline(always)]
    pub fn push(&mut self, item: T)
        requires { length (items_of self.old) < N }
        ensures items { items_of self.new ≡ items_of self.old ++ (item ∷ []) }
        ensures rest { rest_of self.new ≡ drop 1 (rest_of self.old) }
    {
        self.places[self.len] = item;
        self.len += 1;
    }

    /// Puts an item in the place of one.
    #[inline(always)]
    pub fn set(&mut self, number: usize, item: T)
        requires { number < length (items_of self.old) }
        ensures items { items_of self.new ≡ slice_set (items_of self.old) number item }
        ensures rest { rest_of self.new ≡ rest_of self.old }
    {
        self.places[number] = item;
    }
}
