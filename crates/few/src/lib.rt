// A few items: a list of at most so many, which lie in the value itself.
//
// Where a call finds out how many items it hands back, as the pages of a way or the numbers of new pages, there is no
// heap to put them on, but there is a bound. A contract sees the list alone: the places behind it hold one value, which the
// type of the items names, so the items tell the whole list, and it may be copied.
//
// Nothing stands below it.

#![tactic(auto)]

ghost use Rattle.std.specs.Prelude.{◌≡◌, ◌+◌, ◌<◌, ◌≤◌, [], ◌∷◌, ◌++◌, length, ⊤};

use std::alloc::AllocError;
use std::marker::Model;

// A type of items. Its spare value lies in each place of a list that holds no item.
pub trait Spare: Copy {
    ghost spare_is: { Self };

    fn spare() -> Self
        ensures { result ≡ spare_is };
}

impl Spare for u8 {
    ghost spare_is = { 0 };

    fn spare() -> u8 {
        u8::default()
    }
}

impl Spare for u16 {
    ghost spare_is = { 0 };

    fn spare() -> u16 {
        u16::default()
    }
}

// A list of at most N items.
pub struct Few<T: Spare, const N: usize> {
    items: [T; N],
    len: usize,
}

impl<T: Spare, const N: usize> Model for Few<T, N> {
    ghost use Rattle.std.specs.Prelude.{◌≤◌, ◌≡◌, ◌-◌, ◌++◌, List, take, drop, length, replicate};
    ghost use Rattle.few.specs.Fields.{items_told, len_told};

    ghost Value = { List T };

    ghost view = { λ f. take f.len f.items };

    ghost invariant = { λ f. (f.len ≤ N) × (length f.items ≡ N) × (drop f.len f.items ≡ replicate (N - f.len) T.spare_is) };

    ghost inverse = { λ xs. record { items = xs ++ replicate (N - length xs) T.spare_is; len = length xs } };

    ghost inverse_ok = { λ f h i. record {
      items = items_told T.spare_is f.items f.len N h.0 h.1 h.2 i;
      len = len_told T.spare_is f.items f.len N h.0 h.1 i;
    } };
}

impl<T: Spare, const N: usize> Copy for Few<T, N> {}

impl<T: Spare, const N: usize> Clone for Few<T, N> {
    ghost is_clone = { λ few copy. copy ≡ few };

    ghost is_infallible = { λ _. ⊤ };

    fn clone(&self) -> Result<Self, AllocError> {
        Ok(*self)
    }
}

impl<T: Spare, const N: usize> Few<T, N> {
    // None.
    pub fn new() -> Self
        ensures { result ≡ [] }
    {
        Few {
            items: [T::spare(); N],
            len: 0,
        }
    }

    // One more, behind the others.
    pub fn push(&mut self, item: T)
        requires { length self.old < N }
        ensures { self.new ≡ self.old ++ item ∷ [] }
    {
        self.items[self.len] = item;
        self.len += 1;
    }

    // One more, in front of the others. All places but the last move up: how far is then known before the call, and no
    // library's function is called to move them.
    pub fn push_front(&mut self, item: T)
        requires { length self.old < N }
        ensures { self.new ≡ item ∷ self.old }
    {
        self.items.copy_within(0..N - 1, 1);
        self.items[0] = item;
        self.len += 1;
    }

    // Some more, behind the others.
    pub fn extend_from_slice(&mut self, more: &[T])
        requires { length self.old + length more.now ≤ N }
        ensures { self.new ≡ self.old ++ more.now }
    {
        let end = self.len + more.len();
        let items = &mut self.items[..];
        items[self.len..end].copy_from_slice(more);
        self.len = end;
    }

    pub fn as_slice(&self) -> &[T]
        ensures items { result.now ≡ self.now }
        ensures few { length self.now ≤ N }
    {
        &self.items[..self.len]
    }
}
