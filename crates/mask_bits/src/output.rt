//! The output buffer, made before items are put into it: a list's own spare capacity, or the front of a slice that a
//! caller lends.

ghost use Rattle.std.specs.Prelude.{◌≤◌, length};

use crate::unchecked::put;

/// Room for items, of which none is tested for its place.
pub trait Room<T> {
    ghost use Rattle.std.specs.Prelude.{◌≡◌, ◌+◌, ◌^◌, ◌<◌, ◌≤◌, ◌++◌, ◌∷◌, [], ℕ, List, length, take};

    /// The items that were put into it.
    ghost items: { Self → List T };

    /// What stays as it is, and for how many items there is room by it.
    ghost Kept: { Type 0 };

    ghost kept: { Self → Kept };

    ghost capacity: { Kept → ℕ };

    fn put(&mut self, item: T)
        requires { length (items self.old) < capacity (kept self.old) }
        ensures items { items self.new ≡ items self.old ++ item ∷ [] }
        ensures kept { kept self.new ≡ kept self.old };

    fn count(&self) -> usize
        ensures count { result ≡ length (items self.now) }
        ensures fits { capacity (kept self.now) < 2 ^ 64 };

    /// For how many more there is room.
    fn spare(&self) -> usize
        ensures { length (items self.now) + result ≡ capacity (kept self.now) };

    fn truncate(&mut self, count: usize)
        requires { count ≤ length (items self.old) }
        ensures items { items self.new ≡ take count (items self.old) }
        ensures kept { kept self.new ≡ kept self.old };
}

impl<T: Copy> Room<T> for Vec<T> {
    ghost use Rattle.std.specs.Prelude.{ℕ};
    ghost use Rattle.std.specs.Vec.{vec_capacity};

    ghost items = { λ v. v.items };

    ghost Kept = { ℕ };

    ghost kept = { vec_capacity };

    ghost capacity = { λ n. n };

    #[inline(always)]
    fn put(&mut self, item: T) {
        self.push_reserved(item);
    }

    #[inline(always)]
    fn count(&self) -> usize {
        self.len()
    }

    #[inline(always)]
    fn spare(&self) -> usize {
        self.capacity() - self.len()
    }

    #[inline(always)]
    fn truncate(&mut self, count: usize) {
        Vec::truncate(self, count);
    }
}

/// The front of a slice, and how many items stand there. What is behind them has no meaning.
#[derive(Drop)]
pub struct Lent<'a, T> {
    pub out: &'a mut [T],
    pub at: usize,
    ghost within: { at ≤ length out.now },
}

impl<'a, T: Copy> Room<T> for Lent<'a, T> {
    ghost use Rattle.std.specs.Prelude.{ℕ, length, take};
    ghost use Rattle.std.specs.Borrow.{GName};

    ghost items = { λ s. take s.at s.out.now };

    ghost Kept = { GName × ℕ };

    ghost kept = { λ s. (s.out.ghost_name, length s.out.now) };

    ghost capacity = { λ k. k.1 };

    #[inline(always)]
    fn put(&mut self, item: T) {
        put(self.out, self.at, item);
        self.at += 1;
    }

    #[inline(always)]
    fn count(&self) -> usize {
        self.at
    }

    #[inline(always)]
    fn spare(&self) -> usize {
        self.out.len() - self.at
    }

    #[inline(always)]
    fn truncate(&mut self, count: usize) {
        self.at = count;
    }
}
