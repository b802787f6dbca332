// Rows in a fixed number of places, for memories and tables that take none from the heap.
mod calls;

ghost use Rattle.std.specs.Prelude.{◌≡◌, ◌≤◌, length, ⊤};

use std::alloc::AllocError;

// The first `len` of N places are the entries, oldest first; what stands behind them does not count. It has no model, since a
// type that is `Copy` needs one that gives its fields back, and the entries do not give back the places behind them. Not the kit's
// `ArrayVec`, since that is not `Copy`, which memories and tables are.
pub struct FixedRow<T, const N: usize> {
    places: [T; N],
    len: usize,
    ghost size: { length places ≡ N },
    ghost within: { len ≤ N },
}

// By hand, since neither can be derived for a type with a parameter and ghost fields.
impl<T: Copy, const N: usize> Copy for FixedRow<T, N> {}

impl<T: Copy, const N: usize> Clone for FixedRow<T, N> {
    ghost is_clone = { λ x y. y ≡ x };

    ghost is_infallible = { λ _. ⊤ };

    fn clone(&self) -> Result<Self, AllocError> {
        Ok(*self)
    }
}

// No place is left for one more entry.
#[derive(Clone, Copy, PartialEq, Eq, Debug)]
pub struct Full;
