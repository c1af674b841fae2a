ghost use Rattle.std.specs.Prelude.{◌≡◌, ◌≤◌, length};
ghost use Rattle.std.specs.Bool.{⊤};

use std::alloc::AllocError;

/// Up to `N` elements, in order.
pub struct Bounded<T, const N: usize> {
    pub(crate) places: [T; N],
    pub(crate) count: usize,
    ghost within: { count ≤ N },
    ghost sized: { length places ≡ N },
}

impl<T: Copy, const N: usize> Clone for Bounded<T, N> {
    ghost is_clone = { λ x y. y ≡ x };

    ghost is_infallible = { λ _. ⊤ };

    fn clone(&self) -> Result<Bounded<T, N>, AllocError> {
        Ok(*self)
    }
}

impl<T: Copy, const N: usize> Copy for Bounded<T, N> {}
