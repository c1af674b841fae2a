ghost use Rattle.std.specs.Prelude.{◌≡◌, ◌<◌, ◌≤◌, [], ◌∷◌, ◌++◌, length, take};
ghost use Rattle.std.specs.Fn.{FnOnceReturnsAtMut};
ghost use Rattle.bounded.specs.Held.{held};

use super::bounded::Bounded;

/// What `change` does to the first `count` elements; the others stay.
fn change_front<T, F: FnOnce(&mut [T])>(items: &mut [T], count: usize, change: F)
    requires within { count ≤ length items.old }
    requires callable { F.IsAlwaysCallable change }
    ensures { FnOnceReturnsAtMut F.FnOnce change (take count items.old) tt (take count items.new) }
{
    change(&mut items[..count]);
}

impl<T: Copy, const N: usize> Bounded<T, N> {
    /// No element yet. `unused` fills the places, and is no element.
    pub fn new(unused: T) -> Bounded<T, N>
        ensures { held result ≡ [] }
    {
        Bounded {
            places: [unused; N],
            count: 0,
        }
    }

    /// One more element, behind the others; one past the `N`th is left out.
    pub fn push(&mut self, item: T)
        ensures room { length (held self.old) < N → held self.new ≡ held self.old ++ item ∷ [] }
        ensures full { N ≤ length (held self.old) → held self.new ≡ held self.old }
    {
        let count = self.count;
        if count < N {
            self.places[count] = item;
            self.count = count + 1;
        }
    }

    /// What `change` does to the elements, of which it can remove none.
    pub fn edit<F: FnOnce(&mut [T])>(&mut self, change: F)
        requires { F.IsAlwaysCallable change }
        ensures { FnOnceReturnsAtMut F.FnOnce change (held self.old) tt (held self.new) }
    {
        let count = self.count;
        change_front(&mut self.places, count, change);
    }

    /// The elements, in order.
    pub fn as_slice(&self) -> &[T]
        ensures value { result.now ≡ held self.now }
        ensures small { length result.now ≤ N }
    {
        &self.places[..self.count]
    }
}
