ghost use Rattle.std.specs.Prelude.{◌≡◌};
ghost use Rattle.short_list.specs.Places.{held_in, stored, removed, store_answer};

use super::element::Element;
use super::places::{holds_in, remove_in, store_in};
use refusal::Refusal;

/// A short list over places that the caller lends. The caller has them back, changed, when the list ends.
#[derive(Drop)]
pub struct ShortList<'a, T> {
    places: &'a mut [T],
}

impl<'a, T: Element> ShortList<'a, T> {
    pub fn new(places: &'a mut [T]) -> ShortList<'a, T>
        ensures places { result.places.now ≡ places.old }
        ensures lent { result.places.ghost_name ≡ places.entry.ghost_name }
    {
        ShortList { places }
    }

    pub fn holds(&self, x: T) -> bool
        ensures { result ≡ held_in T.Same.alike x self.now.places.now }
    {
        holds_in(self.places, x)
    }

    /// Stores x, or refuses where the list has no place.
    pub fn store(&mut self, x: T) -> Result<(), Refusal>
        ensures answer { result ≡ store_answer self.old.places.now }
        ensures places { self.new.places.now ≡ stored T.Same.alike T.Element.blank x self.old.places.now }
        ensures lent { self.new.places.ghost_name ≡ self.old.places.ghost_name }
    {
        store_in(self.places, x)
    }

    /// Empties every place that holds x.
    pub fn remove(&mut self, x: T)
        ensures places { self.new.places.now ≡ removed T.Same.alike T.Element.blank x self.old.places.now }
        ensures lent { self.new.places.ghost_name ≡ self.old.places.ghost_name }
    {
        remove_in(self.places, x);
    }
}
