ghost use Rattle.short_list.specs.Places.{stored, removed};
ghost use Rattle.short_list.specs.Laws.{Storing, Removing};

use super::element::Element;

/// What storing x does to these places, in a reader's words.
pub fn storing_laws<T: Element>(places: &[T], x: T)
    ensures { Storing T.Element.blank x places.now (stored T.Same.alike T.Element.blank x places.now) }
{}

/// What removing x does to these places, in a reader's words.
pub fn removing_laws<T: Element>(places: &[T], x: T)
    ensures { Removing T.Element.blank x places.now (removed T.Same.alike T.Element.blank x places.now) }
{}
