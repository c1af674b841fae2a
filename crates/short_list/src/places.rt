ghost use Rattle.std.specs.Prelude.{◌≡◌, ◌<◌, length, IfSome};
ghost use Rattle.short_list.specs.Places.{held_in, emptied, first_of, shifted, stored, removed, store_answer};

use super::element::{Element, Same};
use refusal::Refusal;

/// Whether a place that holds one element holds the other.
fn is_same<T: Same>(held: T, x: T) -> bool
    ensures { result ≡ T.Same.alike held x }
{
    held == x
}

/// Whether some place holds x.
pub fn holds_in<T: Same>(places: &[T], x: T) -> bool
    ensures { result ≡ held_in T.Same.alike x places.now }
{
    places.iter().any(|held| is_same(*held, x))
}

/// The first place that holds x.
fn first_in<T: Same>(places: &[T], x: T) -> Option<usize>
    ensures value { result ≡ first_of T.Same.alike x places.now }
    ensures within { IfSome result (λ i. i < length places.now) }
{
    places.iter().position(|held| is_same(*held, x))
}

/// Every element moves down by one place, the first is lost, and x stands last.
fn shift_in<T: Element>(places: &mut [T], x: T)
    requires { 0 < length places.old }
    ensures { places.new ≡ shifted x places.old }
{
    places.rotate_left(1);
    let last = places.len() - 1;
    places[last] = x;
}

/// Stores x: a held element changes nothing, else the first empty place takes it, else the list shifts.
pub(crate) fn store_in<T: Element>(places: &mut [T], x: T) -> Result<(), Refusal>
    ensures answer { result ≡ store_answer places.old }
    ensures places { places.new ≡ stored T.Same.alike T.Element.blank x places.old }
{
    if places.is_empty() {
        return Err(Refusal::NoPlaces);
    }
    if holds_in(places, x) {
        return Ok(());
    }
    match first_in(places, T::empty()) {
        Some(i) => places[i] = x,
        None => shift_in(places, x),
    }
    Ok(())
}

/// What a place holds once x is removed.
fn cleared<T: Element>(held: T, x: T) -> T
    ensures { result ≡ emptied T.Same.alike T.Element.blank x held }
{
    if is_same(held, x) { T::empty() } else { held }
}

/// Empties every place that holds x.
pub(crate) fn remove_in<T: Element>(places: &mut [T], x: T)
    ensures { places.new ≡ removed T.Same.alike T.Element.blank x places.old }
{
    for p in places.iter_mut() {
        *p = cleared(*p, x);
    }
}
