ghost use Rattle.std.specs.Prelude.{◌≡◌, [], ◌∷◌};
ghost use Rattle.effects.specs.Cards.{located, registered_at, unregistered};

use card::{Card, EF_LOCI};
use plmn::Code;

fn update_location<C: Card>(card: &mut C, place: [u8; 5], status: u8)
    ensures { C.Card.files card.new ≡ located place status (C.Card.files card.old) }
{
    let _ = card.update(EF_LOCI, 4, &place);
    let _ = card.update(EF_LOCI, 10, &[status]);
}

/// Writes the location of an acceptance: the code, the area's number, high byte first, and the status 00.
pub fn write_location<C: Card>(card: &mut C, code: Code, area: u16)
    ensures { C.Card.files card.new ≡ registered_at code area (C.Card.files card.old) }
{
    let [high, low] = area.to_be_bytes();
    let place = [code.first, code.second, code.third, high, low];
    update_location(card, place, 0);
}

/// Writes that there is no location: FF FF FF FF FE, and the status 01.
pub fn clear_location<C: Card>(card: &mut C)
    ensures { C.Card.files card.new ≡ unregistered (C.Card.files card.old) }
{
    let place = [0xFF, 0xFF, 0xFF, 0xFF, 0xFE];
    update_location(card, place, 1);
}
