ghost use Rattle.std.specs.Prelude.{◌≡◌};
ghost use Rattle.subscriber.specs.Codes.{codes_in};
ghost use Rattle.conclusions.specs.Conclusions.{by_effect as stateByEffect, state_by, touches as touchesIn, any_touches, equivalents_after, location_after, forbidden_after};

use card::{Card, EF_FPLMN};
use causes::{Effect, Heard, rule_of};
use effects::{accepted_codes, clear_location, write_codes, write_location};
use plmn::Row;
use radio::{Answer, Registrar};
use states::{Serving, State};
use subscriber::CodeList;

fn state_by_effect(effect: Effect, row: Row) -> State
    ensures { result ≡ stateByEffect effect row }
{
    match effect {
        Effect::Lock => State::Locked,
        _ => State::Limited(Serving::from(row)),
    }
}

/// The state after the answer that ended the tries, or the other one where none did.
pub fn state_by(end: Option<Heard>, otherwise: State) -> State
    ensures { result ≡ state_by end otherwise }
{
    match end {
        Some(h) => match h.answer {
            Answer::Acceptance(_) => State::Registered(Serving::from(h.row)),
            Answer::Rejection(cause) => state_by_effect(rule_of(cause).effect, h.row),
            Answer::Silence => State::Limited(Serving::from(h.row)),
        },
        None => otherwise,
    }
}

/// Whether an answer can change the forbidden list.
fn touches(h: Heard) -> bool
    ensures { result ≡ touchesIn h.answer }
{
    match h.answer {
        Answer::Acceptance(_) => true,
        Answer::Rejection(cause) => match rule_of(cause).effect {
            Effect::Forbid => true,
            _ => false,
        },
        Answer::Silence => false,
    }
}

fn any_touches(heard: &[Heard]) -> bool
    ensures { result ≡ any_touches heard.now }
{
    heard.iter().any(|h| touches(*h))
}

/// Writes the forbidden list back where an answer can have changed it.
pub fn keep_forbidden<C: Card>(card: &mut C, heard: &[Heard], forbidden: &CodeList)
    ensures { C.Card.files card.new ≡ forbidden_after heard.now (codes_in forbidden.now) (C.Card.files card.old) }
{
    if any_touches(heard) {
        write_codes(card, EF_FPLMN, forbidden);
    }
}

/// Writes the location: of the acceptance that ended the tries, or none.
pub fn keep_location<C: Card>(card: &mut C, end: Option<Heard>)
    ensures { C.Card.files card.new ≡ location_after end (C.Card.files card.old) }
{
    match end {
        Some(h) => match h.answer {
            Answer::Acceptance(_) => write_location(card, h.row.code, h.row.area),
            Answer::Rejection(_) | Answer::Silence => clear_location(card),
        },
        None => clear_location(card),
    }
}

/// The equivalents that the acceptance brought that ended the tries, at this place, or none.
pub fn equivalents_by<R: Registrar>(radio: &mut R, place: usize, end: Option<Heard>) -> CodeList
    ensures value { codes_in result ≡ equivalents_after (R.Registrar.air radio.old).here place end }
    ensures air { R.Registrar.air radio.new ≡ R.Registrar.air radio.old }
{
    match end {
        Some(h) => match h.answer {
            Answer::Acceptance(n) => accepted_codes(radio, place, n),
            Answer::Rejection(_) | Answer::Silence => CodeList::none(),
        },
        None => CodeList::none(),
    }
}
