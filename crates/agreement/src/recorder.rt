ghost use Rattle.std.specs.Prelude.{◌≡◌, List, [], ◌∷◌};
ghost use Rattle.selector.specs.Views.{standing};
ghost use Rattle.agreement.specs.Worlds.{World, world};
ghost use Rattle.agreement.specs.Histories.{Seen, seen, Hears};

use super::call::{Call, Reply};
use card::Card;
use radio::Registrar;
use selector::On;

/// One who is told, after every call, what it answered, which places it tried, and what it left: selector, radio and card. He may
/// ask radio and card, and leaves their meanings.
pub trait Recorder {
    // What he may have been told so far, one entry for each call.
    ghost heard: { Self → List Seen → Type 0 };

    fn told<R: Registrar, C: Card>(
        &mut self,
        call: Call,
        reply: Reply,
        trail: &[u8],
        on: &On,
        radio: &mut R,
        card: &mut C,
    )
        ensures after { Hears (heard self.old) (heard self.new) (seen call reply trail.now (world (standing on.now) (R.Registrar.air radio.old) (C.Card.files card.old)) ∷ []) }
        ensures air { R.Registrar.air radio.new ≡ R.Registrar.air radio.old }
        ensures files { C.Card.files card.new ≡ C.Card.files card.old };
}

/// A recorder that keeps nothing.
#[derive(Drop)]
pub struct Unheeding;

impl Recorder for Unheeding {
    ghost heard = { λ _ _. Unit {0} };

    fn told<R: Registrar, C: Card>(
        &mut self,
        call: Call,
        reply: Reply,
        trail: &[u8],
        on: &On,
        radio: &mut R,
        card: &mut C,
    ) {}
}
