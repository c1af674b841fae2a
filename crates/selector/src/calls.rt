ghost use Rattle.std.specs.Prelude.{◌≡◌, length, Some, None, MatchResult};
ghost use Rattle.std.specs.List.{slice_get};
ghost use Rattle.radio.specs.Airs.{sought};
ghost use Rattle.tries.specs.Turns.{heard_sky, at};
ghost use Rattle.subscriber.specs.Subscribers.{Identified};
ghost use Rattle.states.specs.Checks.{look_refusal, row_refusal, pick_refusal};
ghost use Rattle.selector.specs.Runs.{pick_heard, pick_air, pick_standing, pick_files, unless, answered};
ghost use Rattle.selector.specs.Views.{standing};

use super::switched::On;
use card::Card;
use causes::Heard;
use plmn::{Row, TechnologySet};
use radio::{Finder, Registrar};
use refusal::Refusal;
use states::{State, is_usable, may_look};
use subscriber::{Identity, Subscriber};
use tries::answer_at;

/// The row at a place, if it can be picked.
fn usable_row<R: Registrar>(
    radio: &mut R,
    place: usize,
    supported: TechnologySet,
) -> Result<Row, Refusal>
    ensures answer { MatchResult result (λ row. (row_refusal supported.bits (slice_get (R.Registrar.air radio.old).here place) ≡ None) × (row ≡ (at (heard_sky (R.Registrar.air radio.old).here) place).row)) (λ e. row_refusal supported.bits (slice_get (R.Registrar.air radio.old).here place) ≡ Some e) }
    ensures air { R.Registrar.air radio.new ≡ R.Registrar.air radio.old }
{
    match radio.entry(place) {
        Ok(row) if is_usable(row, supported) => Ok(row),
        _ => Err(Refusal::UnusableRow),
    }
}

impl On {
    /// A pick whose checks are passed.
    fn pick_checked<R: Registrar, C: Card>(
        &mut self,
        radio: &mut R,
        card: &mut C,
        identity: &Identity,
        place: usize,
        row: Row,
    ) -> State
        requires known { Identified (C.Card.files card.old) identity.now }
        requires there { row ≡ (at (heard_sky (R.Registrar.air radio.old).here) place).row }
        ensures value { result ≡ (pick_standing (standing self.old) (C.Card.files card.old) (R.Registrar.air radio.old) place).state }
        ensures after { standing self.new ≡ pick_standing (standing self.old) (C.Card.files card.old) (R.Registrar.air radio.old) place }
        ensures files { C.Card.files card.new ≡ pick_files (standing self.old) (C.Card.files card.old) (R.Registrar.air radio.old) place }
        ensures air { R.Registrar.air radio.new ≡ pick_air (R.Registrar.air radio.old) place }
    {
        let answer = answer_at(radio, place);
        let heard = Heard { row, answer };
        let subscriber = Subscriber::read(card, identity);
        let all = [heard];
        self.conclude(
            radio,
            card,
            &subscriber,
            &all,
            Some(heard),
            place,
            State::NoService,
        );
        self.state
    }

    /// Tries the row at a place of the sky now, whatever the lists hold.
    pub fn pick<R: Registrar, C: Card>(
        &mut self,
        radio: &mut R,
        card: &mut C,
        place: usize,
    ) -> Result<State, Refusal>
        ensures answer { result ≡ answered (pick_refusal (standing self.old) (C.Card.files card.old) (R.Registrar.air radio.old).here place) (pick_standing (standing self.old) (C.Card.files card.old) (R.Registrar.air radio.old) place).state }
        ensures after { standing self.new ≡ unless (pick_refusal (standing self.old) (C.Card.files card.old) (R.Registrar.air radio.old).here place) (standing self.old) (pick_standing (standing self.old) (C.Card.files card.old) (R.Registrar.air radio.old) place) }
        ensures files { C.Card.files card.new ≡ unless (pick_refusal (standing self.old) (C.Card.files card.old) (R.Registrar.air radio.old).here place) (C.Card.files card.old) (pick_files (standing self.old) (C.Card.files card.old) (R.Registrar.air radio.old) place) }
        ensures air { R.Registrar.air radio.new ≡ unless (pick_refusal (standing self.old) (C.Card.files card.old) (R.Registrar.air radio.old).here place) (R.Registrar.air radio.old) (pick_air (R.Registrar.air radio.old) place) }
    {
        let identity = Identity::read(card)?;
        may_look(self.mode, self.state)?;
        let row = usable_row(radio, place, self.settings.supported())?;
        Ok(self.pick_checked(radio, card, &identity, place, row))
    }

    /// Searches, and gives the number of rows.
    pub fn look<R: Registrar>(&self, radio: &mut R) -> Result<usize, Refusal>
        ensures answer { result ≡ answered (look_refusal (standing self.now)) (length (sought (R.Registrar.air radio.old)).here) }
        ensures air { R.Registrar.air radio.new ≡ unless (look_refusal (standing self.now)) (R.Registrar.air radio.old) (sought (R.Registrar.air radio.old)) }
    {
        may_look(self.mode, self.state)?;
        radio.seek();
        Ok(radio.rows())
    }
}
