ghost use Rattle.std.specs.Prelude.{◌≡◌, ◌≤◌, length, take, drop};
ghost use Rattle.ranking.specs.Lists.{order_in};
ghost use Rattle.subscriber.specs.Codes.{codes_in};
ghost use Rattle.subscriber.specs.Subscribers.{Identified};
ghost use Rattle.states.specs.Checks.{run_refusal};
ghost use Rattle.selector.specs.Runs.{unended as unendedBy, last_of, tried_places, tried_air, tried_standing, tried_files, run_places, run_standing, run_files, run_air, run_answer, trailed, unless, answered};
ghost use Rattle.selector.specs.Views.{standing};

use super::switched::On;
use card::Card;
use found_rows::search_rows;
use order::{Preferences, order_rows};
use radio::{Finder, Registrar};
use ranking::{Key, RowOrder};
use refusal::Refusal;
use states::{RunAnswer, Serving, State, may_run};
use subscriber::{Identity, Subscriber};
use tries::{AreaLists, row_at, try_rows};

/// The state of a run that nothing ended: limited on the first row of the order, or no service.
fn unended<R: Registrar>(radio: &mut R, order: &[Key]) -> State
    ensures value { result ≡ unendedBy (R.Registrar.air radio.old) order.now }
    ensures air { R.Registrar.air radio.new ≡ R.Registrar.air radio.old }
{
    match order {
        [first, ..] => {
            let row = row_at(radio, first.place as usize);
            State::Limited(Serving::from(row))
        }
        [] => State::NoService,
    }
}

/// The last place of a trail; 0 where it is empty.
fn last_place(places: &[u8]) -> usize
    ensures { result ≡ last_of places.now }
{
    places.last().copied().unwrap_or(0) as usize
}

impl On {
    /// Tries the rows of an order that are open at their turn, and carries out what follows. Gives the number of tries.
    fn try_order<R: Registrar, C: Card>(
        &mut self,
        radio: &mut R,
        card: &mut C,
        subscriber: &Subscriber,
        order: &RowOrder,
        trail: &mut [u8],
    ) -> usize
        requires { 20 ≤ length trail.old }
        ensures value { result ≡ length (tried_places (standing self.old) (order_in order.now) (R.Registrar.air radio.old)) }
        ensures trail { take result trail.new ≡ tried_places (standing self.old) (order_in order.now) (R.Registrar.air radio.old) }
        ensures rest { drop result trail.new ≡ drop result trail.old }
        ensures after { standing self.new ≡ tried_standing (standing self.old) (codes_in subscriber.now.home) (codes_in subscriber.now.forbidden) (order_in order.now) (R.Registrar.air radio.old) }
        ensures files { C.Card.files card.new ≡ tried_files (standing self.old) (codes_in subscriber.now.home) (codes_in subscriber.now.forbidden) (order_in order.now) (R.Registrar.air radio.old) (C.Card.files card.old) }
        ensures air { R.Registrar.air radio.new ≡ tried_air (R.Registrar.air radio.old) (tried_places (standing self.old) (order_in order.now) (R.Registrar.air radio.old)) }
    {
        let otherwise = unended(radio, order.keys());
        let areas = AreaLists {
            roaming: &self.roaming,
            regional: &self.regional,
        };
        // No `map_or` here: its closure would hold the selector, the radio and the card by `&mut`.
        match try_rows(radio, order, &areas, trail) {
            Ok(tried) => {
                let heard = tried.heard.as_slice();
                let n = heard.len();
                let place = last_place(&trail[..n]);
                self.conclude(radio, card, subscriber, heard, tried.end, place, otherwise);
                n
            }
            Err(_) => 0,
        }
    }
}

impl On {
    /// A run whose checks are passed.
    fn run_checked<R: Registrar, C: Card>(
        &mut self,
        radio: &mut R,
        card: &mut C,
        identity: &Identity,
        draw: u64,
        trail: &mut [u8],
    ) -> RunAnswer
        requires long { 20 ≤ length trail.old }
        requires known { Identified (C.Card.files card.old) identity.now }
        ensures value { result ≡ run_answer (standing self.old) (C.Card.files card.old) (R.Registrar.air radio.old) draw }
        ensures trail { trail.new ≡ trailed (run_places (standing self.old) (C.Card.files card.old) (R.Registrar.air radio.old) draw) trail.old }
        ensures after { standing self.new ≡ run_standing (standing self.old) (C.Card.files card.old) (R.Registrar.air radio.old) draw }
        ensures files { C.Card.files card.new ≡ run_files (standing self.old) (C.Card.files card.old) (R.Registrar.air radio.old) draw }
        ensures air { R.Registrar.air radio.new ≡ run_air (standing self.old) (C.Card.files card.old) (R.Registrar.air radio.old) draw }
    {
        let rows = search_rows(radio);
        let subscriber = Subscriber::read(card, identity);
        let preferences = Preferences {
            card: subscriber,
            equivalents: self.equivalents,
            supported: self.settings.supported(),
        };
        let order = order_rows(rows.rows(), &preferences, draw);
        let tries = self.try_order(radio, card, &subscriber, &order, trail);
        RunAnswer {
            state: self.state,
            tries,
        }
    }

    /// Searches, and tries the rows that are open at their turn, until one ends the run.
    pub fn run<R: Registrar, C: Card>(
        &mut self,
        radio: &mut R,
        card: &mut C,
        draw: u64,
        trail: &mut [u8],
    ) -> Result<RunAnswer, Refusal>
        ensures answer { result ≡ answered (run_refusal (standing self.old) (C.Card.files card.old) (length trail.old)) (run_answer (standing self.old) (C.Card.files card.old) (R.Registrar.air radio.old) draw) }
        ensures trail { trail.new ≡ unless (run_refusal (standing self.old) (C.Card.files card.old) (length trail.old)) trail.old (trailed (run_places (standing self.old) (C.Card.files card.old) (R.Registrar.air radio.old) draw) trail.old) }
        ensures after { standing self.new ≡ unless (run_refusal (standing self.old) (C.Card.files card.old) (length trail.old)) (standing self.old) (run_standing (standing self.old) (C.Card.files card.old) (R.Registrar.air radio.old) draw) }
        ensures files { C.Card.files card.new ≡ unless (run_refusal (standing self.old) (C.Card.files card.old) (length trail.old)) (C.Card.files card.old) (run_files (standing self.old) (C.Card.files card.old) (R.Registrar.air radio.old) draw) }
        ensures air { R.Registrar.air radio.new ≡ unless (run_refusal (standing self.old) (C.Card.files card.old) (length trail.old)) (R.Registrar.air radio.old) (run_air (standing self.old) (C.Card.files card.old) (R.Registrar.air radio.old) draw) }
    {
        let identity = Identity::read(card)?;
        may_run(self.mode, self.state, trail.len())?;
        Ok(self.run_checked(radio, card, &identity, draw, trail))
    }
}
