ghost use Rattle.std.specs.Prelude.{◌≡◌};
ghost use Rattle.subscriber.specs.Codes.{codes_in};
ghost use Rattle.effects.specs.Lists.{lists_of};
ghost use Rattle.conclusions.specs.Conclusions.{kept_after, concluded, files_after};
ghost use Rattle.selector.specs.Views.{standing};

use super::switched::On;
use card::Card;
use causes::Heard;
use conclusions::{equivalents_by, keep_forbidden, keep_location, state_by};
use effects::Lists;
use radio::Registrar;
use states::{Event, State};
use subscriber::Subscriber;

impl On {
    /// The lists after the answers of tried rows.
    fn lists_after(&self, subscriber: &Subscriber, heard: &[Heard]) -> Lists
        ensures { lists_of result ≡ kept_after (standing self.now) (codes_in subscriber.now.home) (codes_in subscriber.now.forbidden) heard.now }
    {
        let lists = Lists {
            forbidden: subscriber.forbidden,
            roaming: self.roaming,
            regional: self.regional,
        };
        lists.hear_all(subscriber.home.codes(), heard)
    }

    /// Carries out what the answers of tried rows ask for: lists, card, equivalents and state. The last row tried stands at
    /// `place`; `otherwise` is the state where no answer ended the tries.
    pub(crate) fn conclude<R: Registrar, C: Card>(
        &mut self,
        radio: &mut R,
        card: &mut C,
        subscriber: &Subscriber,
        heard: &[Heard],
        end: Option<Heard>,
        place: usize,
        otherwise: State,
    )
        ensures after { standing self.new ≡ concluded (standing self.old) (codes_in subscriber.now.home) (codes_in subscriber.now.forbidden) (R.Registrar.air radio.old).here place heard.now end otherwise }
        ensures files { C.Card.files card.new ≡ files_after (standing self.old) (codes_in subscriber.now.home) (codes_in subscriber.now.forbidden) heard.now end (C.Card.files card.old) }
        ensures air { R.Registrar.air radio.new ≡ R.Registrar.air radio.old }
    {
        let Lists {
            forbidden,
            roaming,
            regional,
        } = self.lists_after(subscriber, heard);
        self.turn(Event::Tries(state_by(end, otherwise)));
        self.roaming = roaming;
        self.regional = regional;
        if !heard.is_empty() {
            keep_forbidden(card, heard, &forbidden);
            keep_location(card, end);
            self.equivalents = equivalents_by(radio, place, end);
        }
    }
}
