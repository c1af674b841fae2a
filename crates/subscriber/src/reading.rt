ghost use Rattle.std.specs.Prelude.{◌≡◌, Some, None, MatchResult};
ghost use Rattle.subscriber.specs.Subscribers.{Identified, Reads, identity_refusal};

use super::identity::{Identity, Subscriber};
use super::needed::take_needed;
use card::{
    Card, EF_AD, EF_EHPLMN, EF_FPLMN, EF_IMSI, EF_LOCI, EF_OPLMN_W_ACT, EF_PLMN_W_ACT, take_file,
};
use code_list::{all_codes, home_codes};
use entry_list::{EntryList, FullEntry, ShortEntry};
use imsi::{imsi_code, registered_code};
use refusal::Refusal;

impl Identity {
    /// Takes the needed files, each once, and checks them: first that each is there and long enough, then the digits.
    pub fn read<C: Card>(card: &mut C) -> Result<Identity, Refusal>
        ensures answer { MatchResult result (λ i. Identified (C.Card.files card.old) i) (λ e. identity_refusal (C.Card.files card.old) ≡ Some e) }
        ensures same { C.Card.files card.new ≡ C.Card.files card.old }
    {
        let imsi = take_needed(card, EF_IMSI, 9)?;
        let admin = take_needed(card, EF_AD, 4)?;
        let forbidden = take_needed(card, EF_FPLMN, 12)?;
        let location = take_needed(card, EF_LOCI, 11)?;
        let imsi_code = imsi_code(imsi.bytes(), admin.bytes())?;
        Ok(Identity {
            imsi_code,
            forbidden,
            location,
        })
    }
}

impl Subscriber {
    /// Reads the lists of a card whose needed files were taken before; each of them is taken once.
    pub fn read<C: Card>(card: &mut C, identity: &Identity) -> Subscriber
        ensures value { Reads (C.Card.files card.old) identity.now result }
        ensures same { C.Card.files card.new ≡ C.Card.files card.old }
    {
        let home = take_file(card, EF_EHPLMN);
        let user = take_file(card, EF_PLMN_W_ACT);
        let operator = take_file(card, EF_OPLMN_W_ACT);
        Subscriber {
            registered: registered_code(identity.location.bytes()),
            home: home_codes(&EntryList::read::<ShortEntry>(&home), identity.imsi_code),
            forbidden: all_codes(&EntryList::read::<ShortEntry>(&identity.forbidden)),
            user: EntryList::read::<FullEntry>(&user),
            operator: EntryList::read::<FullEntry>(&operator),
        }
    }
}
