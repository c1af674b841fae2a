ghost use Rattle.std.specs.Prelude.{◌≡◌};

use card::{
    Card, EF_AD, EF_EHPLMN, EF_FPLMN, EF_IMSI, EF_LOCI, EF_OPLMN_W_ACT, EF_PLMN_W_ACT, FileImage,
    take_file,
};

/// The files of a subscriber as they were taken, each of them perhaps absent.
#[derive(Clone, Copy)]
pub(crate) struct SubscriberFiles {
    pub(crate) imsi: FileImage,
    pub(crate) admin: FileImage,
    pub(crate) forbidden: FileImage,
    pub(crate) location: FileImage,
    pub(crate) home: FileImage,
    pub(crate) user: FileImage,
    pub(crate) operator: FileImage,
}

impl SubscriberFiles {
    pub(crate) fn take<C: Card>(card: &mut C) -> SubscriberFiles
        ensures same { C.Card.files card.new ≡ C.Card.files card.old }
    {
        SubscriberFiles {
            imsi: take_file(card, EF_IMSI),
            admin: take_file(card, EF_AD),
            forbidden: take_file(card, EF_FPLMN),
            location: take_file(card, EF_LOCI),
            home: take_file(card, EF_EHPLMN),
            user: take_file(card, EF_PLMN_W_ACT),
            operator: take_file(card, EF_OPLMN_W_ACT),
        }
    }
}
