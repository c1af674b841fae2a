use plmn::TechnologySet;
use subscriber::{CodeList, Subscriber};

/// What the choice of rows depends on: what the card says, the equivalent codes, and the supported technologies.
#[derive(Clone, Copy)]
pub struct Preferences {
    pub card: Subscriber,
    pub equivalents: CodeList,
    pub supported: TechnologySet,
}
