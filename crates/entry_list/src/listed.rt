use plmn::{Code, TechnologySet};

/// What an entry of a list means: a code, and the technologies for which it counts.
#[derive(Clone, Copy)]
pub struct Listed {
    pub code: Code,
    pub technologies: TechnologySet,
}
