use fates::Hindrance;
use radio::Answer;
use std::fmt;

/// A try of a run: its place, and what its network answered.
#[derive(Clone, Copy)]
pub struct Try {
    pub place: u8,
    pub answer: Answer,
}

/// Whose answer it was: `place 1 (cause 11)`.
impl fmt::Display for Try {
    fn fmt<W: fmt::Write>(&self, f: &mut fmt::Formatter<W>) -> fmt::Result {
        let place = self.place;
        match self.answer {
            Answer::Acceptance(_) => write!(f, "place {place} (accepted)"),
            Answer::Rejection(cause) => write!(f, "place {place} (cause {cause})"),
            Answer::Silence => write!(f, "place {place} (silent)"),
        }
    }
}

/// Why a row has no turn.
pub fn hindrance_words(hindrance: Hindrance) -> &'static str {
    match hindrance {
        Hindrance::Technology => "technology not supported",
        Hindrance::InvalidCode => "invalid code",
        Hindrance::Forbidden => "forbidden",
    }
}
