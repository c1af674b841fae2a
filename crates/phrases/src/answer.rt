use causes::{Effect, rule_of};
use names::Networks;
use plmn::Code;
use radio::Answer;
use std::fmt;

/// What a network answered, with the equivalent codes that an acceptance gave.
#[derive(Clone, Copy)]
pub struct AnswerWords<'a> {
    pub answer: Answer,
    pub equivalents: &'a [Code],
}

/// What a rejection means.
fn meaning(effect: Effect) -> &'static str {
    match effect {
        Effect::Lock => "the card is locked",
        Effect::Forbid => "the network is forbidden",
        Effect::Regional => "the area is not allowed regionally",
        Effect::Roaming => "no roaming in this area",
        Effect::Nothing => "nothing follows",
    }
}

impl<'a> fmt::Display for AnswerWords<'a> {
    fn fmt<W: fmt::Write>(&self, f: &mut fmt::Formatter<W>) -> fmt::Result {
        match self.answer {
            Answer::Acceptance(_) => {
                let codes = Networks(self.equivalents);
                write!(f, "accepted, equivalent codes: {codes}")
            }
            Answer::Rejection(cause) => {
                let means = meaning(rule_of(cause).effect);
                write!(f, "rejected with cause {cause}, {means}")
            }
            Answer::Silence => f.write_str("silent"),
        }
    }
}
