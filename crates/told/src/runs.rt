use super::teller::Teller;
use board::preferences_now;
use bounded::Bounded;
use causes::Heard;
use order::Preferences;
use phrases::{RunHead, StateWords};
use plmn::{Area, Row};
use radio::Answer;
use run_words::{Account, describe_run};
use states::RunAnswer;
use std::alloc::AllocError;

const NOT_HEARD: Heard = Heard {
    row: Row::NONE,
    answer: Answer::Silence,
};

/// What a run depends on, as it was when the run began.
#[derive(Clone, Copy)]
struct Start {
    /// None where the card refuses.
    preferences: Option<Preferences>,
    roaming: [Area; 10],
    regional: [Area; 10],
    draw: u64,
}

impl Teller<'_, '_, '_> {
    fn start(&mut self, draw: u64) -> Start {
        Start {
            preferences: preferences_now(self.card, self.on, self.supported),
            roaming: self.on.roaming(),
            regional: self.on.regional(),
            draw,
        }
    }

    /// What a run that was carried out answered, and the places that it tried, or `none`.
    fn tell_answer(&mut self, answer: RunAnswer, places: &[u8]) -> Result<(), AllocError> {
        write!(self.out, "{}; tried", StateWords(answer.state))?;
        if places.is_empty() {
            write!(self.out, " none")?;
        }
        for place in places {
            write!(self.out, " {place}")?;
        }
        writeln!(self.out)
    }

    /// The rows of a run in the order of their turns, and what became of each.
    fn tell_turns(&mut self, start: &Start, places: &[u8]) -> Result<(), AllocError> {
        let Some(preferences) = &start.preferences else {
            return Ok(());
        };
        let rows = self.rows();
        let mut heard = Bounded::<Heard, 20>::new(NOT_HEARD);
        for place in places {
            heard.push(self.heard_at(usize::from(*place)));
        }
        let equivalents = self.on.equivalents();
        let account = Account {
            rows: rows.as_slice(),
            preferences,
            roaming: &start.roaming,
            regional: &start.regional,
            draw: start.draw,
            places,
            heard: heard.as_slice(),
            equivalents: equivalents.codes(),
        };
        describe_run(self.out, &account)
    }

    /// A run on a trail of this room, and what it answers.
    pub(crate) fn tell_run(&mut self, draw: u64, room: Option<u8>) -> Result<(), AllocError> {
        write!(self.out, "{}", RunHead { draw, room })?;
        let start = self.start(draw);
        let mut trail = [0; 255];
        let trail = &mut trail[..usize::from(room.unwrap_or(20))];
        let ran = self.on.run(self.radio, self.card, draw, trail);
        match ran {
            Ok(answer) => {
                let places = &trail[..answer.tries.min(trail.len())];
                self.tell_answer(answer, places)?;
                self.tell_turns(&start, places)
            }
            Err(refusal) => self.tell_refusal(refusal),
        }
    }
}
