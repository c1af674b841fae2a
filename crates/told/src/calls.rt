use super::teller::Teller;
use board::{Board, file_numbers};
use bounded::Bounded;
use card_words::{describe_card, describe_subscriber};
use phrases::{AnswerWords, RefusalWords, RowWords, StateWords};
use plmn::Row;
use refusal::Refusal;
use selector::On;
use statements::Call;
use states::Mode;
use std::alloc::{AllocError, Global};

const NO_ROW: RowWords = RowWords {
    place: 0,
    row: Row::NONE,
};

/// The one line of a scenario whose settings are refused.
pub fn tell_settings(out: &mut String) -> Result<(), AllocError> {
    writeln!(out, "settings: {}", RefusalWords(Refusal::Technologies))
}

impl Teller<'_, '_, '_> {
    /// The files that the card has now, and what they say.
    fn tell_card(&mut self) -> Result<(), AllocError> {
        let numbers = file_numbers(self.heap, self.card)?;
        let files = numbers.as_slice();
        writeln!(self.out, "card: {} files", files.len())?;
        describe_card(self.out, self.card, files)?;
        describe_subscriber(self.out, self.card, self.supported)
    }

    fn tell_look(&mut self) -> Result<(), AllocError> {
        write!(self.out, "look: ")?;
        match self.on.look(self.radio) {
            Ok(count) => {
                let words = if count == 1 { "row" } else { "rows" };
                writeln!(self.out, "{count} {words} heard")?;
                for (place, row) in self.rows().as_slice().iter().enumerate() {
                    writeln!(self.out, "  {}", RowWords { place, row: *row })?;
                }
                Ok(())
            }
            Err(refusal) => self.tell_refusal(refusal),
        }
    }

    /// The row that was picked, and what its network answered.
    fn tell_try(&mut self, place: usize) -> Result<(), AllocError> {
        let heard = self.heard_at(place);
        let found = RowWords {
            place,
            row: heard.row,
        };
        let equivalents = self.on.equivalents();
        let answer = AnswerWords {
            answer: heard.answer,
            equivalents: equivalents.codes(),
        };
        writeln!(self.out, "  {found}\n    tried: {answer}")
    }

    fn tell_pick(&mut self, place: usize) -> Result<(), AllocError> {
        write!(self.out, "pick {place}: ")?;
        let picked = self.on.pick(self.radio, self.card, place);
        match picked {
            Ok(state) => {
                writeln!(self.out, "{}", StateWords(state))?;
                self.tell_try(place)
            }
            Err(refusal) => self.tell_refusal(refusal),
        }
    }

    fn tell_mode(&mut self) -> Result<(), AllocError> {
        match self.on.change_mode() {
            Mode::Automatic => writeln!(self.out, "mode: was automatic, is manual now"),
            Mode::Manual => writeln!(self.out, "mode: was manual, is automatic now"),
        }
    }

    /// The rows of the sky now that were tried.
    fn tell_marks(&mut self) -> Result<(), AllocError> {
        let mut tried = Bounded::<RowWords, 20>::new(NO_ROW);
        for (place, row) in self.rows().as_slice().iter().enumerate() {
            if self.radio.is_tried(place).unwrap_or(false) {
                tried.push(RowWords { place, row: *row });
            }
        }
        write!(self.out, "marks:")?;
        if tried.as_slice().is_empty() {
            write!(self.out, " none")?;
        }
        for found in tried.as_slice() {
            write!(self.out, "\n  {found}")?;
        }
        writeln!(self.out)
    }
}

/// Carries out a call, and tells its answer. A restart is carried out by the caller, since it uses the selector up.
pub fn tell_call(
    heap: Global,
    out: &mut String,
    board: &mut Board,
    on: &mut On,
    call: Call,
) -> Result<(), AllocError> {
    let mut teller = Teller {
        heap,
        out,
        radio: &mut board.radio,
        card: &mut board.card,
        supported: board.supported,
        on,
    };
    match call {
        Call::Card => teller.tell_card(),
        Call::Marks => teller.tell_marks(),
        Call::Run(draw, room) => teller.tell_run(draw, room),
        Call::Look => teller.tell_look(),
        Call::Pick(place) => teller.tell_pick(place as usize),
        Call::Mode => teller.tell_mode(),
        Call::Restart => writeln!(teller.out, "restart: switched off and on"),
    }
}
