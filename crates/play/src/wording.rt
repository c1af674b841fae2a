//! The same play for a person.
use answers::describe_card;
use board::{file_numbers, preferences_now, rows_now};
use card_words::describe_subscriber;
use packed_card::PackedCard;
use person::{describe_order, describe_rows};
use phrases::RunHead;
use plain::carry_out;
use plmn::TechnologySet;
use replies::push_ran;
use selector::On;
use statements::Call;
use std::alloc::{AllocError, Global};
use table_radio::TableRadio;

/// A play that is told to a person: what it prints to, and the radio and the card that it is on.
#[derive(Drop)]
pub(crate) struct Teller<'t, 'r, 'c> {
    pub(crate) heap: Global,
    pub(crate) out: &'t mut String,
    pub(crate) radio: &'t mut TableRadio<'r>,
    pub(crate) card: &'t mut PackedCard<'c>,
    pub(crate) supported: TechnologySet,
}

impl Teller<'_, '_, '_> {
    /// Plays a call, and prints the line that it has for a tool.
    pub(crate) fn print_call(&mut self, on: &mut On, call: Call) -> Result<(), AllocError> {
        carry_out(self.out, on, self.radio, self.card, &[], call)
    }

    /// The files that the card has now, and what they say.
    pub(crate) fn tell_card(&mut self) -> Result<(), AllocError> {
        let numbers = file_numbers(self.heap, self.card)?;
        describe_card(self.out, self.card, numbers.as_slice())?;
        describe_subscriber(self.out, self.card, self.supported)
    }

    /// The rows of the sky now.
    pub(crate) fn tell_sky(&mut self) -> Result<(), AllocError> {
        let rows = rows_now(self.heap, self.radio)?;
        describe_rows(self.out, rows.as_slice())
    }

    /// A run, and the rows that it found with their classes and turns where it was carried out.
    pub(crate) fn tell_run(
        &mut self,
        on: &mut On,
        draw: u64,
        room: Option<u8>,
    ) -> Result<(), AllocError> {
        let preferences = preferences_now(self.card, on, self.supported);
        let mut trail = [0; 255];
        let trail = &mut trail[..usize::from(room.unwrap_or(20))];
        let ran = on.run(self.radio, self.card, draw, trail);
        let tries = ran.map_or(0, |answer| answer.tries);
        write!(self.out, "{}", RunHead { draw, room })?;
        push_ran(self.out, ran, &trail[..tries.min(trail.len())])?;
        writeln!(self.out)?;
        let (Ok(_), Some(preferences)) = (ran, preferences) else {
            return Ok(());
        };
        let rows = rows_now(self.heap, self.radio)?;
        describe_order(self.out, rows.as_slice(), &preferences, draw)
    }
}
