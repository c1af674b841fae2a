use super::account::Account;
use fates::{Reason, hindrance, reason_not_tried};
use order::{class_of, order_rows, served_home};
use phrases::{AnswerWords, ClassWords, RowWords, hindrance_words};
use plmn::{Code, Row};
use std::alloc::AllocError;

/// A run that is told: what it is written to, the home code that is served, and how many tries are told so far.
#[derive(Drop)]
struct Telling<'t, 'a> {
    out: &'t mut String,
    account: &'t Account<'a>,
    home: Option<Code>,
    tries: usize,
}

impl Telling<'_, '_> {
    /// Whose answer of this run kept a row from its turn.
    fn tell_earlier(&mut self, words: &str, index: usize) -> Result<(), AllocError> {
        match self.account.try_at(index) {
            Some(earlier) => writeln!(self.out, "           {words} {earlier}"),
            None => Ok(()),
        }
    }

    /// Why an allowed row was passed over at its turn.
    fn tell_reason(&mut self, row: Row) -> Result<(), AllocError> {
        let account = self.account;
        let done = account.heard_before(self.tries);
        match reason_not_tried(row, account.roaming, account.regional, done) {
            Some(Reason::NotReached(i)) => {
                self.tell_earlier("not reached: the run ended with the answer of", i)
            }
            Some(Reason::Closed(i)) => {
                self.tell_earlier("passed over: closed by the answer of", i)
            }
            Some(Reason::RoamingArea) => writeln!(
                self.out,
                "           passed over: its area was in the roaming list"
            ),
            Some(Reason::RegionalArea) => writeln!(
                self.out,
                "           passed over: its area was in the regional list"
            ),
            None => Ok(()),
        }
    }

    /// What became of the row at its turn.
    fn tell_fate(&mut self, place: u8, row: Row) -> Result<(), AllocError> {
        match self.account.try_at(self.tries) {
            Some(made) if made.place == place => {
                self.tries = self.tries.saturating_add(1);
                let words = AnswerWords {
                    answer: made.answer,
                    equivalents: self.account.equivalents,
                };
                writeln!(self.out, "           tried: {words}")
            }
            _ => self.tell_reason(row),
        }
    }

    /// The row whose turn it is.
    fn tell_turn(&mut self, turn: usize, place: u8) -> Result<(), AllocError> {
        let Some(row) = self.account.row_at(place) else {
            return Ok(());
        };
        let class = ClassWords(class_of(row, self.account.preferences, self.home));
        let found = RowWords {
            place: usize::from(place),
            row,
        };
        writeln!(self.out, "  turn {turn:>2}  {found}  {class}")?;
        self.tell_fate(place, row)
    }

    /// A row that has no turn, where this one has none.
    fn tell_without_turn(&mut self, place: usize, row: Row) -> Result<(), AllocError> {
        let preferences = self.account.preferences;
        let forbidden = preferences.card.forbidden.codes();
        match hindrance(row, preferences.supported, forbidden) {
            Some(hindrance) => {
                let found = RowWords { place, row };
                let words = hindrance_words(hindrance);
                writeln!(
                    self.out,
                    "  no turn  {found}\n           passed over: {words}"
                )
            }
            None => Ok(()),
        }
    }
}

/// The rows in the order of their turns, and then those that have none: class and position, and the answer or why there was no
/// try.
pub fn describe_run(out: &mut String, account: &Account) -> Result<(), AllocError> {
    let rows = &account.rows[..account.rows.len().min(20)];
    let order = order_rows(rows, account.preferences, account.draw);
    let mut telling = Telling {
        out,
        account,
        home: served_home(rows, account.preferences),
        tries: 0,
    };
    for (i, key) in order.keys().iter().enumerate() {
        telling.tell_turn(i.saturating_add(1), key.place)?;
    }
    for (place, row) in rows.iter().enumerate() {
        telling.tell_without_turn(place, *row)?;
    }
    Ok(())
}
