ghost use Rattle.std.specs.Prelude.{◌≡◌, ◌++◌, IfOk, OnOk, MatchOption, string_bytes};
ghost use Rattle.agreement.specs.Worlds.{started};
ghost use Rattle.packed_card.specs.Packed.{listed as listedIn, files_in};
ghost use Rattle.plain.specs.Plays.{play_text};
ghost use Rattle.selector.specs.Views.{standing};
ghost use Rattle.table_rows.specs.Tables.{table_air};
ghost use Rattle.board.specs.Numbers.{numbers_of};
ghost use Rattle.board.specs.Wishes.{Refused, Wished};

use card::Card;
use order::Preferences;
use packed_card::PackedCard;
use plain::play_calls;
use plmn::{Row, Settings, TechnologySet};
use radio::Finder;
use selector::On;
use statements::Call;
use std::alloc::{AllocError, Global};
use subscriber::{Identity, Subscriber};
use table_radio::TableRadio;

/// What a selector is played on.
#[derive(Drop)]
pub struct Board<'r, 'c> {
    pub radio: TableRadio<'r>,
    pub card: PackedCard<'c>,
    pub supported: TechnologySet,
}

/// The numbers of a card's files, in the order of its directory.
pub fn file_numbers(heap: Global, card: &PackedCard) -> Result<Vec<u16>, AllocError>
    ensures { IfOk result (λ v. v.items ≡ numbers_of (listedIn card.now.good)) }
{
    let mut numbers = Vec::new(heap);
    for place in 0..12 {
        match card.file_at(place) {
            Some(file) => numbers.push(file)?,
            None => return Ok(numbers),
        }
    }
    Ok(numbers)
}

/// The rows of the sky now.
pub fn rows_now<F: Finder>(heap: Global, finder: &mut F) -> Result<Vec<Row>, AllocError>
    ensures value { IfOk result (λ rows. rows.items ≡ (F.Finder.sky finder.old).here) }
    ensures same { F.Finder.sky finder.new ≡ F.Finder.sky finder.old }
{
    let mut rows = Vec::new(heap);
    for place in 0..20 {
        match finder.row(place) {
            Ok(row) => rows.push(row)?,
            Err(_) => return Ok(rows),
        }
    }
    Ok(rows)
}

impl<'r, 'c> Board<'r, 'c> {
    /// Plays calls on a new selector, and prints their lines for a tool.
    pub fn print_calls(
        &mut self,
        heap: Global,
        out: &mut String,
        settings: Settings,
        calls: &[Call],
    ) -> Result<(), AllocError>
        ensures { OnOk result (string_bytes out.new ≡ string_bytes out.old ++ play_text (numbers_of (listedIn self.old.card.good)) calls.now (started settings.supported.bits (table_air self.old.radio.here.now self.old.radio.tried self.old.radio.rest.now) (files_in self.old.card.image.now (listedIn self.old.card.good)))) }
    {
        let numbers = file_numbers(heap, &self.card)?;
        play_calls(
            out,
            settings,
            &mut self.radio,
            &mut self.card,
            numbers.as_slice(),
            calls,
        )
    }
}

/// What the order of a run depends on; none where the card refuses.
pub fn preferences_now<C: Card>(
    card: &mut C,
    on: &On,
    supported: TechnologySet,
) -> Option<Preferences>
    ensures answer { MatchOption result (Refused (C.Card.files card.old)) (λ p. Wished (C.Card.files card.old) (standing on.now).equivalents p.card p.equivalents × (p.supported ≡ supported)) }
    ensures same { C.Card.files card.new ≡ C.Card.files card.old }
{
    let Ok(identity) = Identity::read(card) else {
        return None;
    };
    let lists = Subscriber::read(card, &identity);
    Some(Preferences {
        card: lists,
        equivalents: on.equivalents(),
        supported,
    })
}
