ghost use Rattle.std.specs.Prelude.{◌≡◌};
ghost use Rattle.selector.specs.Views.{resting};
ghost use Rattle.agreement.specs.Worlds.{started};
ghost use Rattle.agreement.specs.Histories.{lengths, played, left_at_end, overwritten, Hears, LeftByRules, AlikeTrails};
ghost use Rattle.agreement.specs.Laws.{EveryRun, TriesOpenRowsInOrder, NeverTriesForbidden};

use super::call::Call;
use super::playing::play_calls;
use super::recorder::Recorder;
use card::Card;
use plmn::Settings;
use radio::Registrar;
use selector::Off;

/// The same calls, on two new selectors with the same settings, each over a radio and a card of its own, of any makes. Each is
/// switched off at the end.
pub fn play_on_both<R: Registrar, C: Card, V: Recorder, S: Registrar, D: Card, W: Recorder>(
    settings: Settings,
    calls: &[Call],
    first_radio: &mut R,
    first_card: &mut C,
    first_recorder: &mut V,
    first_trail: &mut [u8],
    first_rooms: &[usize],
    second_radio: &mut S,
    second_card: &mut D,
    second_recorder: &mut W,
    second_trail: &mut [u8],
    second_rooms: &[usize],
) -> (Off, Off)
    ensures tells_first { Hears (V.Recorder.heard first_recorder.old) (V.Recorder.heard first_recorder.new) (played settings.supported.bits calls.now (lengths first_rooms.now first_trail.old) (R.Registrar.air first_radio.old) (C.Card.files first_card.old)) }
    ensures tells_second { Hears (W.Recorder.heard second_recorder.old) (W.Recorder.heard second_recorder.new) (played settings.supported.bits calls.now (lengths second_rooms.now second_trail.old) (S.Registrar.air second_radio.old) (D.Card.files second_card.old)) }
    ensures same_after_every_call { R.Registrar.air first_radio.old ≡ S.Registrar.air second_radio.old → C.Card.files first_card.old ≡ D.Card.files second_card.old → AlikeTrails calls.now (lengths first_rooms.now first_trail.old) (lengths second_rooms.now second_trail.old) → played settings.supported.bits calls.now (lengths first_rooms.now first_trail.old) (R.Registrar.air first_radio.old) (C.Card.files first_card.old) ≡ played settings.supported.bits calls.now (lengths second_rooms.now second_trail.old) (S.Registrar.air second_radio.old) (D.Card.files second_card.old) }
    ensures same_at_the_end { R.Registrar.air first_radio.old ≡ S.Registrar.air second_radio.old → C.Card.files first_card.old ≡ D.Card.files second_card.old → AlikeTrails calls.now (lengths first_rooms.now first_trail.old) (lengths second_rooms.now second_trail.old) → (resting result.0 ≡ resting result.1) × (R.Registrar.air first_radio.new ≡ S.Registrar.air second_radio.new) × (C.Card.files first_card.new ≡ D.Card.files second_card.new) }
    ensures first_left_by_the_rules { LeftByRules (left_at_end settings.supported.bits calls.now (lengths first_rooms.now first_trail.old) (R.Registrar.air first_radio.old) (C.Card.files first_card.old)) (resting result.0) (R.Registrar.air first_radio.new) (C.Card.files first_card.new) }
    ensures second_left_by_the_rules { LeftByRules (left_at_end settings.supported.bits calls.now (lengths second_rooms.now second_trail.old) (S.Registrar.air second_radio.old) (D.Card.files second_card.old)) (resting result.1) (S.Registrar.air second_radio.new) (D.Card.files second_card.new) }
    ensures first_trail { first_trail.new ≡ overwritten (played settings.supported.bits calls.now (lengths first_rooms.now first_trail.old) (R.Registrar.air first_radio.old) (C.Card.files first_card.old)) first_trail.old }
    ensures second_trail { second_trail.new ≡ overwritten (played settings.supported.bits calls.now (lengths second_rooms.now second_trail.old) (S.Registrar.air second_radio.old) (D.Card.files second_card.old)) second_trail.old }
    ensures tries_open_rows_in_order { (EveryRun TriesOpenRowsInOrder (started settings.supported.bits (R.Registrar.air first_radio.old) (C.Card.files first_card.old)) calls.now (played settings.supported.bits calls.now (lengths first_rooms.now first_trail.old) (R.Registrar.air first_radio.old) (C.Card.files first_card.old))) × (EveryRun TriesOpenRowsInOrder (started settings.supported.bits (S.Registrar.air second_radio.old) (D.Card.files second_card.old)) calls.now (played settings.supported.bits calls.now (lengths second_rooms.now second_trail.old) (S.Registrar.air second_radio.old) (D.Card.files second_card.old))) }
    ensures never_tries_forbidden { (EveryRun NeverTriesForbidden (started settings.supported.bits (R.Registrar.air first_radio.old) (C.Card.files first_card.old)) calls.now (played settings.supported.bits calls.now (lengths first_rooms.now first_trail.old) (R.Registrar.air first_radio.old) (C.Card.files first_card.old))) × (EveryRun NeverTriesForbidden (started settings.supported.bits (S.Registrar.air second_radio.old) (D.Card.files second_card.old)) calls.now (played settings.supported.bits calls.now (lengths second_rooms.now second_trail.old) (S.Registrar.air second_radio.old) (D.Card.files second_card.old))) }
{
    let first = play_calls(
        settings,
        first_radio,
        first_card,
        first_recorder,
        calls,
        first_trail,
        first_rooms,
    );
    let second = play_calls(
        settings,
        second_radio,
        second_card,
        second_recorder,
        calls,
        second_trail,
        second_rooms,
    );
    (first, second)
}
