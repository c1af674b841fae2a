ghost use Rattle.std.specs.Prelude.{◌≡◌, min, [], ◌∷◌, length, slice_index};
ghost use Rattle.selector.specs.Runs.{trailed};
ghost use Rattle.selector.specs.Views.{standing, resting};
ghost use Rattle.agreement.specs.Worlds.{world};
ghost use Rattle.agreement.specs.Rules.{places_of, left_by};
ghost use Rattle.agreement.specs.Histories.{seen_after, lengths, played, left_at_end, overwritten, Hears, LeftByRules};

use super::call::Call;
use super::recorder::Recorder;
use super::serving::serve;
use card::Card;
use plmn::Settings;
use radio::Registrar;
use selector::{Off, On};

/// Makes one call, and tells the recorder of it.
fn serve_and_tell<R: Registrar, C: Card, W: Recorder>(
    on: On,
    radio: &mut R,
    card: &mut C,
    recorder: &mut W,
    call: Call,
    trail: &mut [u8],
    room: usize,
) -> On
    ensures told { Hears (W.Recorder.heard recorder.old) (W.Recorder.heard recorder.new) (seen_after call (min room (length trail.old)) (world (standing on) (R.Registrar.air radio.old) (C.Card.files card.old)) ∷ []) }
    ensures trail { trail.new ≡ trailed (places_of call (min room (length trail.old)) (world (standing on) (R.Registrar.air radio.old) (C.Card.files card.old))) trail.old }
    ensures left { world (standing result) (R.Registrar.air radio.new) (C.Card.files card.new) ≡ left_by call (min room (length trail.old)) (world (standing on) (R.Registrar.air radio.old) (C.Card.files card.old)) }
{
    let served = serve(on, radio, card, call, trail, room);
    let n = served.tries;
    recorder.told(call, served.reply, &trail[0..n], &served.on, radio, card);
    served.on
}

/// How many numbers the call at a position asks for; none past the end of the list.
fn room_at(rooms: &[usize], i: usize) -> usize
    ensures { result ≡ slice_index rooms.now i }
{
    rooms.get(i).copied().unwrap_or(0)
}

/// Plays calls on a new selector, switched on, and switches it off at the end. The recorder is told after every call.
/// The trail is lent to one run after the other, to each as many of its first numbers as `rooms` has at the call's position.
pub fn play_calls<R: Registrar, C: Card, W: Recorder>(
    settings: Settings,
    radio: &mut R,
    card: &mut C,
    recorder: &mut W,
    calls: &[Call],
    trail: &mut [u8],
    rooms: &[usize],
) -> Off
    ensures told { Hears (W.Recorder.heard recorder.old) (W.Recorder.heard recorder.new) (played settings.supported.bits calls.now (lengths rooms.now trail.old) (R.Registrar.air radio.old) (C.Card.files card.old)) }
    ensures trail { trail.new ≡ overwritten (played settings.supported.bits calls.now (lengths rooms.now trail.old) (R.Registrar.air radio.old) (C.Card.files card.old)) trail.old }
    ensures left_by_the_rules { LeftByRules (left_at_end settings.supported.bits calls.now (lengths rooms.now trail.old) (R.Registrar.air radio.old) (C.Card.files card.old)) (resting result) (R.Registrar.air radio.new) (C.Card.files card.new) }
{
    let mut on = Off::new(settings).switch_on();
    for (i, call) in calls.iter().enumerate() {
        on = serve_and_tell(on, radio, card, recorder, *call, trail, room_at(rooms, i));
    }
    on.switch_off()
}
