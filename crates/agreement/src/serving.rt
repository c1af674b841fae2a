ghost use Rattle.std.specs.Prelude.{◌≡◌, ◌≤◌, min, length};
ghost use Rattle.selector.specs.Runs.{trailed};
ghost use Rattle.selector.specs.Views.{standing};
ghost use Rattle.states.specs.Standings.{switched_on, switched_off};
ghost use Rattle.agreement.specs.Worlds.{world};
ghost use Rattle.agreement.specs.Rules.{reply_of, places_of, left_by, tries_in};
ghost use Rattle.agreement.specs.declared.call.Call.TheVariants.{Run};

use super::call::{Call, Reply};
use card::Card;
use core::mem::replace_with;
use radio::Registrar;
use refusal::Refusal;
use selector::On;
use states::RunAnswer;

/// What a call leaves of its selector, its answer, and how many rows it tried.
#[derive(Drop)]
pub struct Served {
    pub on: On,
    pub reply: Reply,
    pub tries: usize,
}

/// A run that is lent the first numbers of a trail: `room` of them, or all if there are fewer.
fn serve_run<R: Registrar, C: Card>(
    on: &mut On,
    radio: &mut R,
    card: &mut C,
    draw: u64,
    trail: &mut [u8],
    room: usize,
) -> Result<RunAnswer, Refusal>
    ensures reply { Reply.Ran result ≡ reply_of (Run draw) (min room (length trail.old)) (world (standing on.old) (R.Registrar.air radio.old) (C.Card.files card.old)) }
    ensures tries { tries_in result ≡ length (places_of (Run draw) (min room (length trail.old)) (world (standing on.old) (R.Registrar.air radio.old) (C.Card.files card.old))) }
    ensures within { tries_in result ≤ length trail.old }
    ensures trail { trail.new ≡ trailed (places_of (Run draw) (min room (length trail.old)) (world (standing on.old) (R.Registrar.air radio.old) (C.Card.files card.old))) trail.old }
    ensures left { world (standing on.new) (R.Registrar.air radio.new) (C.Card.files card.new) ≡ left_by (Run draw) (min room (length trail.old)) (world (standing on.old) (R.Registrar.air radio.old) (C.Card.files card.old)) }
{
    let n = room.min(trail.len());
    on.run(radio, card, draw, &mut trail[0..n])
}

/// How many rows a run tried; none where it was refused.
fn tries_of(outcome: Result<RunAnswer, Refusal>) -> usize
    ensures { result ≡ tries_in outcome }
{
    outcome.map_or(0, |answer| answer.tries)
}

/// A selector that is switched off and on again.
fn restarted(on: On, _: ()) -> (On, ())
    ensures { standing result.0 ≡ switched_on (switched_off (standing on)) }
{
    (on.switch_off().switch_on(), ())
}

/// Makes a call on a selector that stays where it is, and gives its answer and how many rows it tried. A run is lent the first
/// numbers of the trail: `room` of them, or all if there are fewer.
pub fn make_call<R: Registrar, C: Card>(
    on: &mut On,
    radio: &mut R,
    card: &mut C,
    call: Call,
    trail: &mut [u8],
    room: usize,
) -> (Reply, usize)
    ensures reply { result.0 ≡ reply_of call (min room (length trail.old)) (world (standing on.old) (R.Registrar.air radio.old) (C.Card.files card.old)) }
    ensures tries { result.1 ≡ length (places_of call (min room (length trail.old)) (world (standing on.old) (R.Registrar.air radio.old) (C.Card.files card.old))) }
    ensures within { result.1 ≤ length trail.old }
    ensures trail { trail.new ≡ trailed (places_of call (min room (length trail.old)) (world (standing on.old) (R.Registrar.air radio.old) (C.Card.files card.old))) trail.old }
    ensures left { world (standing on.new) (R.Registrar.air radio.new) (C.Card.files card.new) ≡ left_by call (min room (length trail.old)) (world (standing on.old) (R.Registrar.air radio.old) (C.Card.files card.old)) }
{
    let mut tries = 0;
    let reply = match call {
        Call::Run(draw) => {
            let outcome = serve_run(on, radio, card, draw, trail, room);
            tries = tries_of(outcome);
            Reply::Ran(outcome)
        }
        Call::Look => Reply::Looked(on.look(radio)),
        Call::Pick(place) => Reply::Picked(on.pick(radio, card, place)),
        Call::Loss => Reply::Lost(on.loss()),
        Call::ChangeMode => Reply::Changed(on.change_mode()),
        Call::Restart => {
            replace_with(on, (), restarted);
            Reply::Restarted
        }
    };
    (reply, tries)
}

/// Makes a call, and lends a run the first numbers of the trail: `room` of them, or all if there are fewer.
pub fn serve<R: Registrar, C: Card>(
    on: On,
    radio: &mut R,
    card: &mut C,
    call: Call,
    trail: &mut [u8],
    room: usize,
) -> Served
    ensures reply { result.reply ≡ reply_of call (min room (length trail.old)) (world (standing on) (R.Registrar.air radio.old) (C.Card.files card.old)) }
    ensures tries { result.tries ≡ length (places_of call (min room (length trail.old)) (world (standing on) (R.Registrar.air radio.old) (C.Card.files card.old))) }
    ensures within { result.tries ≤ length trail.old }
    ensures trail { trail.new ≡ trailed (places_of call (min room (length trail.old)) (world (standing on) (R.Registrar.air radio.old) (C.Card.files card.old))) trail.old }
    ensures left { world (standing result.on) (R.Registrar.air radio.new) (C.Card.files card.new) ≡ left_by call (min room (length trail.old)) (world (standing on) (R.Registrar.air radio.old) (C.Card.files card.old)) }
{
    let mut on = on;
    let (reply, tries) = make_call(&mut on, radio, card, call, trail, room);
    Served { on, reply, tries }
}
