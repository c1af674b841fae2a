ghost use Rattle.std.specs.Prelude.{◌≡◌, ◌++◌, min, length, string_bytes, OnOk};
ghost use Rattle.selector.specs.Views.{standing};
ghost use Rattle.agreement.specs.Rules.{left_by};
ghost use Rattle.agreement.specs.Worlds.{world};
ghost use Rattle.agreement.specs.declared.call.Call.TheVariants.{Run};
ghost use Rattle.plain.specs.Plays.{words_of_run, answer_text};

use agreement::{Call, make_call};
use card::Card;
use radio::Registrar;
use selector::On;
use std::alloc::AllocError;
use transcript::push_reply;

/// The words of a run.
pub(crate) fn push_run(out: &mut String, draw: u64, room: Option<u8>) -> Result<(), AllocError>
    ensures { OnOk result (string_bytes out.new ≡ string_bytes out.old ++ words_of_run draw room) }
{
    match room {
        Some(room) => write!(out, "run {draw} {room}: "),
        None => write!(out, "run {draw}: "),
    }
}

/// Makes a call, and prints what it answers. A run is lent the first numbers of the trail: `room` of them, or all if there are fewer.
pub(crate) fn answer<R: Registrar, C: Card>(
    out: &mut String,
    on: &mut On,
    radio: &mut R,
    card: &mut C,
    call: Call,
    trail: &mut [u8],
    room: usize,
) -> Result<(), AllocError>
    ensures text { OnOk result (string_bytes out.new ≡ string_bytes out.old ++ answer_text call (min room (length trail.old)) (world (standing on.old) (R.Registrar.air radio.old) (C.Card.files card.old))) }
    ensures left { world (standing on.new) (R.Registrar.air radio.new) (C.Card.files card.new) ≡ left_by call (min room (length trail.old)) (world (standing on.old) (R.Registrar.air radio.old) (C.Card.files card.old)) }
{
    let (reply, tries) = make_call(on, radio, card, call, trail, room);
    push_reply(out, reply, &trail[..tries])?;
    out.push_str("\n")
}

/// Makes a run that has a trail of this room, and prints what it answers.
pub(crate) fn answer_run<R: Registrar, C: Card>(
    out: &mut String,
    on: &mut On,
    radio: &mut R,
    card: &mut C,
    draw: u64,
    room: u8,
) -> Result<(), AllocError>
    ensures text { OnOk result (string_bytes out.new ≡ string_bytes out.old ++ answer_text (Run draw) room (world (standing on.old) (R.Registrar.air radio.old) (C.Card.files card.old))) }
    ensures left { world (standing on.new) (R.Registrar.air radio.new) (C.Card.files card.new) ≡ left_by (Run draw) room (world (standing on.old) (R.Registrar.air radio.old) (C.Card.files card.old)) }
{
    let mut trail = [0u8; 255];
    answer(
        out,
        on,
        radio,
        card,
        Call::Run(draw),
        &mut trail,
        room as usize,
    )
}

/// The words of a call that lends no trail, then what it answers.
pub(crate) fn line<R: Registrar, C: Card>(
    out: &mut String,
    words: &str,
    on: &mut On,
    radio: &mut R,
    card: &mut C,
    call: Call,
) -> Result<(), AllocError>
    ensures text { OnOk result (string_bytes out.new ≡ string_bytes out.old ++ (words.now ++ answer_text call 0 (world (standing on.old) (R.Registrar.air radio.old) (C.Card.files card.old)))) }
    ensures left { OnOk result (world (standing on.new) (R.Registrar.air radio.new) (C.Card.files card.new) ≡ left_by call 0 (world (standing on.old) (R.Registrar.air radio.old) (C.Card.files card.old))) }
{
    out.push_str(words)?;
    answer(out, on, radio, card, call, &mut [], 0)
}
