ghost use Rattle.std.specs.Prelude.{◌≡◌, ◌++◌, IfOk, string_bytes, OnOk};
ghost use Rattle.selector.specs.Views.{standing};
ghost use Rattle.agreement.specs.Worlds.{world, started};
ghost use Rattle.plain.specs.Plays.{line_of, left_after, play_text};

use super::lines::{answer, answer_run, line, push_run};
use super::marks::{Marked, push_marks};
use agreement::Call as Made;
use answers::push_card;
use card::Card;
use plmn::Settings;
use selector::{Off, On};
use statements::Call;
use std::alloc::AllocError;

/// Carries out a call on a selector that stays where it is, and prints its line. `numbers` are those of the card's files, in the
/// order in which they are printed.
pub fn carry_out<R: Marked, C: Card>(
    out: &mut String,
    on: &mut On,
    radio: &mut R,
    card: &mut C,
    numbers: &[u16],
    call: Call,
) -> Result<(), AllocError>
    ensures text { OnOk result (string_bytes out.new ≡ string_bytes out.old ++ line_of numbers.now call (world (standing on.old) (R.Registrar.air radio.old) (C.Card.files card.old))) }
    ensures left { OnOk result (world (standing on.new) (R.Registrar.air radio.new) (C.Card.files card.new) ≡ left_after call (world (standing on.old) (R.Registrar.air radio.old) (C.Card.files card.old))) }
{
    match call {
        Call::Card => push_card(out, card, numbers),
        Call::Marks => push_marks(out, radio),
        Call::Run(draw, room) => {
            push_run(out, draw, room)?;
            answer_run(out, on, radio, card, draw, room.unwrap_or(20))
        }
        Call::Look => line(out, "look: ", on, radio, card, Made::Look),
        Call::Pick(place) => {
            write!(out, "pick {place}: ")?;
            answer(out, on, radio, card, Made::Pick(place as usize), &mut [], 0)
        }
        Call::Mode => line(out, "mode: ", on, radio, card, Made::ChangeMode),
        Call::Restart => line(out, "restart: ", on, radio, card, Made::Restart),
    }
}

/// Carries out a call, and prints its line. `numbers` are those of the card's files, in the order in which they are printed.
pub fn play_call<R: Marked, C: Card>(
    out: &mut String,
    on: On,
    radio: &mut R,
    card: &mut C,
    numbers: &[u16],
    call: Call,
) -> Result<On, AllocError>
    ensures text { OnOk result (string_bytes out.new ≡ string_bytes out.old ++ line_of numbers.now call (world (standing on) (R.Registrar.air radio.old) (C.Card.files card.old))) }
    ensures left { IfOk result (λ after. world (standing after) (R.Registrar.air radio.new) (C.Card.files card.new) ≡ left_after call (world (standing on) (R.Registrar.air radio.old) (C.Card.files card.old))) }
{
    let mut on = on;
    carry_out(out, &mut on, radio, card, numbers, call)?;
    Ok(on)
}

/// Plays calls on a new selector, switched on, and prints their lines.
pub fn play_calls<R: Marked, C: Card>(
    out: &mut String,
    settings: Settings,
    radio: &mut R,
    card: &mut C,
    numbers: &[u16],
    calls: &[Call],
) -> Result<(), AllocError>
    ensures { OnOk result (string_bytes out.new ≡ string_bytes out.old ++ play_text numbers.now calls.now (started settings.supported.bits (R.Registrar.air radio.old) (C.Card.files card.old))) }
{
    let mut on = Off::new(settings).switch_on();
    for call in calls {
        carry_out(out, &mut on, radio, card, numbers, *call)?;
    }
    Ok(())
}
