ghost use Rattle.std.specs.Prelude.{◌≡◌, ◌++◌, string_bytes, OnOk};
ghost use Rattle.std.specs.List.{flat_map};
ghost use Rattle.replies.specs.Texts.{spaced, places_text, carried_out_text, ran_text, looked_text, picked_text, mode_text};

use super::numbers::{push_decimal, push_spaced};
use super::states_text::push_state;
use answers::push_refusal;
use refusal::Refusal;
use states::{Mode, RunAnswer, State};
use std::alloc::AllocError;

fn push_each(out: &mut String, places: &[u8]) -> Result<(), AllocError>
    ensures { OnOk result (string_bytes out.new ≡ string_bytes out.old ++ flat_map spaced places.now) }
{
    for place in places {
        push_spaced(out, *place as u64)?;
    }
    Ok(())
}

/// The places, each with a space before it, or `none`.
pub fn push_places(out: &mut String, places: &[u8]) -> Result<(), AllocError>
    ensures { OnOk result (string_bytes out.new ≡ string_bytes out.old ++ places_text places.now) }
{
    if places.len() == 0 {
        out.push_str(" none")
    } else {
        push_each(out, places)
    }
}

/// The answer of a run that was carried out.
fn push_carried_out(out: &mut String, state: State, places: &[u8]) -> Result<(), AllocError>
    ensures { OnOk result (string_bytes out.new ≡ string_bytes out.old ++ carried_out_text state places.now) }
{
    push_state(out, state)?;
    out.push_str("; tried")?;
    push_places(out, places)
}

/// What a run answers, and the places that it tried.
pub fn push_ran(
    out: &mut String,
    outcome: Result<RunAnswer, Refusal>,
    places: &[u8],
) -> Result<(), AllocError>
    ensures { OnOk result (string_bytes out.new ≡ string_bytes out.old ++ ran_text outcome places.now) }
{
    match outcome {
        Ok(answer) => push_carried_out(out, answer.state, places),
        Err(refusal) => push_refusal(out, refusal),
    }
}

/// What a look answers.
pub fn push_looked(out: &mut String, outcome: Result<usize, Refusal>) -> Result<(), AllocError>
    ensures { OnOk result (string_bytes out.new ≡ string_bytes out.old ++ looked_text outcome) }
{
    match outcome {
        Ok(count) => {
            push_decimal(out, count as u64)?;
            out.push_str(" rows")
        }
        Err(refusal) => push_refusal(out, refusal),
    }
}

/// What a pick answers.
pub fn push_picked(out: &mut String, outcome: Result<State, Refusal>) -> Result<(), AllocError>
    ensures { OnOk result (string_bytes out.new ≡ string_bytes out.old ++ picked_text outcome) }
{
    match outcome {
        Ok(state) => push_state(out, state),
        Err(refusal) => push_refusal(out, refusal),
    }
}

fn mode_word(mode: Mode) -> &'static str
    ensures { result.now ≡ mode_text mode }
{
    match mode {
        Mode::Automatic => "was automatic",
        Mode::Manual => "was manual",
    }
}

/// The mode that a mode change ended.
pub fn push_mode(out: &mut String, mode: Mode) -> Result<(), AllocError>
    ensures { OnOk result (string_bytes out.new ≡ string_bytes out.old ++ mode_text mode) }
{
    out.push_str(mode_word(mode))
}
