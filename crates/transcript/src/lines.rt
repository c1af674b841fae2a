ghost use Rattle.std.specs.Prelude.{◌≡◌, ◌++◌, string_bytes, OnOk};
ghost use Rattle.transcript.specs.Lines.{call_name, call_number, call_text, reply_text, line_text};

use agreement::{Call, Reply};
use replies::{push_looked, push_mode, push_picked, push_ran, push_spaced, push_state};
use std::alloc::AllocError;

/// What a call answered; a run also the places that it tried.
pub fn push_reply(out: &mut String, reply: Reply, places: &[u8]) -> Result<(), AllocError>
    ensures { OnOk result (string_bytes out.new ≡ string_bytes out.old ++ reply_text reply places.now) }
{
    match reply {
        Reply::Ran(outcome) => push_ran(out, outcome, places),
        Reply::Looked(outcome) => push_looked(out, outcome),
        Reply::Picked(outcome) => push_picked(out, outcome),
        Reply::Lost(state) => push_state(out, state),
        Reply::Changed(mode) => push_mode(out, mode),
        Reply::Restarted => out.push_str("on"),
    }
}

/// The name of a call, without its number.
fn call_name(call: Call) -> &'static str
    ensures { result.now ≡ call_name call }
{
    match call {
        Call::Run(_) => "run",
        Call::Look => "look",
        Call::Pick(_) => "pick",
        Call::Loss => "loss",
        Call::ChangeMode => "mode",
        Call::Restart => "restart",
    }
}

fn push_number(out: &mut String, call: Call) -> Result<(), AllocError>
    ensures { OnOk result (string_bytes out.new ≡ string_bytes out.old ++ call_number call) }
{
    match call {
        Call::Run(draw) => push_spaced(out, draw),
        Call::Pick(place) => push_spaced(out, place as u64),
        _ => Ok(()),
    }
}

/// The words of a call.
fn push_call(out: &mut String, call: Call) -> Result<(), AllocError>
    ensures { OnOk result (string_bytes out.new ≡ string_bytes out.old ++ call_text call) }
{
    out.push_str(call_name(call))?;
    push_number(out, call)
}

/// The line of a call: its words, a colon, and its answer.
pub(crate) fn push_line(
    out: &mut String,
    call: Call,
    reply: Reply,
    places: &[u8],
) -> Result<(), AllocError>
    ensures { OnOk result (string_bytes out.new ≡ string_bytes out.old ++ line_text call reply places.now) }
{
    push_call(out, call)?;
    out.push_str(": ")?;
    push_reply(out, reply, places)?;
    out.push_str("\n")
}
