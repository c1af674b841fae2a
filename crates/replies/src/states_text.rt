ghost use Rattle.std.specs.Prelude.{◌≡◌, ◌++◌, string_bytes, OnOk};
ghost use Rattle.replies.specs.Texts.{state_name, state_head, serving_text, state_text};

use super::numbers::{push_decimal, push_spaced};
use answers::push_code;
use states::{Serving, State};
use std::alloc::AllocError;

fn state_name(state: State) -> &'static str
    ensures { result.now ≡ state_name state }
{
    match state {
        State::JustOn => "just-on",
        State::Registered(_) => "registered",
        State::Limited(_) => "limited",
        State::NoService => "no-service",
        State::Locked => "locked",
        State::Lost(_) => "lost",
    }
}

/// The number and the name of a state.
fn push_state_head(out: &mut String, state: State) -> Result<(), AllocError>
    ensures { OnOk result (string_bytes out.new ≡ string_bytes out.old ++ state_head state) }
{
    push_decimal(out, u8::from(state) as u64)?;
    out.push_str(" ")?;
    out.push_str(state_name(state))?;
    out.push_str(" ")
}

/// The code, the technology and the area of a network.
fn push_serving(out: &mut String, serving: Serving) -> Result<(), AllocError>
    ensures { OnOk result (string_bytes out.new ≡ string_bytes out.old ++ serving_text serving) }
{
    push_code(out, serving.code)?;
    push_spaced(out, serving.technology as u64)?;
    push_spaced(out, serving.area as u64)
}

/// A state: its number and name, and the code, technology and area of its network.
pub fn push_state(out: &mut String, state: State) -> Result<(), AllocError>
    ensures { OnOk result (string_bytes out.new ≡ string_bytes out.old ++ state_text state) }
{
    push_state_head(out, state)?;
    push_serving(out, state.serving())
}
