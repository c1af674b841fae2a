ghost use Rattle.std.specs.Prelude.{◌≡◌, Ok, [], string_bytes};
ghost use Rattle.std.specs.List.{flat_map};
ghost use Rattle.transcript.specs.Lines.{seen_text};

use super::lines::push_line;
use agreement::{Call, Recorder, Reply};
use card::Card;
use radio::Registrar;
use selector::On;
use std::alloc::{AllocError, Global};

/// The lines of the calls so far, and whether memory sufficed for them: where it ran out they are broken off.
#[derive(Drop)]
pub struct Transcript {
    pub text: String,
    pub outcome: Result<(), AllocError>,
}

impl Transcript {
    /// No line yet.
    pub fn new(heap: Global) -> Transcript
        ensures text { string_bytes result.text ≡ [] }
        ensures whole { result.outcome ≡ Ok tt }
    {
        Transcript {
            text: String::new(heap),
            outcome: Ok(()),
        }
    }
}

impl Recorder for Transcript {
    // Unless it is broken off, its text is the lines of what it was told of.
    ghost heard = { λ t l. t.outcome ≡ Ok tt → string_bytes t.text ≡ flat_map seen_text l };

    fn told<R: Registrar, C: Card>(
        &mut self,
        call: Call,
        reply: Reply,
        trail: &[u8],
        on: &On,
        radio: &mut R,
        card: &mut C,
    ) {
        if let Err(error) = push_line(&mut self.text, call, reply, trail) {
            self.outcome = Err(error);
        }
    }
}
