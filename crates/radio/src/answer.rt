ghost use Rattle.std.specs.Prelude.{◌≡◌};
ghost use Rattle.radio.specs.Airs.{code_count};

/// What the network of a row answers to a registration: it accepts, with this many codes; it rejects, with this cause; or it
/// stays silent.
#[derive(Clone, Copy, PartialEq, Eq)]
pub enum Answer {
    Acceptance(u8),
    Rejection(u8),
    Silence,
}

impl Answer {
    /// How many codes the answer has; only an acceptance has any.
    pub fn code_count(self) -> u8
        ensures { result ≡ code_count self }
    {
        match self {
            Answer::Acceptance(count) => count,
            Answer::Rejection(_) => 0,
            Answer::Silence => 0,
        }
    }
}
