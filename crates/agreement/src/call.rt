use refusal::Refusal;
use states::{Mode, RunAnswer, State};

/// A call of a selector that is on.
#[derive(Clone, Copy)]
pub enum Call {
    /// A run with this draw.
    Run(u64),
    Look,
    /// A pick of the row at this place.
    Pick(usize),
    Loss,
    ChangeMode,
    /// A switch-off, and the switch-on that follows it.
    Restart,
}

/// What a call answers.
#[derive(Clone, Copy)]
pub enum Reply {
    Ran(Result<RunAnswer, Refusal>),
    Looked(Result<usize, Refusal>),
    Picked(Result<State, Refusal>),
    Lost(State),
    Changed(Mode),
    Restarted,
}
