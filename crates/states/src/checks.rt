ghost use Rattle.std.specs.Prelude.{◌≡◌, Some, None, MatchResult};
ghost use Rattle.states.specs.Checks.{run_checks_by, look_checks_by, usable};

use super::state::{Mode, State};
use plmn::{Row, TechnologySet};
use refusal::Refusal;

/// The selector's own checks of a run with a trail of this many numbers.
pub fn may_run(mode: Mode, state: State, room: usize) -> Result<(), Refusal>
    ensures { MatchResult result (λ _. run_checks_by mode state room ≡ None) (λ e. run_checks_by mode state room ≡ Some e) }
{
    if room < 20 {
        return Err(Refusal::ShortTrail);
    }
    match (mode, state) {
        (Mode::Manual, _) => Err(Refusal::WrongMode),
        (Mode::Automatic, State::Locked) => Err(Refusal::Locked),
        (Mode::Automatic, State::Registered(_)) => Err(Refusal::Registered),
        (Mode::Automatic, _) => Ok(()),
    }
}

/// The checks of a look, and the selector's own of a pick.
pub fn may_look(mode: Mode, state: State) -> Result<(), Refusal>
    ensures { MatchResult result (λ _. look_checks_by mode state ≡ None) (λ e. look_checks_by mode state ≡ Some e) }
{
    match (mode, state) {
        (Mode::Automatic, _) => Err(Refusal::WrongMode),
        (Mode::Manual, State::Locked) => Err(Refusal::Locked),
        (Mode::Manual, _) => Ok(()),
    }
}

/// Whether a row can be picked.
pub fn is_usable(row: Row, supported: TechnologySet) -> bool
    ensures { result ≡ usable supported.bits row }
{
    row.code.is_valid() && supported.has_number(row.technology)
}
