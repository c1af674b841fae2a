ghost use Rattle.std.specs.Prelude.{◌≡◌};
ghost use Rattle.states.specs.States.{state_number, serving_of, serving as servingIn};

use plmn::{Code, Row};

/// The network that a state is about: code, technology and area.
#[derive(Clone, Copy)]
pub struct Serving {
    pub code: Code,
    pub technology: u8,
    pub area: u16,
}

/// The state of a selector that is on.
#[derive(Clone, Copy)]
pub enum State {
    JustOn,
    Registered(Serving),
    Limited(Serving),
    NoService,
    Locked,
    Lost(Serving),
}

/// What changes the state of a selector that is on.
#[derive(Clone, Copy)]
pub enum Event {
    /// The tries of a run or a pick end in this state.
    Tries(State),
    /// The network is lost.
    Loss,
}

/// What a run answers: the state that it ends in, and how many rows it tried.
#[derive(Clone, Copy)]
pub struct RunAnswer {
    pub state: State,
    pub tries: usize,
}

/// Who chooses: the selector in automatic mode, a person in manual mode.
#[derive(Clone, Copy)]
pub enum Mode {
    Automatic,
    Manual,
}

impl Serving {
    /// What a state is about that is about no network: the empty code, 0 and 0.
    pub const NONE: Serving = Serving {
        code: Code::EMPTY,
        technology: 0,
        area: 0,
    };
}

/// The network of a row.
impl From<Row> for Serving {
    ghost from_gives = { λ row serving. serving ≡ serving_of row };

    fn from(row: Row) -> Serving {
        Serving {
            code: row.code,
            technology: row.technology,
            area: row.area,
        }
    }
}

/// The number by which a state is known outside.
impl From<State> for u8 {
    ghost from_gives = { λ state number. number ≡ state_number state };

    fn from(state: State) -> u8 {
        match state {
            State::JustOn => 0,
            State::Registered(_) => 1,
            State::Limited(_) => 2,
            State::NoService => 3,
            State::Locked => 4,
            State::Lost(_) => 5,
        }
    }
}

impl State {
    /// The network that the state is about; the empty code, 0 and 0 where it is about none.
    pub fn serving(self) -> Serving
        ensures { result ≡ servingIn self }
    {
        match self {
            State::Registered(s) | State::Limited(s) | State::Lost(s) => s,
            State::JustOn | State::NoService | State::Locked => Serving::NONE,
        }
    }
}
