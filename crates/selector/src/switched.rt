ghost use Rattle.std.specs.Prelude.{◌≡◌};
ghost use Rattle.selector.specs.Views.{standing, resting};
ghost use Rattle.states.specs.Standings.{fresh, switched_on, switched_off, turned, in_state, loss_of};
ghost use Rattle.states.specs.States.{state_after};
ghost use Rattle.subscriber.specs.Codes.{codes_in};

use plmn::{Area, Settings};
use states::{Event, Mode, State};
use subscriber::CodeList;

/// A selector that is off. It knows only switch-on.
#[derive(Drop)]
pub struct Off {
    pub(crate) settings: Settings,
    pub(crate) mode: Mode,
    pub(crate) equivalents: CodeList,
}

/// A selector that is on.
#[derive(Drop)]
pub struct On {
    pub(crate) settings: Settings,
    pub(crate) mode: Mode,
    pub(crate) state: State,
    pub(crate) equivalents: CodeList,
    pub(crate) roaming: [Area; 10],
    pub(crate) regional: [Area; 10],
}

impl Off {
    /// A new selector: off, automatic, without equivalents.
    pub fn new(settings: Settings) -> Off
        ensures { resting result ≡ fresh settings.supported.bits }
    {
        Off {
            settings,
            mode: Mode::Automatic,
            equivalents: CodeList::none(),
        }
    }

    /// Switches on: just on, with no listed area.
    pub fn switch_on(self) -> On
        ensures { standing result ≡ switched_on (resting self) }
    {
        let Off {
            settings,
            mode,
            equivalents,
        } = self;
        On {
            settings,
            mode,
            state: State::JustOn,
            equivalents,
            roaming: [Area::EMPTY; 10],
            regional: [Area::EMPTY; 10],
        }
    }
}

impl On {
    /// Switches off: settings, mode and equivalents are kept, the area lists are emptied.
    pub fn switch_off(self) -> Off
        ensures { resting result ≡ switched_off (standing self) }
    {
        let On {
            settings,
            mode,
            state: _,
            equivalents,
            roaming: _,
            regional: _,
        } = self;
        Off {
            settings,
            mode,
            equivalents,
        }
    }

    /// The state after an event.
    pub(crate) fn turn(&mut self, event: Event)
        ensures { standing self.new ≡ in_state (state_after event (standing self.old).state) (standing self.old) }
    {
        self.state = match (self.state, event) {
            (_, Event::Tries(state)) => state,
            (State::Registered(serving), Event::Loss) => State::Lost(serving),
            (state, Event::Loss) => state,
        };
    }

    /// The network is lost: registered turns into lost, about the same network, and every other state stays. Answers the state.
    pub fn loss(&mut self) -> State
        ensures value { result ≡ (loss_of (standing self.old)).state }
        ensures after { standing self.new ≡ loss_of (standing self.old) }
    {
        self.turn(Event::Loss);
        self.state
    }

    pub fn state(&self) -> State
        ensures { result ≡ (standing self.now).state }
    {
        self.state
    }

    /// The codes equivalent to that of the last registration.
    pub fn equivalents(&self) -> CodeList
        ensures { codes_in result ≡ (standing self.now).equivalents }
    {
        self.equivalents
    }

    /// The areas without roaming; the empty area stands for a free place.
    pub fn roaming(&self) -> [Area; 10]
        ensures { result ≡ (standing self.now).roaming }
    {
        self.roaming
    }

    /// The areas that are not allowed regionally; the empty area stands for a free place.
    pub fn regional(&self) -> [Area; 10]
        ensures { result ≡ (standing self.now).regional }
    {
        self.regional
    }

    /// Turns to the other mode and answers the earlier one.
    pub fn change_mode(&mut self) -> Mode
        ensures value { result ≡ (standing self.old).mode }
        ensures after { standing self.new ≡ turned (standing self.old) }
    {
        let earlier = self.mode;
        self.mode = match earlier {
            Mode::Automatic => Mode::Manual,
            Mode::Manual => Mode::Automatic,
        };
        earlier
    }
}
