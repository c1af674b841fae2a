use names::{Network, TechnologyName};
use states::{Serving, State};
use std::fmt;

/// A state: `registered on 262-02, UTRAN, area 258`.
#[derive(Clone, Copy)]
pub struct StateWords(pub State);

fn write_serving<W: fmt::Write>(
    f: &mut fmt::Formatter<W>,
    what: &str,
    serving: Serving,
) -> fmt::Result {
    let network = Network(serving.code);
    let technology = TechnologyName(serving.technology);
    let area = serving.area;
    write!(f, "{what} {network}, {technology}, area {area}")
}

impl fmt::Display for StateWords {
    fn fmt<W: fmt::Write>(&self, f: &mut fmt::Formatter<W>) -> fmt::Result {
        match self.0 {
            State::JustOn => f.write_str("just on"),
            State::Registered(serving) => write_serving(f, "registered on", serving),
            State::Limited(serving) => write_serving(f, "limited service on", serving),
            State::NoService => f.write_str("no service"),
            State::Locked => f.write_str("the card is locked"),
            State::Lost(serving) => write_serving(f, "lost", serving),
        }
    }
}
