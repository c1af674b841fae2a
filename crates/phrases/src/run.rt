ghost use Rattle.std.specs.Prelude.{Some};
ghost use Rattle.phrases.specs.Heads.{run_head};

use std::fmt;

/// How the line of a run begins: `run 1: `, or `run 1 19: ` where its statement names the room of its trail.
#[derive(Clone, Copy)]
pub struct RunHead {
    pub draw: u64,
    pub room: Option<u8>,
}

impl fmt::Display for RunHead {
    ghost output = { λ h. Some (run_head h.draw h.room) };

    fn fmt<W: fmt::Write>(&self, f: &mut fmt::Formatter<W>) -> fmt::Result {
        let draw = self.draw;
        match self.room {
            Some(room) => write!(f, "run {draw} {room}: "),
            None => write!(f, "run {draw}: "),
        }
    }
}
