use order::Class;
use std::fmt;

/// A class with its number and position: `class 4, user list position 1`.
#[derive(Clone, Copy)]
pub struct ClassWords(pub Class);

impl fmt::Display for ClassWords {
    fn fmt<W: fmt::Write>(&self, f: &mut fmt::Formatter<W>) -> fmt::Result {
        match self.0 {
            Class::Registered => f.write_str("class 1, registered code"),
            Class::Equivalent(p) => write!(f, "class 2, equivalent code position {p}"),
            Class::Home => f.write_str("class 3, home code"),
            Class::User(p) => write!(f, "class 4, user list position {p}"),
            Class::Operator(p) => write!(f, "class 5, operator list position {p}"),
            Class::HighQuality => f.write_str("class 6, high quality"),
            Class::Rest => f.write_str("class 7, any other"),
        }
    }
}
