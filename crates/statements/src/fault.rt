ghost use Rattle.std.specs.Prelude.{◌≡◌};
ghost use Rattle.statements.specs.declared.fault.Reason.TheVariants.{NoMemory};

use std::alloc::AllocFailed;
use std::error::Error;
use std::fmt;

/// Why a line cannot be read.
#[derive(Clone, Copy, Debug, PartialEq, Eq)]
pub enum Reason {
    UnknownWord,
    MissingWord,
    ExtraWord,
    NotFourDigits,
    NotSixDigits,
    NotAByte,
    /// A number that is none, or is above this one.
    NotUpTo(u64),
    NotALevel,
    NotAnAnswer,
    TooManyCodes,
    RowBeforeSky,
    BoardAfterCall,
    NoMemory,
}

/// The first line of a text that cannot be read, counted from 1, and why.
#[derive(Clone, Copy, Debug, PartialEq, Eq)]
pub struct Fault {
    pub line: usize,
    pub reason: Reason,
}

impl fmt::Display for Reason {
    fn fmt<W: fmt::Write>(&self, f: &mut fmt::Formatter<W>) -> fmt::Result {
        match *self {
            Reason::UnknownWord => write!(f, "unknown word"),
            Reason::MissingWord => write!(f, "missing word"),
            Reason::ExtraWord => write!(f, "too many words"),
            Reason::NotFourDigits => write!(f, "expected four hexadecimal digits"),
            Reason::NotSixDigits => write!(f, "expected six hexadecimal digits"),
            Reason::NotAByte => write!(f, "a byte is two hexadecimal digits"),
            Reason::NotUpTo(most) => write!(f, "expected a number from 0 to {most}"),
            Reason::NotALevel => write!(f, "expected a number from -32768 to 32767"),
            Reason::NotAnAnswer => write!(f, "an answer is accept, cause or silent"),
            Reason::TooManyCodes => write!(f, "an answer has at most five codes"),
            Reason::RowBeforeSky => write!(f, "a row before the first sky"),
            Reason::BoardAfterCall => write!(f, "board statement after the first call"),
            Reason::NoMemory => write!(f, "not enough memory"),
        }
    }
}

impl Error for Reason {}

impl<T: Drop> From<AllocFailed<T>> for Reason {
    ghost from_gives = { λ _ e. e ≡ NoMemory };

    fn from(_e: AllocFailed<T>) -> Reason {
        Reason::NoMemory
    }
}

impl fmt::Display for Fault {
    fn fmt<W: fmt::Write>(&self, f: &mut fmt::Formatter<W>) -> fmt::Result {
        let line = self.line;
        let reason = self.reason;
        write!(f, "line {line}: {reason}")
    }
}

impl Error for Fault {}
