use packed_card::Entry;
use plmn::{Code, Row};

/// The network codes beside an acceptance: the first `count` of five.
#[derive(Clone, Copy)]
pub struct Codes {
    pub codes: [Code; 5],
    pub count: usize,
}

/// What a row answers to a registration.
#[derive(Clone, Copy)]
pub enum Answer {
    /// Accepted; the codes are equivalent to the row's.
    Accept(Codes),
    Cause(u8),
    Silent,
}

/// A row of a sky, with its answer.
#[derive(Clone, Copy)]
pub struct SkyRow {
    pub row: Row,
    pub answer: Answer,
}

/// A call on the board.
#[derive(Clone, Copy)]
pub enum Call {
    Card,
    Marks,
    /// A draw, and the room of the trail where it is written.
    Run(u64, Option<u8>),
    Look,
    Pick(u64),
    Mode,
    Restart,
}

/// The words that begin a statement.
#[derive(Clone, Copy)]
pub enum Keyword {
    Supported,
    File,
    Image,
    Entry,
    Sky,
    Row,
    Card,
    Marks,
    Run,
    Look,
    Pick,
    Mode,
    Restart,
}

/// One line of a scenario. Bytes of a file or of the image are still as they are written.
#[derive(Clone, Copy)]
pub enum Statement<'a> {
    Nothing,
    Supported(u16),
    File(u16, &'a [u8]),
    Image(&'a [u8]),
    Entry(Entry),
    Sky,
    Row(SkyRow),
    Call(Call),
}
