//! Text by lines and words, and the numbers that words write. Nothing here is only tested.

#![tactic(auto)]

mod digits;
mod lines;
mod runs;
mod words;

pub use digits::{decimal, four_digits, hex_pair, signed_level, six_digits};
pub use lines::{FirstLine, first_line, without_return};
pub use runs::{Run, front, is_white};
pub use words::{Words, is_text};
