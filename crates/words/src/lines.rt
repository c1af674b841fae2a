ghost use Rattle.std.specs.Prelude.{◌≡◌, ◌+◌, ◌<◌, ◌≤◌, ◌∷◌, length as size, drop};
ghost use Rattle.words.specs.Lines.{lines_of, unreturned};

use super::runs::{Run, front};

/// The first line of a text, and what stands behind its end.
#[derive(Clone, Copy)]
pub struct FirstLine<'a> {
    pub line: &'a [u8],
    pub rest: &'a [u8],
}

/// What stands behind a line of `length` bytes.
fn past_line(text: &[u8], length: usize) -> &[u8]
    requires { length ≤ size text.now }
    ensures { result.now ≡ drop (length + 1) text.now }
{
    match &text[length..] {
        [_, rest @ ..] => rest,
        [] => &[],
    }
}

/// Cuts a text behind its first line.
pub fn first_line(text: &[u8]) -> FirstLine<'_>
    ensures lines { 0 < size text.now → lines_of text.now ≡ result.line.now ∷ lines_of result.rest.now }
    ensures small { 0 < size text.now → size result.rest.now < size text.now }
{
    let length = front(text, Run::Line);
    FirstLine {
        line: &text[0..length],
        rest: past_line(text, length),
    }
}

/// The line without a carriage return at its end.
pub fn without_return(line: &[u8]) -> &[u8]
    ensures { result.now ≡ unreturned line.now }
{
    match line {
        [front @ .., b'\r'] => front,
        _ => line,
    }
}
