ghost use Rattle.std.specs.Prelude.{◌≡◌, ◌≤◌, length};
ghost use Rattle.std.specs.List.{prefix_len};
ghost use Rattle.words.specs.Words.{white, of_run};

/// What the longest run at the front of a text is made of. The four are a closed set that the language's definitions name; a closure
/// in place of the enum would have to be tied to one of them at each call.
#[derive(Clone, Copy)]
pub enum Run {
    /// Spaces and tabs.
    White,
    /// What is neither white nor the `#` that begins a comment.
    Word,
    /// All but the end of a line.
    Line,
    /// All but the beginning of a comment.
    Uncommented,
}

/// A space or a tab.
pub fn is_white(byte: u8) -> bool
    ensures { result ≡ white byte }
{
    byte == b' ' || byte == b'\t'
}

fn belongs(run: Run, byte: u8) -> bool
    ensures { result ≡ of_run run byte }
{
    match run {
        Run::White => is_white(byte),
        Run::Word => !is_white(byte) && byte != b'#',
        Run::Line => byte != b'\n',
        Run::Uncommented => byte != b'#',
    }
}

/// How many bytes the longest such run at the front has.
pub fn front(text: &[u8], run: Run) -> usize
    ensures value { result ≡ prefix_len (of_run run) text.now }
    ensures small { result ≤ length text.now }
{
    text.iter().take_while(|byte| belongs(run, **byte)).count()
}
