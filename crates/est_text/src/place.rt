//! Places of a text: byte spans, lines and columns.
ghost use Rattle.std.specs.Prelude.{◌≡◌, ◌+◌, ◌<◌, ◌^◌, length};
ghost use Rattle.est_text.specs.Places.{place_after};

/// A place in a text: line and column, both from 1; columns count bytes, and a line ends with LF.
#[derive(Clone, Copy, PartialEq, Eq, Debug)]
pub struct Place {
    pub line: u64,
    pub column: u64,
}

/// The bytes of a text from `start` to just before `end`, both counted from 0.
#[derive(Clone, Copy, PartialEq, Eq, Debug)]
pub struct Span {
    pub start: usize,
    pub end: usize,
}

/// The place just after a text.
pub fn place_after(text: &[u8]) -> Place
    requires { length text.now + 1 < 2 ^ 64 }
    ensures { result ≡ place_after text.now }
{
    let mut line = 1u64;
    let mut column = 1u64;
    for byte in text {
        if *byte == b'\n' {
            line += 1;
            column = 1;
        } else {
            column += 1;
        }
    }
    Place { line, column }
}
