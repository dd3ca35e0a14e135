//! How far a blank, a word or a comment goes.
ghost use Rattle.std.specs.Prelude.{◌≡◌, ◌≤◌, ◌<◌, ◌+◌, ℕ, length, take, drop, IsTrue, IfSome};
ghost use Rattle.std.specs.Prelude.{IfNone};
ghost use Rattle.std.specs.List.{list_all};
ghost use Rattle.est_text.specs.Identifiers.{is_identifier_byte};
ghost use Rattle.est_text.specs.Pieces.{is_blank, is_in_line, StopsAt, ClosesAt, IsFirstClose};

use crate::identifier::is_identifier_byte;

/// Space, tab, CR, LF and form feed.
pub(crate) fn is_blank(byte: u8) -> bool
    ensures { result ≡ is_blank byte }
{
    byte == b' ' || byte == b'\t' || byte == b'\r' || byte == b'\n' || byte == b'\x0c'
}

/// How many bytes at the front are letters, digits and `_`.
pub(crate) fn word_len(rest: &[u8]) -> usize
    ensures within { result ≤ length rest.now }
    ensures same { IsTrue (list_all is_identifier_byte (take result rest.now)) }
    ensures stops { StopsAt is_identifier_byte (drop result rest.now) }
{
    let mut count = 0;
    while count < rest.len() && is_identifier_byte(rest[count]) {
        count += 1;
    }
    count
}

/// How many bytes stand before the end of the line.
pub(crate) fn line_len(rest: &[u8]) -> usize
    ensures within { result ≤ length rest.now }
    ensures same { IsTrue (list_all is_in_line (take result rest.now)) }
    ensures stops { StopsAt is_in_line (drop result rest.now) }
{
    let mut count = 0;
    while count < rest.len() && rest[count] != b'\n' {
        count += 1;
    }
    count
}

/// Where the first `}%` stands.
pub(crate) fn close_at(rest: &[u8]) -> Option<usize>
    ensures found { IfSome result (λ at. IsFirstClose rest.now at) }
    ensures none { IfNone result ((i : ℕ) → i + 1 < length rest.now → ¬ (ClosesAt rest.now i)) }
{
    let mut at = 0;
    while at + 1 < rest.len() {
        if rest[at] == b'}' && rest[at + 1] == b'%' {
            return Some(at);
        }
        at += 1;
    }
    None
}
