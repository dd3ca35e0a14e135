//! Identifiers in fixed space: the names of modules, signals and traps.
ghost use Rattle.std.specs.Prelude.{◌≡◌, ◌≤◌, IsTrue, Some, None, if◌then◌else◌, length};
ghost use Rattle.std.specs.List.{list_all};
ghost use Rattle.std.specs.Str.{bytes_eq};
ghost use Rattle.est_text.specs.Identifiers.{is_identifier, is_identifier_byte};

use std::marker::Model;

/// The most bytes that an identifier may have.
pub const IDENTIFIER_BYTES: usize = 48;

/// A letter, and then letters, digits and `_`, at most `IDENTIFIER_BYTES`. A contract sees the list
/// of its bytes.
#[derive(Clone, Copy, PartialEq, Eq, Debug)]
pub struct Identifier {
    bytes: [u8; IDENTIFIER_BYTES],
    count: u8,
}

impl Model for Identifier {
    ghost use Rattle.std.specs.Prelude.{List, ℕ, ◌-◌, ◌++◌, length, take, replicate};
    ghost use Rattle.est_text.specs.Identifiers.{HoldsIdentifier};
    ghost use Rattle.est_text.specs.declared.identifier.TheConstants.{IDENTIFIER_BYTES};

    ghost Value = { List ℕ };

    ghost view = { λ n. take n.count n.bytes };

    ghost invariant = { λ n. HoldsIdentifier n.bytes n.count };

    ghost inverse = { λ s. record {
      bytes = s ++ replicate (IDENTIFIER_BYTES - length s) 0;
      count = length s;
    } };
}

/// Letters, digits and `_`, of ASCII.
pub fn is_identifier_byte(byte: u8) -> bool
    ensures { result ≡ is_identifier_byte byte }
{
    byte.is_ascii_alphanumeric() || byte == b'_'
}

fn only_identifier_bytes(text: &[u8]) -> bool
    ensures { result ≡ list_all is_identifier_byte text.now }
{
    text.iter().all(|byte| is_identifier_byte(*byte))
}

/// Whether the text is an identifier.
pub fn is_identifier(text: &[u8]) -> bool
    ensures { result ≡ is_identifier text.now }
{
    match text {
        [] => false,
        [first, ..] => {
            first.is_ascii_alphabetic()
                && text.len() <= IDENTIFIER_BYTES
                && only_identifier_bytes(text)
        }
    }
}

impl Identifier {
    /// The identifier that these bytes are, if they are one.
    pub fn from_bytes(text: &[u8]) -> Option<Identifier>
        ensures { result ≡ (if is_identifier text.now then Some text.now else None) }
    {
        if !is_identifier(text) {
            return None;
        }
        let mut bytes = [0u8; IDENTIFIER_BYTES];
        bytes[..text.len()].copy_from_slice(text);
        Some(Identifier {
            bytes,
            count: text.len() as u8,
        })
    }

    /// The identifier that a text is, if it is one.
    pub fn from_text(text: &str) -> Option<Identifier>
        ensures { result ≡ (if is_identifier text.now then Some text.now else None) }
    {
        Identifier::from_bytes(text.as_bytes())
    }

    /// Its bytes, all of them ASCII.
    pub fn as_bytes(&self) -> &[u8]
        ensures { result.now ≡ self.now }
    {
        &self.bytes[..self.count as usize]
    }

    /// Its text.
    pub fn as_str(&self) -> &str
        ensures same { result.now ≡ self.now }
        ensures identifier { IsTrue (is_identifier self.now) }
    {
        let text = &self.bytes[..self.count as usize];
        std::str::from_utf8(text).unwrap()
    }

    /// Whether the two are one.
    pub fn is(&self, other: &Identifier) -> bool
        ensures { result ≡ bytes_eq self.now other.now }
    {
        self.as_bytes() == other.as_bytes()
    }
}
