//! Names of providers, geoms, disks, actors and handles.
ghost use Rattle.std.specs.Prelude.{◌≡◌, ◌++◌, IsTrue, MatchResult, Some, None};
ghost use Rattle.std.specs.List.{list_all};
ghost use Rattle.geo_base.specs.Name.{is_name, is_name_byte, is_short_name, is_word_byte, name_of};

use std::marker::Model;
use thiserror::Error;

/// The bytes aren't a name: none, more than 63, or one that isn't a letter, a digit, `_`, `-`, `.` or `/`.
#[derive(Clone, Copy, Debug, PartialEq, Eq, Error)]
#[error("not a name")]
pub struct BadName;

/// A name of 1 to 63 bytes, which contracts see as their list. It keeps them in itself, with zeros behind them.
#[derive(Clone, Copy, Debug, PartialEq, Eq, Hash, PartialOrd, Ord)]
pub struct Name {
    len: u8,
    cells: [u8; 63],
}

impl Model for Name {
    ghost use Rattle.std.specs.Prelude.{ℕ, List, take, ◌++◌, ◌-◌, replicate, length};
    ghost use Rattle.geo_base.specs.Padded.{IsKeptName, kept_again};

    ghost Value = { List ℕ };

    ghost view = { λ name. take name.len name.cells };

    ghost invariant = { λ name. IsKeptName name.cells name.len };

    ghost inverse = { λ bytes. record { len = length bytes; cells = bytes ++ replicate (63 - length bytes) 0 } };

    ghost inverse_ok = { λ name kept. kept_again (λ cells n. record { len = n; cells = cells }) name.cells name.len
        kept };
}

/// Whether it is a letter, a digit, `_` or `-`.
fn is_word_byte(b: u8) -> bool
    ensures { result ≡ is_word_byte b }
{
    (97 <= b && b <= 122) || (65 <= b && b <= 90) || (48 <= b && b <= 57) || b == 95 || b == 45
}

/// Whether it may stand in a name.
fn is_name_byte(b: u8) -> bool
    ensures { result ≡ is_name_byte b }
{
    is_word_byte(b) || b == 46 || b == 47
}

/// Whether each byte may stand in a name.
fn are_name_bytes(bytes: &[u8]) -> bool
    ensures { result ≡ list_all is_name_byte bytes.now }
{
    bytes.iter().all(|b| is_name_byte(*b))
}

/// Whether each byte is a letter, a digit, `_` or `-`.
fn are_word_bytes(bytes: &[u8]) -> bool
    ensures { result ≡ list_all is_word_byte bytes.now }
{
    bytes.iter().all(|b| is_word_byte(*b))
}

/// Whether the bytes are a name.
fn is_name(bytes: &[u8]) -> bool
    ensures { result ≡ is_name bytes.now }
{
    1 <= bytes.len() && bytes.len() <= 63 && are_name_bytes(bytes)
}

impl Name {
    /// The name of these bytes. `BadName` exactly where they aren't one.
    pub fn new(bytes: &[u8]) -> Result<Name, BadName>
        ensures { MatchResult result (λ name. name_of bytes.now ≡ Some name) (λ _. name_of bytes.now ≡ None) }
    {
        if !is_name(bytes) {
            return Err(BadName);
        }
        let mut cells = [0u8; 63];
        cells[..bytes.len()].copy_from_slice(bytes);
        Ok(Name {
            len: bytes.len() as u8,
            cells,
        })
    }

    /// The name with these bytes behind it. `BadName` exactly where the bytes joined aren't a name.
    pub fn with_tail(&self, tail: &[u8]) -> Result<Name, BadName>
        ensures { MatchResult result (λ name. name_of (self.now ++ tail.now) ≡ Some name)
            (λ _. name_of (self.now ++ tail.now) ≡ None) }
    {
        let front = self.bytes();
        if 63 - front.len() < tail.len() {
            return Err(BadName);
        }
        let mut cells = [0u8; 63];
        cells[..front.len()].copy_from_slice(front);
        cells[front.len()..front.len() + tail.len()].copy_from_slice(tail);
        Name::new(&cells[..front.len() + tail.len()])
    }

    /// The bytes, 1 to 63.
    pub fn bytes(&self) -> &[u8]
        ensures bytes { result.now ≡ self.now }
        ensures named { IsTrue (is_name self.now) }
    {
        &self.cells[..self.len as usize]
    }

    /// Whether it is short: at most 16 bytes, all of them letters, digits, `_` or `-`, as names of disks, actors,
    /// handles and records are.
    pub fn is_short(&self) -> bool
        ensures { result ≡ is_short_name self.now }
    {
        let bytes = self.bytes();
        1 <= bytes.len() && bytes.len() <= 16 && are_word_bytes(bytes)
    }
}
