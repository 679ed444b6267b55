//! Bytes that are written one part behind the other.
ghost use Rattle.std.specs.Prelude.{◌≡◌, ◌<◌, ◌++◌, ◌/◌, ◌%◌, [], ◌∷◌, length, IfOk, OnOk, decimal};
ghost use Rattle.geo_base.specs.Runs.{hex_digit};

use geo_base::{Block, NoMemory};
use itoa::Buffer;
use std::alloc::Global;
use std::marker::Model;

/// The digit of a number below 16, in lower case.
pub fn hex_digit(n: u8) -> u8
    requires { n < 16 }
    ensures { result ≡ hex_digit n }
{
    if n < 10 { b'0' + n } else { b'a' + (n - 10) }
}

/// Bytes to be printed, which contracts see as their list.
#[derive(Drop)]
pub struct Text {
    bytes: Vec<u8>,
}

impl Model for Text {
    ghost use Rattle.std.specs.Prelude.{List, ℕ};

    ghost Value = { List ℕ };

    ghost view = { λ text. text.bytes.items };
}

impl Text {
    /// No text. It takes no memory yet.
    pub fn new(alloc: Global) -> Text
        ensures { result ≡ [] }
    {
        Text {
            bytes: Vec::new(alloc),
        }
    }

    /// No text, with memory for so many bytes.
    pub fn with_room(alloc: Global, bytes: usize) -> Result<Text, NoMemory>
        ensures { IfOk result (λ text. text ≡ []) }
    {
        Ok(Text {
            bytes: Vec::with_capacity(alloc, bytes)?,
        })
    }

    /// The number of bytes.
    pub fn len(&self) -> usize
        ensures { result ≡ length self.now }
    {
        self.bytes.len()
    }

    /// The text is taken out; its memory stays.
    pub fn clear(&mut self)
        ensures { self.new ≡ [] }
    {
        self.bytes.clear();
    }

    /// These bytes behind the text.
    pub fn add(&mut self, part: &[u8]) -> Result<(), NoMemory>
        ensures { OnOk result (self.new ≡ self.old ++ part.now) }
    {
        self.bytes.extend_from_slice(part)?;
        Ok(())
    }

    /// A number in decimal behind the text.
    pub fn add_number(&mut self, number: u64) -> Result<(), NoMemory>
        ensures { OnOk result (self.new ≡ self.old ++ decimal number) }
    {
        let mut buffer = Buffer::new();
        self.add(buffer.format(number).as_bytes())
    }

    /// A wide number in decimal behind the text.
    pub fn add_wide(&mut self, number: u128) -> Result<(), NoMemory>
        ensures { OnOk result (self.new ≡ self.old ++ decimal number) }
    {
        let mut buffer = Buffer::new();
        self.add(buffer.format(number).as_bytes())
    }

    /// A word, and a number in decimal right behind it.
    pub fn add_labelled(&mut self, word: &[u8], number: u64) -> Result<(), NoMemory>
        ensures { OnOk result (self.new ≡ self.old ++ word.now ++ decimal number) }
    {
        self.add(word)?;
        self.add_number(number)
    }

    /// A byte as two hexadecimal digits behind the text.
    pub fn add_hex(&mut self, byte: u8) -> Result<(), NoMemory>
        ensures { OnOk result (self.new ≡ self.old ++ hex_digit (byte / 16) ∷ hex_digit (byte % 16) ∷ []) }
    {
        self.add(&[hex_digit(byte / 16), hex_digit(byte % 16)])
    }

    /// The bytes, which are moved and not copied.
    pub fn into_block(self) -> Block
        ensures { result ≡ self }
    {
        Block::from_vec(self.bytes)
    }
}
