//! The head of an option.
ghost use Rattle.std.specs.Prelude.{◌≡◌};
ghost use Rattle.geo_nbd.specs.Laws.{OptionHeadsComeBack};
ghost use Rattle.geo_nbd.specs.Messages.{option_head_bytes, option_head_of};

use crate::field::{put_u32, put_u64, u32_at, u64_at};
use crate::numbers::OPTION_MAGIC;

/// An option of a client, in front of its data of so many bytes.
#[derive(Clone, Copy, Debug, PartialEq, Eq)]
pub struct OptionHead {
    pub option: u32,
    pub len: u32,
}

impl OptionHead {
    /// What the bytes say; None exactly where their magic number is another.
    pub fn read(bytes: &[u8; 16]) -> Option<OptionHead>
        ensures { result ≡ option_head_of bytes.now }
    {
        if u64_at(bytes, 0) != OPTION_MAGIC {
            return None;
        }
        Some(OptionHead {
            option: u32_at(bytes, 8),
            len: u32_at(bytes, 12),
        })
    }

    /// The bytes.
    pub fn bytes(&self) -> [u8; 16]
        ensures { result ≡ option_head_bytes self.now }
    {
        let mut bytes = [0; 16];
        put_u64(&mut bytes, 0, OPTION_MAGIC);
        put_u32(&mut bytes, 8, self.option);
        put_u32(&mut bytes, 12, self.len);
        bytes
    }
}

/// What is written is read back.
pub fn option_heads_come_back()
    ensures { OptionHeadsComeBack }
{}
