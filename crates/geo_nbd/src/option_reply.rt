//! The head of a reply to an option.
ghost use Rattle.std.specs.Prelude.{◌≡◌};
ghost use Rattle.geo_nbd.specs.Laws.{OptionRepliesComeBack};
ghost use Rattle.geo_nbd.specs.Messages.{option_reply_bytes, option_reply_of};

use crate::field::{put_u32, put_u64, u32_at, u64_at};
use crate::numbers::OPTION_REPLY_MAGIC;

/// A reply of this kind to an option, in front of its data of so many bytes.
#[derive(Clone, Copy, Debug, PartialEq, Eq)]
pub struct OptionReply {
    pub option: u32,
    pub kind: u32,
    pub len: u32,
}

impl OptionReply {
    /// What the bytes say; None exactly where their magic number is another.
    pub fn read(bytes: &[u8; 20]) -> Option<OptionReply>
        ensures { result ≡ option_reply_of bytes.now }
    {
        if u64_at(bytes, 0) != OPTION_REPLY_MAGIC {
            return None;
        }
        Some(OptionReply {
            option: u32_at(bytes, 8),
            kind: u32_at(bytes, 12),
            len: u32_at(bytes, 16),
        })
    }

    /// The bytes.
    pub fn bytes(&self) -> [u8; 20]
        ensures { result ≡ option_reply_bytes self.now }
    {
        let mut bytes = [0; 20];
        put_u64(&mut bytes, 0, OPTION_REPLY_MAGIC);
        put_u32(&mut bytes, 8, self.option);
        put_u32(&mut bytes, 12, self.kind);
        put_u32(&mut bytes, 16, self.len);
        bytes
    }
}

/// What is written is read back.
pub fn option_replies_come_back()
    ensures { OptionRepliesComeBack }
{}
