//! The head of a simple reply.
ghost use Rattle.std.specs.Prelude.{◌≡◌};
ghost use Rattle.geo_nbd.specs.Laws.{SimpleRepliesComeBack};
ghost use Rattle.geo_nbd.specs.Messages.{simple_reply_bytes, simple_reply_of};

use crate::field::{put_u32, put_u64, u32_at, u64_at};
use crate::numbers::SIMPLE_REPLY_MAGIC;

/// A reply to the request of this cookie: error 0 where it is done, in front of the bytes where it was a read.
#[derive(Clone, Copy, Debug, PartialEq, Eq)]
pub struct SimpleReply {
    pub error: u32,
    pub cookie: u64,
}

impl SimpleReply {
    /// What the bytes say; None exactly where their magic number is another.
    pub fn read(bytes: &[u8; 16]) -> Option<SimpleReply>
        ensures { result ≡ simple_reply_of bytes.now }
    {
        if u32_at(bytes, 0) != SIMPLE_REPLY_MAGIC {
            return None;
        }
        Some(SimpleReply {
            error: u32_at(bytes, 4),
            cookie: u64_at(bytes, 8),
        })
    }

    /// The bytes.
    pub fn bytes(&self) -> [u8; 16]
        ensures { result ≡ simple_reply_bytes self.now }
    {
        let mut bytes = [0; 16];
        put_u32(&mut bytes, 0, SIMPLE_REPLY_MAGIC);
        put_u32(&mut bytes, 4, self.error);
        put_u64(&mut bytes, 8, self.cookie);
        bytes
    }
}

/// What is written is read back.
pub fn simple_replies_come_back()
    ensures { SimpleRepliesComeBack }
{}
