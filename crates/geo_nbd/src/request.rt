//! The head of a request.
ghost use Rattle.std.specs.Prelude.{◌≡◌};
ghost use Rattle.geo_nbd.specs.Laws.{RequestsComeBack};
ghost use Rattle.geo_nbd.specs.Messages.{request_bytes, request_of};

use crate::field::{put_u16, put_u32, put_u64, u16_at, u32_at, u64_at};
use crate::numbers::REQUEST_MAGIC;

/// A request, in front of its bytes where it is a write. The cookie is the client's own number for it.
#[derive(Clone, Copy, Debug, PartialEq, Eq)]
pub struct Request {
    pub flags: u16,
    pub kind: u16,
    pub cookie: u64,
    pub offset: u64,
    pub len: u32,
}

impl Request {
    /// What the bytes say; None exactly where their magic number is another.
    pub fn read(bytes: &[u8; 28]) -> Option<Request>
        ensures { result ≡ request_of bytes.now }
    {
        if u32_at(bytes, 0) != REQUEST_MAGIC {
            return None;
        }
        Some(Request {
            flags: u16_at(bytes, 4),
            kind: u16_at(bytes, 6),
            cookie: u64_at(bytes, 8),
            offset: u64_at(bytes, 16),
            len: u32_at(bytes, 24),
        })
    }

    /// The bytes.
    pub fn bytes(&self) -> [u8; 28]
        ensures { result ≡ request_bytes self.now }
    {
        let mut bytes = [0; 28];
        put_u32(&mut bytes, 0, REQUEST_MAGIC);
        put_u16(&mut bytes, 4, self.flags);
        put_u16(&mut bytes, 6, self.kind);
        put_u64(&mut bytes, 8, self.cookie);
        put_u64(&mut bytes, 16, self.offset);
        put_u32(&mut bytes, 24, self.len);
        bytes
    }
}

/// What is written is read back.
pub fn requests_come_back()
    ensures { RequestsComeBack }
{}
