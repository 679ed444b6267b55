//! Structured replies, each of one chunk.
ghost use Rattle.std.specs.Prelude.{◌≡◌, ◌<◌, ◌+◌, ◌^◌};
ghost use Rattle.geo_nbd.specs.Laws.{ChunksComeBack};
ghost use Rattle.geo_nbd.specs.Messages.{chunk_bytes, chunk_of, data_chunk, done_chunk, error_chunk};

use crate::field::{put_u16, put_u32, put_u64, u16_at, u32_at, u64_at};
use crate::numbers::{CHUNK_DONE, CHUNK_ERROR, CHUNK_MAGIC, CHUNK_NONE, CHUNK_OFFSET_DATA};

/// A chunk of a structured reply to the request of this cookie, in front of its payload of so many bytes.
#[derive(Clone, Copy, Debug, PartialEq, Eq)]
pub struct Chunk {
    pub flags: u16,
    pub kind: u16,
    pub cookie: u64,
    pub len: u32,
}

impl Chunk {
    /// What the bytes say; None exactly where their magic number is another.
    pub fn read(bytes: &[u8; 20]) -> Option<Chunk>
        ensures { result ≡ chunk_of bytes.now }
    {
        if u32_at(bytes, 0) != CHUNK_MAGIC {
            return None;
        }
        Some(Chunk {
            flags: u16_at(bytes, 4),
            kind: u16_at(bytes, 6),
            cookie: u64_at(bytes, 8),
            len: u32_at(bytes, 16),
        })
    }

    /// The bytes.
    pub fn bytes(&self) -> [u8; 20]
        ensures { result ≡ chunk_bytes self.now }
    {
        let mut bytes = [0; 20];
        put_u32(&mut bytes, 0, CHUNK_MAGIC);
        put_u16(&mut bytes, 4, self.flags);
        put_u16(&mut bytes, 6, self.kind);
        put_u64(&mut bytes, 8, self.cookie);
        put_u32(&mut bytes, 16, self.len);
        bytes
    }
}

/// The structured reply that all is done.
pub fn done_chunk(cookie: u64) -> [u8; 20]
    ensures { result ≡ done_chunk cookie }
{
    Chunk {
        flags: CHUNK_DONE,
        kind: CHUNK_NONE,
        cookie,
        len: 0,
    }
    .bytes()
}

/// The structured reply to a read, in front of its so many bytes from an offset on.
pub fn data_chunk(cookie: u64, offset: u64, count: u32) -> [u8; 28]
    requires { count + 8 < 2 ^ 32 }
    ensures { result ≡ data_chunk cookie offset count }
{
    let head = Chunk {
        flags: CHUNK_DONE,
        kind: CHUNK_OFFSET_DATA,
        cookie,
        len: 8 + count,
    };
    let mut bytes = [0; 28];
    bytes[..20].copy_from_slice(&head.bytes());
    put_u64(&mut bytes, 20, offset);
    bytes
}

/// The structured reply that a request failed, without a text.
pub fn error_chunk(cookie: u64, error: u32) -> [u8; 26]
    ensures { result ≡ error_chunk cookie error }
{
    let head = Chunk {
        flags: CHUNK_DONE,
        kind: CHUNK_ERROR,
        cookie,
        len: 6,
    };
    let mut bytes = [0; 26];
    bytes[..20].copy_from_slice(&head.bytes());
    put_u32(&mut bytes, 20, error);
    bytes
}

/// What is written is read back.
pub fn chunks_come_back()
    ensures { ChunksComeBack }
{}
