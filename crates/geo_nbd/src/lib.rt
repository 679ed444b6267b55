//! The NBD protocol of a server (nbd-server(1), its fixed newstyle handshake): heads of messages as bytes, and what is
//! answered in the handshake. Nothing here reads or writes a stream.
//!
//! - Heads: [`OptionHead`], [`OptionReply`], [`Request`], [`SimpleReply`] and [`Chunk`]. Each is read of bytes exactly
//!   as its definition says (`specs/Messages.antt`): None where the magic number is another. Each is written so, and
//!   what is written is read back ([`requests_come_back`] and the laws beside it). [`done_chunk`], [`data_chunk`] and
//!   [`error_chunk`] are structured replies of one chunk.
//! - The handshake: the server says [`GREETING`]; [`after_flags`] is the phase after the client's flags;
//!   [`next_option`] is the head of an option, and None where its data is above 4,352 bytes; [`answer`] gives the bytes
//!   that are sent for an option, and the phase behind it. Each is what `specs/Handshake.antt` says.
//! - An [`Export`] is a provider by its name, of 1 to 63 bytes. The empty name means the first one.
//! - `NoMemory` comes from [`answer`] alone, and leaves nothing.
//!
//! EXPORT_NAME, ABORT, LIST, INFO, GO and STRUCTURED_REPLY are answered, and each other option is refused as
//! unsupported. INFO and GO always tell the block sizes. A client that doesn't say that it speaks the fixed newstyle
//! is served like another.
//!
//! [`worked`] has bytes of sessions, computed from the definitions. Tests stand in geo_tests_low. Read
//! `specs/Handshake.antt` first, then `src/handshake.rt`.
#![tactic(auto)]

mod chunk;
mod export;
mod field;
mod handshake;
mod numbers;
mod option_head;
mod option_reply;
mod phase;
mod request;
mod simple_reply;
mod tell;
pub mod worked;

pub use chunk::{Chunk, chunks_come_back, data_chunk, done_chunk, error_chunk};
pub use export::Export;
pub use handshake::{after_flags, answer, next_option};
pub use numbers::{
    CHUNK_DONE, CHUNK_ERROR, CHUNK_NONE, CHUNK_OFFSET_DATA, CLIENT_FIXED_NEWSTYLE,
    CLIENT_NO_ZEROES, ERROR_INVALID, ERROR_IO, ERROR_NO_MEMORY, ERROR_NO_SPACE,
    ERROR_NOT_PERMITTED, ERROR_NOT_SUPPORTED, ERROR_OVERFLOW, EXPORT_HAS_FLAGS, EXPORT_READ_ONLY,
    EXPORT_SEND_FLUSH, EXPORT_SEND_FUA, EXPORT_SEND_TRIM, EXPORT_SEND_WRITE_ZEROES, GREETING,
    MAX_BLOCK, MAX_OPTION_BYTES, OPTION_ABORT, OPTION_EXPORT_NAME, OPTION_GO, OPTION_INFO,
    OPTION_LIST, OPTION_STRUCTURED_REPLY, REPLY_ACK, REPLY_ERROR_INVALID, REPLY_ERROR_UNKNOWN,
    REPLY_ERROR_UNSUPPORTED, REPLY_INFO, REPLY_SERVER, REQUEST_DISCONNECT, REQUEST_FLUSH,
    REQUEST_FUA, REQUEST_NO_HOLE, REQUEST_READ, REQUEST_TRIM, REQUEST_WRITE, REQUEST_WRITE_ZEROES,
};
pub use option_head::{OptionHead, option_heads_come_back};
pub use option_reply::{OptionReply, option_replies_come_back};
pub use phase::{Agreed, Answer, Phase};
pub use request::{Request, requests_come_back};
pub use simple_reply::{SimpleReply, simple_replies_come_back};
