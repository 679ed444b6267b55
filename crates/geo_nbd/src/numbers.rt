//! The numbers of the protocol, each stated once, in its words (nbd(5)).

/// What a server says first: the two magic numbers, and the handshake flags FIXED_NEWSTYLE and NO_ZEROES.
pub const GREETING: [u8; 18] = *b"NBDMAGICIHAVEOPT\x00\x03";

/// The flags of a client: FIXED_NEWSTYLE and NO_ZEROES.
pub const CLIENT_FIXED_NEWSTYLE: u32 = 1;

pub const CLIENT_NO_ZEROES: u32 = 2;

/// Options.
pub const OPTION_MAGIC: u64 = 0x4948_4156_454f_5054;

pub const OPTION_EXPORT_NAME: u32 = 1;

pub const OPTION_ABORT: u32 = 2;

pub const OPTION_LIST: u32 = 3;

pub const OPTION_INFO: u32 = 6;

pub const OPTION_GO: u32 = 7;

pub const OPTION_STRUCTURED_REPLY: u32 = 8;

/// The most bytes of an option's data: a name of 4,096 bytes and 256 bytes beside it.
pub const MAX_OPTION_BYTES: u32 = 4_352;

/// Replies to options.
pub const OPTION_REPLY_MAGIC: u64 = 0x0003_e889_0455_65a9;

pub const REPLY_ACK: u32 = 1;

pub const REPLY_SERVER: u32 = 2;

pub const REPLY_INFO: u32 = 3;

pub const REPLY_ERROR_UNSUPPORTED: u32 = 0x8000_0001;

pub const REPLY_ERROR_INVALID: u32 = 0x8000_0003;

pub const REPLY_ERROR_UNKNOWN: u32 = 0x8000_0006;

/// What an INFO reply tells.
pub const INFO_EXPORT: u16 = 0;

pub const INFO_BLOCK_SIZE: u16 = 3;

/// The block size that is preferred, and the greatest.
pub const PREFERRED_BLOCK: u32 = 4_096;

pub const MAX_BLOCK: u32 = 32_768;

/// The flags of an export.
pub const EXPORT_HAS_FLAGS: u16 = 1;

pub const EXPORT_READ_ONLY: u16 = 2;

pub const EXPORT_SEND_FLUSH: u16 = 4;

pub const EXPORT_SEND_FUA: u16 = 8;

pub const EXPORT_SEND_TRIM: u16 = 32;

pub const EXPORT_SEND_WRITE_ZEROES: u16 = 64;

/// Requests: their kinds and their flags.
pub const REQUEST_MAGIC: u32 = 0x2560_9513;

pub const REQUEST_READ: u16 = 0;

pub const REQUEST_WRITE: u16 = 1;

pub const REQUEST_DISCONNECT: u16 = 2;

pub const REQUEST_FLUSH: u16 = 3;

pub const REQUEST_TRIM: u16 = 4;

pub const REQUEST_WRITE_ZEROES: u16 = 6;

pub const REQUEST_FUA: u16 = 1;

pub const REQUEST_NO_HOLE: u16 = 2;

/// Replies to requests.
pub const SIMPLE_REPLY_MAGIC: u32 = 0x6744_6698;

pub const CHUNK_MAGIC: u32 = 0x668e_33ef;

pub const CHUNK_DONE: u16 = 1;

pub const CHUNK_NONE: u16 = 0;

pub const CHUNK_OFFSET_DATA: u16 = 1;

pub const CHUNK_ERROR: u16 = 0x8001;

/// Errors of requests.
pub const ERROR_NOT_PERMITTED: u32 = 1;

pub const ERROR_IO: u32 = 5;

pub const ERROR_NO_MEMORY: u32 = 12;

pub const ERROR_INVALID: u32 = 22;

pub const ERROR_NO_SPACE: u32 = 28;

pub const ERROR_OVERFLOW: u32 = 75;

pub const ERROR_NOT_SUPPORTED: u32 = 95;
