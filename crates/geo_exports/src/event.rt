//! What is due, as it is told to C.
ghost use Rattle.std.specs.Prelude.{◌≡◌, ◌≤◌, ◌++◌, length, drop};
ghost use Rattle.geo_exports.specs.Events.{bytes_of, event_of, plain, reply_bytes};

use crate::numbers::{op_number, reply_error};
use geo_model::Reply;
use geo_tags::Due;

/// Nothing is due until a disk answers or a command comes.
pub const IDLE: u32 = 0;

/// A disk is asked: its answer is to be given for the bio.
pub const ASK: u32 = 1;

/// The reply to the request that carries the token.
pub const REPLY: u32 = 2;

/// A step was made inside the mesh.
pub const MOVED: u32 = 3;

/// A step was made inside the mesh that may have changed its graph.
pub const CHANGED: u32 = 4;

/// What is due. Fields that the kind doesn't speak of are 0.
#[repr(C)]
#[derive(Clone, Copy)]
pub struct TzbEvent {
    pub kind: u32,
    /// What the disk is asked for: 1 READ, 2 WRITE, 3 DELETE, 4 FLUSH.
    pub op: u32,
    /// The place of the disk in the header.
    pub disk: u32,
    /// How many sectors.
    pub count: u32,
    pub bio: u64,
    /// The first sector.
    pub first: u64,
    pub token: u64,
    /// How many bytes a WRITE has that is asked, or a READ that is replied to.
    pub len: u64,
    /// The number of the reply's error, or 0.
    pub error: u32,
    /// 0.
    pub spare: u32,
    /// How many steps were of the graph, where one was made.
    pub generation: u64,
}

/// An event of a kind, and nothing else.
pub fn plain(kind: u32) -> TzbEvent
    ensures { result ≡ plain kind }
{
    TzbEvent {
        kind,
        op: 0,
        disk: 0,
        count: 0,
        bio: 0,
        first: 0,
        token: 0,
        len: 0,
        error: 0,
        spare: 0,
        generation: 0,
    }
}

fn reply_bytes(reply: &Reply) -> &[u8]
    ensures { result.now ≡ reply_bytes reply.now }
{
    match reply {
        Reply::Bytes(bytes) => bytes.bytes(),
        _ => &[],
    }
}

/// The bytes that a disk is to write, or that a request read.
pub fn bytes_of(due: &Due) -> &[u8]
    ensures { result.now ≡ bytes_of due.now }
{
    match due {
        Due::Ask { request, .. } => request.bytes.bytes(),
        Due::Reply { reply, .. } => reply_bytes(reply),
        _ => &[],
    }
}

/// What is due, but for its bytes.
pub fn event_of(due: &Due) -> TzbEvent
    ensures { result ≡ event_of due.now }
{
    match due {
        Due::Ask { disk, bio, request } => TzbEvent {
            op: op_number(request.cmd),
            disk: *disk,
            count: request.count,
            bio: bio.number(),
            first: request.first,
            len: request.bytes.len() as u64,
            ..plain(ASK)
        },
        Due::Reply { token, reply } => TzbEvent {
            token: *token,
            len: reply_bytes(reply).len() as u64,
            error: reply_error(reply),
            ..plain(REPLY)
        },
        Due::Moved => plain(MOVED),
        Due::Changed { generation } => TzbEvent {
            generation: *generation,
            ..plain(CHANGED)
        },
        Due::Idle => plain(IDLE),
    }
}

/// Copies bytes to the front of a buffer, as far as there is room for them.
pub fn copy_to(from: &[u8], to: &mut [u8])
    ensures { length from.now ≤ length to.old → to.new ≡ from.now ++ drop (length from.now) to.old }
{
    if from.len() <= to.len() {
        to[..from.len()].copy_from_slice(from);
    } else {
        let room = to.len();
        to.copy_from_slice(&from[..room]);
    }
}
