//! What is to be done for a request, by its head alone.
ghost use Rattle.std.specs.Prelude.{◌≡◌};
ghost use Rattle.geo_server.specs.Judging.{are_known, cmd_of, data_len, is_too_long, judge, judged_cmd, judged_range, past_end};

use geo_base::BioCmd;
use geo_nbd::{
    ERROR_INVALID, ERROR_NO_SPACE, REQUEST_DISCONNECT, REQUEST_FLUSH, REQUEST_READ, REQUEST_TRIM,
    REQUEST_WRITE, REQUEST_WRITE_ZEROES, Request,
};

/// The most bytes of a read or a write: 32 MiB.
pub const MAX_TRANSFER: u32 = 33_554_432;

/// What is to be done for a request.
#[derive(Clone, Copy, Debug, PartialEq, Eq)]
pub enum Judged {
    /// The session ends.
    Ends,
    /// It fails with this error.
    Fails(u32),
    /// It is a command.
    Stands(BioCmd),
}

/// The command that a kind of request stands for.
fn cmd_of(kind: u16) -> Option<BioCmd>
    ensures { result ≡ cmd_of kind }
{
    match kind {
        REQUEST_READ => Some(BioCmd::Read),
        REQUEST_WRITE => Some(BioCmd::Write),
        REQUEST_FLUSH => Some(BioCmd::Flush),
        REQUEST_TRIM => Some(BioCmd::Delete),
        REQUEST_WRITE_ZEROES => Some(BioCmd::Delete),
        _ => None,
    }
}

/// Whether all flags are known: FUA, and NO_HOLE of WRITE_ZEROES.
fn are_known(kind: u16, flags: u16) -> bool
    ensures { result ≡ are_known kind flags }
{
    flags < 2 || (flags < 4 && kind == REQUEST_WRITE_ZEROES)
}

/// The error of a range that goes past the end.
fn past_end(cmd: BioCmd) -> u32
    ensures { result ≡ past_end cmd }
{
    match cmd {
        BioCmd::Read => ERROR_INVALID,
        _ => ERROR_NO_SPACE,
    }
}

/// Whether so many bytes are more than a request may carry.
fn is_too_long(cmd: BioCmd, len: u32) -> bool
    ensures { result ≡ is_too_long cmd len }
{
    match cmd {
        BioCmd::Read | BioCmd::Write => MAX_TRANSFER < len,
        _ => false,
    }
}

/// What is to be done for a range of an export of so many bytes.
fn judged_range(size: u64, cmd: BioCmd, offset: u64, len: u32) -> Judged
    ensures { result ≡ judged_range size cmd offset len }
{
    if len == 0 || is_too_long(cmd, len) {
        return Judged::Fails(ERROR_INVALID);
    }
    if size < len as u64 || size - (len as u64) < offset {
        return Judged::Fails(past_end(cmd));
    }
    Judged::Stands(cmd)
}

/// What is to be done for a command.
fn judged_cmd(size: u64, cmd: BioCmd, request: &Request) -> Judged
    ensures { result ≡ judged_cmd size cmd request.now }
{
    match cmd {
        BioCmd::Flush => Judged::Stands(BioCmd::Flush),
        _ => judged_range(size, cmd, request.offset, request.len),
    }
}

/// What is to be done for a request to an export of so many bytes.
pub fn judge(size: u64, request: &Request) -> Judged
    ensures { result ≡ judge size request.now }
{
    if request.kind == REQUEST_DISCONNECT {
        return Judged::Ends;
    }
    let Some(cmd) = cmd_of(request.kind) else {
        return Judged::Fails(ERROR_INVALID);
    };
    if !are_known(request.kind, request.flags) {
        return Judged::Fails(ERROR_INVALID);
    }
    judged_cmd(size, cmd, request)
}

/// How many bytes follow a head. None where they are more than are read: the session ends then.
pub fn data_len(request: &Request) -> Option<u32>
    ensures { result ≡ data_len request.now }
{
    if request.kind != REQUEST_WRITE {
        return Some(0);
    }
    if MAX_TRANSFER < request.len {
        return None;
    }
    Some(request.len)
}
