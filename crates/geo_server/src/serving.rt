//! How a request goes on: its next command, and what the mesh's reply to that makes of it.
ghost use Rattle.std.specs.Prelude.{◌≡◌, ◌+◌, ◌≤◌, length, take, drop, IfOk};
ghost use Rattle.geo_model.specs.Plans.{IsCommand, IsRunsBytes, IsShortName};
ghost use Rattle.geo_server.specs.Serving.{changes, error_of, go_on, next_command, next_of, piece};
ghost use Rattle.geo_server.specs.Whole.{IsAsked, IsWhole, KeepsWhole};

use crate::asked::Asked;
use geo_base::{BioCmd, Errno, MAX_REQUEST_BYTES, MAX_RUNS_BYTES, Name, NoMemory, SharedBytes};
use geo_model::{Command, Reply};
use geo_nbd::{ERROR_INVALID, ERROR_IO, ERROR_NOT_PERMITTED, ERROR_OVERFLOW};
use std::alloc::Global;

/// How a request goes on.
#[derive(Drop)]
pub enum Going {
    /// Its next command is made.
    Goes(Asked),
    /// It is replied to: with this error, or 0.
    Ends(Asked, u32),
}

/// How many bytes the next command is for.
fn piece(asked: &Asked) -> u32
    ensures { result ≡ piece asked.now }
{
    let left = asked.len.saturating_sub(asked.done);
    if (left as u64) < MAX_REQUEST_BYTES {
        left
    } else {
        MAX_REQUEST_BYTES as u32
    }
}

/// Bytes that a command of the mesh can carry.
fn are_runs_bytes(bytes: &[u8])
    requires some { 1 ≤ length bytes.now }
    requires not_long { length bytes.now ≤ MAX_RUNS_BYTES }
    ensures { IsRunsBytes bytes.now }
{}

/// The bytes of the next command of a write.
fn next_bytes(alloc: Global, asked: &Asked, len: u32) -> Result<SharedBytes, NoMemory>
    requires whole { length asked.now.bytes ≡ asked.now.len }
    requires inside { asked.now.done + len ≤ asked.now.len }
    requires some { 1 ≤ len }
    requires not_long { len ≤ MAX_RUNS_BYTES }
    ensures part { IfOk result (λ bytes. bytes ≡ take len (drop asked.now.done asked.now.bytes)) }
    ensures runs { IfOk result IsRunsBytes }
{
    let part = asked.bytes.part(alloc, asked.done as u64, len as u64)?;
    are_runs_bytes(part.bytes());
    Ok(part)
}

/// The next command of a request, through a handle of the mesh.
pub fn next_command(alloc: Global, handle: Name, asked: &Asked) -> Result<Command, NoMemory>
    requires asked { IsAsked asked.now }
    requires short { IsShortName handle }
    ensures next { IfOk result (λ command. command ≡ next_command handle asked.now) }
    ensures is_command { IfOk result IsCommand }
{
    let piece = piece(asked);
    let len = piece as u64;
    let offset = asked.offset + asked.done as u64;
    match asked.cmd {
        BioCmd::Read => Ok(Command::Read {
            handle,
            offset,
            len,
        }),
        BioCmd::Write => Ok(Command::Write {
            handle,
            offset,
            bytes: next_bytes(alloc, asked, piece)?,
        }),
        BioCmd::Delete => Ok(Command::Delete {
            handle,
            offset,
            len,
        }),
        BioCmd::Flush => Ok(Command::Flush(handle)),
    }
}

/// Whether a command changes what is kept.
fn changes(cmd: BioCmd) -> bool
    ensures { result ≡ changes cmd }
{
    match cmd {
        BioCmd::Write | BioCmd::Delete => true,
        _ => false,
    }
}

/// The number of an error.
fn error_of(errno: Errno) -> u32
    ensures { result ≡ error_of errno }
{
    match errno {
        Errno::EPERM => ERROR_NOT_PERMITTED,
        Errno::EINVAL => ERROR_INVALID,
        Errno::EOVERFLOW => ERROR_OVERFLOW,
        _ => ERROR_IO,
    }
}

/// What comes next: another piece, the flush that FUA asks for, or the reply.
fn next_of(asked: Asked) -> Going
    requires { IsWhole asked }
    ensures next { result ≡ next_of asked }
    ensures keeps { KeepsWhole result }
{
    if asked.done < asked.len {
        return Going::Goes(asked);
    }
    if asked.fua && changes(asked.cmd) {
        let mut last = asked;
        last.cmd = BioCmd::Flush;
        return Going::Goes(last);
    }
    Going::Ends(asked, 0)
}

/// How a request goes on by the mesh's reply to its command. `NoMemory` where there is none for the bytes.
pub fn go_on(asked: Asked, reply: Reply) -> Result<Going, NoMemory>
    requires { IsAsked asked }
    ensures goes { IfOk result (λ going. going ≡ go_on asked reply) }
    ensures keeps { IfOk result KeepsWhole }
{
    let mut asked = asked;
    match reply {
        Reply::Refused(errno) => Ok(Going::Ends(asked, error_of(errno))),
        Reply::Bytes(bytes) => {
            let more = piece(&asked);
            asked.got.add(bytes.bytes())?;
            asked.done += more;
            Ok(next_of(asked))
        }
        other => {
            drop(other);
            asked.done += piece(&asked);
            Ok(next_of(asked))
        }
    }
}
