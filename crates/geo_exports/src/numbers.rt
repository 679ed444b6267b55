//! Errors and commands of requests as the numbers that C has of them.
ghost use Rattle.std.specs.Prelude.{◌≡◌};
ghost use Rattle.geo_exports.specs.Numbers.{error_number, given_code, given_error, op_number, reply_error};

use crate::codes::{NO_MEMORY, OK, REPLIED, UNFIT};
use geo_base::{BioCmd, Errno};
use geo_model::Reply;
use geo_session::SessionRefusal;

/// The number of a command of a request.
pub fn op_number(cmd: BioCmd) -> u32
    ensures { result ≡ op_number cmd }
{
    match cmd {
        BioCmd::Read => 1,
        BioCmd::Write => 2,
        BioCmd::Delete => 3,
        BioCmd::Flush => 4,
    }
}

/// The number of an error.
pub fn error_number(errno: Errno) -> u32
    ensures { result ≡ error_number errno }
{
    match errno {
        Errno::ENOENT => 1,
        Errno::EEXIST => 2,
        Errno::EBADF => 3,
        Errno::ENXIO => 4,
        Errno::EPERM => 5,
        Errno::EOVERFLOW => 6,
        Errno::EBUSY => 7,
        Errno::EINVAL => 8,
        Errno::EIO => 9,
        Errno::ELOOP => 10,
        Errno::EDEEP => 11,
    }
}

/// The number of a reply's error; 0 where it is well.
pub fn reply_error(reply: &Reply) -> u32
    ensures { result ≡ reply_error reply.now }
{
    match reply {
        Reply::Refused(errno) => error_number(*errno),
        _ => 0,
    }
}

/// What is told of a command that was given.
pub fn given_code(given: &Result<Option<Reply>, SessionRefusal>) -> i32
    ensures { result ≡ given_code given.now }
{
    match given {
        Ok(None) => OK,
        Ok(Some(_)) => REPLIED,
        Err(SessionRefusal::NotEnabled { .. }) => UNFIT,
        Err(SessionRefusal::NoMemory) => NO_MEMORY,
    }
}

/// The error of a command that was replied to at once, else 0.
pub fn given_error(given: &Result<Option<Reply>, SessionRefusal>) -> u32
    ensures { result ≡ given_error given.now }
{
    match given {
        Ok(Some(reply)) => reply_error(reply),
        _ => 0,
    }
}
