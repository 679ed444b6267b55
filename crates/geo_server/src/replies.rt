//! Replies to requests, as bytes.
ghost use Rattle.std.specs.Prelude.{◌≡◌, ◌+◌, ◌<◌, ◌^◌, ◌++◌, length, OnOk};
ghost use Rattle.geo_server.specs.Serving.{done, failed, read_head, read_reply, reply_to};
ghost use Rattle.geo_server.specs.Whole.{IsWhole};

use crate::asked::Asked;
use geo_base::{BioCmd, NoMemory};
use geo_nbd::{ERROR_IO, SimpleReply, data_chunk, done_chunk, error_chunk};
use geo_text::Text;

/// That a request failed.
pub fn add_failed(out: &mut Text, structured: bool, cookie: u64, error: u32) -> Result<(), NoMemory>
    ensures { OnOk result (out.new ≡ out.old ++ failed structured cookie error) }
{
    if structured {
        return out.add(&error_chunk(cookie, error));
    }
    let reply = SimpleReply { error, cookie };
    out.add(&reply.bytes())
}

/// That a request is done.
fn add_done(out: &mut Text, structured: bool, cookie: u64) -> Result<(), NoMemory>
    ensures { OnOk result (out.new ≡ out.old ++ done structured cookie) }
{
    if structured {
        return out.add(&done_chunk(cookie));
    }
    let reply = SimpleReply { error: 0, cookie };
    out.add(&reply.bytes())
}

/// That these bytes were read: all that comes before them.
fn add_read_head(
    out: &mut Text,
    structured: bool,
    cookie: u64,
    offset: u64,
    count: u32,
) -> Result<(), NoMemory>
    requires { count + 8 < 2 ^ 32 }
    ensures { OnOk result (out.new ≡ out.old ++ read_head structured cookie offset count) }
{
    if structured {
        return out.add(&data_chunk(cookie, offset, count));
    }
    let reply = SimpleReply { error: 0, cookie };
    out.add(&reply.bytes())
}

/// The reply of a read: its bytes, or an error where they aren't as many as were asked for.
fn add_read(out: &mut Text, structured: bool, asked: &Asked) -> Result<(), NoMemory>
    requires { asked.now.len + 8 < 2 ^ 32 }
    ensures { OnOk result (out.new ≡ out.old ++ read_reply structured asked.now) }
{
    let bytes = asked.got.bytes();
    if bytes.len() != asked.len as usize {
        return add_failed(out, structured, asked.cookie, ERROR_IO);
    }
    add_read_head(out, structured, asked.cookie, asked.offset, asked.len)?;
    out.add(bytes)
}

/// The reply of a request that ended with this error, or without one.
pub fn add_reply(
    out: &mut Text,
    structured: bool,
    asked: &Asked,
    error: u32,
) -> Result<(), NoMemory>
    requires { IsWhole asked.now }
    ensures { OnOk result (out.new ≡ out.old ++ reply_to structured asked.now error) }
{
    if error != 0 {
        return add_failed(out, structured, asked.cookie, error);
    }
    match asked.cmd {
        BioCmd::Read => add_read(out, structured, asked),
        _ => add_done(out, structured, asked.cookie),
    }
}
