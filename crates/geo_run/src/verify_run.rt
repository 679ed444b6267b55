//! The run of the word `verify`: a trace is read, and what is found of it is said.
ghost use Rattle.std.specs.Prelude.{◌≤◌, length};
ghost use Rattle.geo_headline.specs.Outside.{ShelfView};
ghost use Rattle.geo_headline.specs.Verifying.{verified};
ghost use Rattle.geo_run.specs.Calls.{FinishesVerified, IsFoundIn};

use crate::finish::{Finish, unopened};
use crate::read::read_source;
use crate::stop::Stop;
use geo_base::MAX_TRACE_BYTES;
use geo_io::Source;
use geo_verify::{VerifyRefusal, verify};
use std::alloc::Global;

/// What is found of a text, or its first fault.
fn found_in(alloc: Global, text: &[u8]) -> Stop
    requires { length text.now ≤ MAX_TRACE_BYTES }
    ensures { IsFoundIn (verified text.now) result }
{
    match verify(alloc, text) {
        Ok(found) => Stop::Answered(found),
        Err(VerifyRefusal::Script { line, cause }) => Stop::NoScript { line, cause },
        Err(VerifyRefusal::Trace { line }) => Stop::NoTrace { line },
        Err(VerifyRefusal::NoMemory) => Stop::NoMemory,
    }
}

/// Reads the source to its end, and says what is found of its text. No disk is taken, and no log comes.
pub fn run_verify<S: Source>(alloc: Global, source: &mut S) -> Finish
    ensures { (shelf : ShelfView) → FinishesVerified
        (S.view source.old)
        (S.view source.new) result shelf shelf }
{
    match read_source(alloc, source, MAX_TRACE_BYTES) {
        Ok(text) => unopened(alloc, found_in(alloc, text.bytes())),
        Err(stop) => unopened(alloc, stop),
    }
}
